//! What an instruction says.

/// An operand: its mode and register (0 to 7 each), and the word that follows the instruction for it.
/// That word is there exactly where the mode is 6 or 7, or the register is 7 and the mode 2 or 3.
#[derive(Clone, Copy)]
pub struct Ea {
    pub mode: u8,
    pub register: u8,
    pub next: Option<u16>,
}

/// One instruction, by the fields of its first word.
#[derive(Clone, Copy)]
pub enum Instr {
    /// Bits 12 to 14, whether bit 15 is set, source, destination: MOV, CMP, ADD and their like.
    Two(u8, bool, Ea, Ea),
    /// Bits 9 to 11, register, operand: MUL, DIV, ASH, XOR.
    Extended(u8, u8, Ea),
    /// Bits 6 to 14, whether bit 15 is set, operand: JMP, CLR and their like.
    One(u8, bool, Ea),
    /// JSR: the link register and the place.
    Jsr(u8, Ea),
    /// RTS: the link register.
    Rts(u8),
    /// SOB: the register that counts, and the distance back in words.
    Sob(u8, u8),
    /// High byte, which says the condition, and low byte, the signed distance in words.
    Branch(u8, u8),
    /// EMT: the low byte.
    Emt(u8),
    /// TRAP: the low byte.
    Trap(u8),
    /// Condition codes: whether they are set or cleared, and bits 3 to 0 for N, Z, V and C.
    Flags(bool, u8),
    /// The whole word, as 0 for HALT and 3 for BPT.
    Bare(u8),
}
