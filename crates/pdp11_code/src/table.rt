//! The table of the instructions.

/// How the fields of a first word lie.
pub enum Shape {
    DoubleOperand,
    SingleOperand,
    RegisterOperand,
    JumpToSubroutine,
    ReturnFromSubroutine,
    SubtractOneAndBranch,
    BranchOffset,
    EmulatorTrap,
    ProgramTrap,
    ConditionCodes,
    NoOperand,
}

/// A run of first words that are read in one way: `count` words from `first` on.
pub struct Row {
    pub first: u16,
    pub count: u16,
    pub shape: Shape,
}

/// The table. A word in none of its rows begins no instruction.
pub const ROWS: [Row; 32] = [
    // HALT
    Row {
        first: 0o000000,
        count: 0o1,
        shape: Shape::NoOperand,
    },
    // RTI BPT IOT
    Row {
        first: 0o000002,
        count: 0o3,
        shape: Shape::NoOperand,
    },
    // RTT
    Row {
        first: 0o000006,
        count: 0o1,
        shape: Shape::NoOperand,
    },
    // JMP, to no register
    Row {
        first: 0o000110,
        count: 0o70,
        shape: Shape::SingleOperand,
    },
    // RTS
    Row {
        first: 0o000200,
        count: 0o10,
        shape: Shape::ReturnFromSubroutine,
    },
    // clear and set condition codes
    Row {
        first: 0o000240,
        count: 0o40,
        shape: Shape::ConditionCodes,
    },
    // SWAB
    Row {
        first: 0o000300,
        count: 0o100,
        shape: Shape::SingleOperand,
    },
    // BR BNE BEQ BGE BLT BGT BLE
    Row {
        first: 0o000400,
        count: 0o3400,
        shape: Shape::BranchOffset,
    },
    // JSR R0, to no register
    Row {
        first: 0o004010,
        count: 0o70,
        shape: Shape::JumpToSubroutine,
    },
    // JSR R1, to no register
    Row {
        first: 0o004110,
        count: 0o70,
        shape: Shape::JumpToSubroutine,
    },
    // JSR R2, to no register
    Row {
        first: 0o004210,
        count: 0o70,
        shape: Shape::JumpToSubroutine,
    },
    // JSR R3, to no register
    Row {
        first: 0o004310,
        count: 0o70,
        shape: Shape::JumpToSubroutine,
    },
    // JSR R4, to no register
    Row {
        first: 0o004410,
        count: 0o70,
        shape: Shape::JumpToSubroutine,
    },
    // JSR R5, to no register
    Row {
        first: 0o004510,
        count: 0o70,
        shape: Shape::JumpToSubroutine,
    },
    // JSR SP, to no register
    Row {
        first: 0o004610,
        count: 0o70,
        shape: Shape::JumpToSubroutine,
    },
    // JSR PC, to no register
    Row {
        first: 0o004710,
        count: 0o70,
        shape: Shape::JumpToSubroutine,
    },
    // CLR COM INC DEC NEG ADC SBC TST ROR ROL ASR ASL
    Row {
        first: 0o005000,
        count: 0o1400,
        shape: Shape::SingleOperand,
    },
    // SXT
    Row {
        first: 0o006700,
        count: 0o100,
        shape: Shape::SingleOperand,
    },
    // MOV CMP BIT BIC BIS ADD
    Row {
        first: 0o010000,
        count: 0o60000,
        shape: Shape::DoubleOperand,
    },
    // MUL
    Row {
        first: 0o070000,
        count: 0o1000,
        shape: Shape::RegisterOperand,
    },
    // DIV of R0
    Row {
        first: 0o071000,
        count: 0o100,
        shape: Shape::RegisterOperand,
    },
    // DIV of R2
    Row {
        first: 0o071200,
        count: 0o100,
        shape: Shape::RegisterOperand,
    },
    // DIV of R4
    Row {
        first: 0o071400,
        count: 0o100,
        shape: Shape::RegisterOperand,
    },
    // DIV of SP
    Row {
        first: 0o071600,
        count: 0o100,
        shape: Shape::RegisterOperand,
    },
    // ASH
    Row {
        first: 0o072000,
        count: 0o1000,
        shape: Shape::RegisterOperand,
    },
    // XOR
    Row {
        first: 0o074000,
        count: 0o1000,
        shape: Shape::RegisterOperand,
    },
    // SOB
    Row {
        first: 0o077000,
        count: 0o1000,
        shape: Shape::SubtractOneAndBranch,
    },
    // BPL BMI BHI BLOS BVC BVS BCC BCS
    Row {
        first: 0o100000,
        count: 0o4000,
        shape: Shape::BranchOffset,
    },
    // EMT
    Row {
        first: 0o104000,
        count: 0o400,
        shape: Shape::EmulatorTrap,
    },
    // TRAP
    Row {
        first: 0o104400,
        count: 0o400,
        shape: Shape::ProgramTrap,
    },
    // CLRB COMB INCB DECB NEGB ADCB SBCB TSTB RORB ROLB ASRB ASLB
    Row {
        first: 0o105000,
        count: 0o1400,
        shape: Shape::SingleOperand,
    },
    // MOVB CMPB BITB BICB BISB SUB
    Row {
        first: 0o110000,
        count: 0o60000,
        shape: Shape::DoubleOperand,
    },
];
