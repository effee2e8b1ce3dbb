//! The statements that are built.

/// An operand.
#[derive(Clone, Copy, PartialEq, Eq)]
pub enum Operand {
    /// The global word of this number, below 4,096.
    Global(u16),
    /// A number up to 32,767.
    Number(u16),
}

/// One operand, or the sum of two.
#[derive(Clone, Copy, PartialEq, Eq)]
pub struct Sum {
    pub first: Operand,
    pub second: Option<Operand>,
}

/// The own form of a statement, its variables resolved to global words.
#[derive(Clone, Copy, PartialEq, Eq)]
pub enum SimpleForm {
    /// The value goes to the global word of this number, below 4,096.
    Assign(u16, Sum),
    /// `writeln` of the value, in this width of 1 to 255 characters, or else in 8.
    WriteLine(Sum, Option<u8>),
    /// The empty statement, which has no effect.
    Empty,
}

/// A statement that has a block: its lasting name, by which replies tell it, and its form.
#[derive(Clone, Copy, PartialEq, Eq)]
pub struct Statement {
    /// No other statement of the program has it, and 1 is the program's own.
    pub name: u32,
    pub form: SimpleForm,
}
