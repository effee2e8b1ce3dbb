//! The numbers of the services and of what they answer.

/// The program has ended.
pub const PROGRAM_END: u8 = 0;

/// Writes the integer in R0 in the width in R1.
pub const WRITE_INTEGER: u8 = 4;

/// Writes a line end.
pub const WRITE_LINE_END: u8 = 8;

/// The largest width of an integer; the least is 1.
pub const MAX_WIDTH: u16 = 255;

/// The run-time error of a width out of range.
pub const WIDTH_ERROR: u8 = 11;

/// The largest number of a run-time error; the least is 1.
pub const MAX_ERROR: u8 = 14;
