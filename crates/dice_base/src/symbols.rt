//! The word symbols and signs of Pascal (ISO 7185:1990, 6.1.2): the one table of the repository.
//!
//! A token carries the number of its symbol, which is the symbol's place in one of the two tables, counted from 0.
//! `words` and `signs` name these numbers.

/// The spellings of the word symbols, in lower case, in the order of their numbers.
pub const WORD_SYMBOLS: [&[u8]; 35] = [
    b"and",
    b"array",
    b"begin",
    b"case",
    b"const",
    b"div",
    b"do",
    b"downto",
    b"else",
    b"end",
    b"file",
    b"for",
    b"function",
    b"goto",
    b"if",
    b"in",
    b"label",
    b"mod",
    b"nil",
    b"not",
    b"of",
    b"or",
    b"packed",
    b"procedure",
    b"program",
    b"record",
    b"repeat",
    b"set",
    b"then",
    b"to",
    b"type",
    b"until",
    b"var",
    b"while",
    b"with",
];

/// The spellings of the signs, in the order of their numbers. `@`, `(.` and `.)` are other spellings of `^`, `[` and `]`
/// (6.1.9) and have no number of their own.
pub const SIGNS: [&[u8]; 20] = [
    b"+", b"-", b"*", b"=", b"<>", b"<", b">", b"<=", b">=", b"(", b")", b"[", b"]", b":=", b".",
    b",", b";", b":", b"..", b"^",
];

/// The numbers of the word symbols: places in `WORD_SYMBOLS`.
pub mod words {
    pub const AND: u8 = 0;

    pub const ARRAY: u8 = 1;

    pub const BEGIN: u8 = 2;

    pub const CASE: u8 = 3;

    pub const CONST: u8 = 4;

    pub const DIV: u8 = 5;

    pub const DO: u8 = 6;

    pub const DOWNTO: u8 = 7;

    pub const ELSE: u8 = 8;

    pub const END: u8 = 9;

    pub const FILE: u8 = 10;

    pub const FOR: u8 = 11;

    pub const FUNCTION: u8 = 12;

    pub const GOTO: u8 = 13;

    pub const IF: u8 = 14;

    pub const IN: u8 = 15;

    pub const LABEL: u8 = 16;

    pub const MOD: u8 = 17;

    pub const NIL: u8 = 18;

    pub const NOT: u8 = 19;

    pub const OF: u8 = 20;

    pub const OR: u8 = 21;

    pub const PACKED: u8 = 22;

    pub const PROCEDURE: u8 = 23;

    pub const PROGRAM: u8 = 24;

    pub const RECORD: u8 = 25;

    pub const REPEAT: u8 = 26;

    pub const SET: u8 = 27;

    pub const THEN: u8 = 28;

    pub const TO: u8 = 29;

    pub const TYPE: u8 = 30;

    pub const UNTIL: u8 = 31;

    pub const VAR: u8 = 32;

    pub const WHILE: u8 = 33;

    pub const WITH: u8 = 34;
}

/// The numbers of the signs: places in `SIGNS`.
pub mod signs {
    /// `+`
    pub const PLUS: u8 = 0;
    /// `-`
    pub const MINUS: u8 = 1;
    /// `*`
    pub const TIMES: u8 = 2;
    /// `=`
    pub const EQUAL: u8 = 3;
    /// `<>`
    pub const NOT_EQUAL: u8 = 4;
    /// `<`
    pub const LESS: u8 = 5;
    /// `>`
    pub const GREATER: u8 = 6;
    /// `<=`
    pub const AT_MOST: u8 = 7;
    /// `>=`
    pub const AT_LEAST: u8 = 8;
    /// `(`
    pub const OPEN: u8 = 9;
    /// `)`
    pub const CLOSE: u8 = 10;
    /// `[`
    pub const LEFT: u8 = 11;
    /// `]`
    pub const RIGHT: u8 = 12;
    /// `:=`
    pub const BECOMES: u8 = 13;
    /// `.`
    pub const PERIOD: u8 = 14;
    /// `,`
    pub const COMMA: u8 = 15;
    /// `;`
    pub const SEMICOLON: u8 = 16;
    /// `:`
    pub const COLON: u8 = 17;
    /// `..`
    pub const RANGE: u8 = 18;
    /// `^`
    pub const ARROW: u8 = 19;
}
