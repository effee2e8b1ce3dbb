//! The classes of tokens, each derived from the number of its symbol.
ghost use Rattle.std.specs.Prelude.{◌≡◌};
ghost use Rattle.dice_base.specs.Tokens.{class_of};

use dice_base::{TokenKind, signs, words};

macro_rules! word_class {
    ($symbol:ident) => {
        6 * words::$symbol as u16
    };
}

macro_rules! sign_class {
    ($symbol:ident) => {
        6 * signs::$symbol as u16 + 4
    };
}

pub const IDENT: u16 = 1;

pub const NUMBER: u16 = 2;

pub const STRING: u16 = 3;

pub const HOLE: u16 = 5;

/// Where no token is left.
pub const END_OF_TOKENS: u16 = 11;

pub const AND: u16 = word_class!(AND);

pub const ARRAY: u16 = word_class!(ARRAY);

pub const BEGIN: u16 = word_class!(BEGIN);

pub const CASE: u16 = word_class!(CASE);

pub const CONST: u16 = word_class!(CONST);

pub const DIV: u16 = word_class!(DIV);

pub const DO: u16 = word_class!(DO);

pub const DOWNTO: u16 = word_class!(DOWNTO);

pub const ELSE: u16 = word_class!(ELSE);

pub const END: u16 = word_class!(END);

pub const FOR: u16 = word_class!(FOR);

pub const FUNCTION: u16 = word_class!(FUNCTION);

pub const GOTO: u16 = word_class!(GOTO);

pub const IF: u16 = word_class!(IF);

pub const IN: u16 = word_class!(IN);

pub const LABEL: u16 = word_class!(LABEL);

pub const MOD: u16 = word_class!(MOD);

pub const NIL: u16 = word_class!(NIL);

pub const NOT: u16 = word_class!(NOT);

pub const OF: u16 = word_class!(OF);

pub const OR: u16 = word_class!(OR);

pub const PACKED: u16 = word_class!(PACKED);

pub const PROCEDURE: u16 = word_class!(PROCEDURE);

pub const PROGRAM: u16 = word_class!(PROGRAM);

pub const RECORD: u16 = word_class!(RECORD);

pub const REPEAT: u16 = word_class!(REPEAT);

pub const SET: u16 = word_class!(SET);

pub const THEN: u16 = word_class!(THEN);

pub const TO: u16 = word_class!(TO);

pub const TYPE: u16 = word_class!(TYPE);

pub const UNTIL: u16 = word_class!(UNTIL);

pub const VAR: u16 = word_class!(VAR);

pub const WHILE: u16 = word_class!(WHILE);

pub const WITH: u16 = word_class!(WITH);

pub const PLUS: u16 = sign_class!(PLUS);

pub const MINUS: u16 = sign_class!(MINUS);

pub const TIMES: u16 = sign_class!(TIMES);

pub const EQUAL: u16 = sign_class!(EQUAL);

pub const NOT_EQUAL: u16 = sign_class!(NOT_EQUAL);

pub const LESS: u16 = sign_class!(LESS);

pub const GREATER: u16 = sign_class!(GREATER);

pub const AT_MOST: u16 = sign_class!(AT_MOST);

pub const AT_LEAST: u16 = sign_class!(AT_LEAST);

pub const OPEN: u16 = sign_class!(OPEN);

pub const CLOSE: u16 = sign_class!(CLOSE);

pub const LEFT: u16 = sign_class!(LEFT);

pub const RIGHT: u16 = sign_class!(RIGHT);

pub const BECOMES: u16 = sign_class!(BECOMES);

pub const PERIOD: u16 = sign_class!(PERIOD);

pub const COMMA: u16 = sign_class!(COMMA);

pub const SEMICOLON: u16 = sign_class!(SEMICOLON);

pub const COLON: u16 = sign_class!(COLON);

pub const RANGE: u16 = sign_class!(RANGE);

pub const ARROW: u16 = sign_class!(ARROW);

/// The class of a token.
pub fn class(kind: &TokenKind) -> u16
    ensures { result ≡ class_of kind.now }
{
    match kind {
        TokenKind::Word(number) => 6 * u16::from(*number),
        TokenKind::Ident(_) => IDENT,
        TokenKind::Number(_) => NUMBER,
        TokenKind::Str(_) => STRING,
        TokenKind::Sign(number) => 6 * u16::from(*number) + 4,
        TokenKind::Hole => HOLE,
    }
}
