//! The operators of expressions (ISO 7185:1990, 6.7.2.1).
ghost use Rattle.dice_base.specs.Tokens.{operator_of};
ghost use Rattle.pascal_tree.specs.Expressions.{mul_ops, add_ops, rel_ops};
ghost use Rattle.token_reader.specs.Readers.{Reads, one};
ghost use Rattle.expression_parser.specs.Readers as spec;

use pascal_tree::{AddOp, MulOp, Prefix, RelOp};
use token_reader::classes::{
    AND, AT_LEAST, AT_MOST, DIV, EQUAL, GREATER, IN, LESS, MINUS, MOD, NOT_EQUAL, OR, PLUS, TIMES,
};
use token_reader::{Cursor, Stop};

/// A multiplying operator.
#[tactic(auto, using(token_reader::proofs::Turns::table_some, token_reader::proofs::Turns::table_none))]
pub fn mul_op(tokens: &mut Cursor<'_>) -> Result<MulOp, Stop>
    ensures { Reads (one (operator_of mul_ops) tokens.old) result tokens.new }
{
    let op = match tokens.class() {
        TIMES => MulOp::Times,
        DIV => MulOp::Div,
        MOD => MulOp::Mod,
        AND => MulOp::And,
        _ => return Err(Stop::At),
    };
    tokens.skip();
    Ok(op)
}

/// An adding operator.
#[tactic(auto, using(token_reader::proofs::Turns::table_some, token_reader::proofs::Turns::table_none))]
pub fn add_op(tokens: &mut Cursor<'_>) -> Result<AddOp, Stop>
    ensures { Reads (one (operator_of add_ops) tokens.old) result tokens.new }
{
    let op = match tokens.class() {
        PLUS => AddOp::Plus,
        MINUS => AddOp::Minus,
        OR => AddOp::Or,
        _ => return Err(Stop::At),
    };
    tokens.skip();
    Ok(op)
}

/// A relational operator.
#[tactic(auto, using(token_reader::proofs::Turns::table_some, token_reader::proofs::Turns::table_none))]
pub fn rel_op(tokens: &mut Cursor<'_>) -> Result<RelOp, Stop>
    ensures { Reads (one (operator_of rel_ops) tokens.old) result tokens.new }
{
    let op = match tokens.class() {
        EQUAL => RelOp::Equal,
        NOT_EQUAL => RelOp::NotEqual,
        LESS => RelOp::Less,
        GREATER => RelOp::Greater,
        AT_MOST => RelOp::LessEqual,
        AT_LEAST => RelOp::GreaterEqual,
        IN => RelOp::Member,
        _ => return Err(Stop::At),
    };
    tokens.skip();
    Ok(op)
}

/// The sign before a sum, if there is one.
#[tactic(auto, using(token_reader::proofs::Turns::table_some), unfolding(crate::specs::Readers::sign, token_reader::specs::Readers::operator_or_else))]
pub fn sign(tokens: &mut Cursor<'_>) -> Result<Prefix, Stop>
    ensures { Reads (spec.sign tokens.old) result tokens.new }
{
    let prefix = match tokens.class() {
        PLUS => Prefix::Plus,
        MINUS => Prefix::Minus,
        _ => return Ok(Prefix::Without),
    };
    tokens.skip();
    Ok(prefix)
}
