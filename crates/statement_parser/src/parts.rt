//! The parts of statements that contain no statement.
ghost use Rattle.std.specs.Prelude.{◌≡◌};
ghost use Rattle.dice_base.specs.Tokens.{is_in, operator_of};
ghost use Rattle.token_reader.specs.Readers.{Reads, one, separated};
ghost use Rattle.pascal_tree.specs.Classes.{comma_class};
ghost use Rattle.pascal_tree.specs.Statements.{directions};
ghost use Rattle.expression_parser.specs.Readers as exprs;
ghost use Rattle.expression_parser.specs.Readers.{inside};
ghost use Rattle.declaration_parser.specs.Readers.{constant_first};
ghost use Rattle.statement_parser.specs.Readers as spec;

use dice_base::{Name, Text};
use expression_parser::{access, access_rest, args, expr};
use pascal_tree::{Access, Expr, Stmt, StmtKind};
use sqlite_items::{Boxed, Items};
use std::alloc::Global;
use token_reader::classes::{
    ARROW, BECOMES, COMMA, DOWNTO, GOTO, HOLE, IDENT, LEFT, MINUS, NUMBER, PERIOD, PLUS, STRING, TO,
};
use token_reader::{Cursor, Stop};

/// An expression in a box of its own, for where reading goes on behind it.
pub fn boxed_expr(alloc: Global, tokens: &mut Cursor<'_>, depth: usize) -> Result<Boxed<Expr>, Stop>
    ensures { Reads (exprs.expr (inside depth) tokens.old) result tokens.new }
{
    let value = expr(alloc, tokens, depth)?;
    Ok(Boxed::new(alloc, value)?)
}

/// The direction of a `for` statement: whether its steps go down.
#[tactic(auto, using(token_reader::proofs::Turns::table_some, token_reader::proofs::Turns::table_none))]
pub fn direction(tokens: &mut Cursor<'_>) -> Result<bool, Stop>
    ensures { Reads (one (operator_of directions) tokens.old) result tokens.new }
{
    let down = match tokens.class() {
        TO => false,
        DOWNTO => true,
        _ => return Err(Stop::At),
    };
    tokens.skip();
    Ok(down)
}

/// The records of a `with` statement.
#[tactic(auto, using(token_reader::proofs::Turns::many_step, token_reader::proofs::Turns::many_stop), unfolding(token_reader::specs::Readers::separated))]
pub fn records(alloc: Global, tokens: &mut Cursor<'_>, depth: usize) -> Result<Items<Access>, Stop>
    ensures { Reads (separated comma_class (exprs.access (inside depth)) tokens.old)
        result tokens.new }
{
    let mut found = Items::new(alloc);
    found.push(access(alloc, tokens, depth)?)?;
    for _turn in 0..tokens.len() {
        match tokens.class() {
            COMMA => {
                tokens.expect(COMMA)?;
                found.push(access(alloc, tokens, depth)?)?;
            }
            _ => return Ok(found),
        }
    }
    Ok(found)
}

#[tactic(auto, unfolding(crate::specs::Readers::assign))]
fn assign(
    alloc: Global,
    tokens: &mut Cursor<'_>,
    depth: usize,
    ident: Text,
) -> Result<StmtKind, Stop>
    ensures { Reads (spec.assign (inside depth) ident tokens.old) result tokens.new }
{
    let access = access_rest(alloc, tokens, depth, ident)?;
    tokens.expect(BECOMES)?;
    let value = expr(alloc, tokens, depth)?;
    Ok(StmtKind::Assign(access, value))
}

#[tactic(auto, unfolding(crate::specs::Readers::call))]
fn call(alloc: Global, tokens: &mut Cursor<'_>, depth: usize, ident: Text) -> Result<StmtKind, Stop>
    ensures { Reads (spec.call (inside depth) ident tokens.old) result tokens.new }
{
    let args = args(alloc, tokens, depth)?;
    Ok(StmtKind::Call(ident, args))
}

/// An assignment or a procedure statement.
#[tactic(auto, unfolding(crate::specs::Readers::by_ident))]
pub fn by_ident(alloc: Global, tokens: &mut Cursor<'_>, depth: usize) -> Result<StmtKind, Stop>
    ensures { Reads (spec.by_ident (inside depth) tokens.old) result tokens.new }
{
    let ident = tokens.ident(alloc)?;
    match tokens.class() {
        LEFT | PERIOD | ARROW | BECOMES => assign(alloc, tokens, depth, ident),
        _ => call(alloc, tokens, depth, ident),
    }
}

/// A `goto` statement (6.8.2.4).
#[tactic(auto, unfolding(crate::specs::Readers::goto_statement))]
pub fn goto_statement(tokens: &mut Cursor<'_>) -> Result<StmtKind, Stop>
    ensures { Reads (spec.goto_statement tokens.old) result tokens.new }
{
    tokens.expect(GOTO)?;
    Ok(StmtKind::Goto(tokens.number()?))
}

/// Whether a constant begins with a token of this class, and so an arm of a `case` statement.
pub fn begins_arm(class: u16) -> bool
    ensures { result ≡ is_in constant_first class }
{
    class == IDENT || class == STRING || class == NUMBER || class == PLUS || class == MINUS
}

/// A substatement that is left out.
#[tactic(auto, unfolding(crate::specs::Readers::hole))]
pub fn hole(tokens: &mut Cursor<'_>) -> Result<Stmt, Stop>
    ensures { Reads (spec.hole tokens.old) result tokens.new }
{
    tokens.expect(HOLE)?;
    Ok(Stmt {
        name: Name(0),
        label: None,
        kind: StmtKind::Empty,
    })
}

/// The statements of a `repeat`, left out as one.
#[tactic(auto, unfolding(crate::specs::Readers::hole_list))]
pub fn hole_list(alloc: Global, tokens: &mut Cursor<'_>) -> Result<Items<Stmt>, Stop>
    ensures { Reads (spec.hole_list tokens.old) result tokens.new }
{
    let hole = hole(tokens)?;
    let mut found = Items::new(alloc);
    found.push(hole)?;
    Ok(found)
}
