//! The blocks of a statement and of all in it, in the order of the text (ISO 7185:1990, 6.8).
ghost use Rattle.std.specs.Prelude.{◌≡◌, ◌+◌, length, map, OnOk};
ghost use Rattle.resolve_statements.specs.Forms as spec;
ghost use Rattle.resolve_statements.specs.Statements as folds;
ghost use Rattle.resolve_statements.specs.Tables as tables;

use crate::blocks::push_head;
use crate::control::hold_effects;
use crate::entries::entry_of;
use crate::place::{Place, end_place, step_place, turn_place};
use crate::statements::close_records;
use check_rules::CheckEnd;
use core_tree::{CoreBlock, LinkEnd};
use dice_base::{Name, NoMemory};
use pascal_tree::{Access, Arm, Stmt, StmtKind};
use resolve_expr::Context;
use sqlite_items::Items;
use std::alloc::Global;

// The place of a statement of a sequence, before these.
fn place_before(later: &[Stmt], place: Place) -> Place
    ensures { tables.IsBefore later.now place result }
{
    let after = match later {
        [next, ..] => LinkEnd::Gate(entry_of(next)),
        [] => place.after,
    };
    Place {
        routine: place.routine,
        after,
        around: place.around,
    }
}

// Into the body of a `for`.
fn enter_for(context: &mut Context) -> Result<(), NoMemory>
    ensures { OnOk result (context.new ≡ spec.context_in_for context.old) }
{
    let holds = context.env.holds.checked_add(1).ok_or(NoMemory)?;
    context.env.holds = holds;
    Ok(())
}

fn set_holds(context: &mut Context, holds: u32)
    ensures { context.new ≡ spec.context_holding context.old holds }
{
    context.env.holds = holds;
}

// Into the body of a `with`.
fn enter_with(alloc: Global, context: &mut Context, records: &[Access]) -> Result<(), NoMemory>
    ensures { OnOk result (context.new ≡ spec.context_with context.old (map folds.access_node records.now)) }
{
    hold_effects(alloc, context, records)?;
    Ok(())
}

#[cycle(table)]
fn push_sequence(
    alloc: Global,
    context: &mut Context,
    stmts: &[Stmt],
    place: Place,
    out: &mut Items<CoreBlock>,
) -> Result<(), CheckEnd>
    ensures rows { tables.PushedOver result out.old out.new (tables.stmts_rows stmts.now context.old place) }
    ensures kept { OnOk result (context.new ≡ context.old) }
{
    for (index, stmt) in stmts.iter().enumerate() {
        let here = place_before(&stmts[index + 1..], place);
        match push_statement(alloc, context, stmt, here, out) {
            Err(end) => return Err(end),
            Ok(()) => {}
        }
    }
    Ok(())
}

#[cycle(table)]
fn push_arm(
    alloc: Global,
    context: &mut Context,
    arm: &Arm,
    place: Place,
    out: &mut Items<CoreBlock>,
) -> Result<(), CheckEnd>
    ensures rows { tables.PushedOver result out.old out.new (tables.arm_rows arm.now context.old place) }
    ensures kept { OnOk result (context.new ≡ context.old) }
{
    push_statement(alloc, context, &arm.body, place, out)
}

#[cycle(table)]
fn push_arms(
    alloc: Global,
    context: &mut Context,
    arms: &[Arm],
    place: Place,
    out: &mut Items<CoreBlock>,
) -> Result<(), CheckEnd>
    ensures rows { tables.PushedOver result out.old out.new (tables.arms_rows arms.now context.old place) }
    ensures kept { OnOk result (context.new ≡ context.old) }
{
    for arm in arms {
        match push_arm(alloc, context, arm, place, out) {
            Err(end) => return Err(end),
            Ok(()) => {}
        }
    }
    Ok(())
}

#[cycle(table)]
fn push_inner(
    alloc: Global,
    context: &mut Context,
    name: Name,
    kind: &StmtKind,
    place: Place,
    out: &mut Items<CoreBlock>,
) -> Result<(), CheckEnd>
    ensures rows { tables.PushedOver result out.old out.new (tables.kind_rows kind.now context.old name place) }
    ensures kept { OnOk result (context.new ≡ context.old) }
{
    match kind {
        StmtKind::Compound(stmts) => push_sequence(alloc, context, stmts.as_slice(), place, out),
        StmtKind::If(_, first, other) => {
            match push_statement(alloc, context, first.get(), place, out) {
                Err(end) => Err(end),
                Ok(()) => match other {
                    None => Ok(()),
                    Some(second) => push_statement(alloc, context, second.get(), place, out),
                },
            }
        }
        StmtKind::Case(_, arms) => push_arms(alloc, context, arms.as_slice(), place, out),
        StmtKind::While(_, body) => {
            push_statement(alloc, context, body.get(), turn_place(name, place), out)
        }
        StmtKind::Repeat(stmts, _) => {
            push_sequence(
                alloc,
                context,
                stmts.as_slice(),
                turn_place(name, place),
                out,
            )
        }
        StmtKind::For(_, _, _, _, body) => {
            let holds = context.env.holds;
            let Ok(()) = enter_for(context) else {
                return Err(CheckEnd::NoMemory);
            };
            match push_statement(alloc, context, body.get(), step_place(name, place), out) {
                Err(end) => Err(end),
                Ok(()) => {
                    set_holds(context, holds);
                    Ok(())
                }
            }
        }
        StmtKind::With(records, body) => {
            let count = context.env.opened.len();
            let holds = context.env.holds;
            let Ok(()) = enter_with(alloc, context, records.as_slice()) else {
                return Err(CheckEnd::NoMemory);
            };
            match push_statement(alloc, context, body.get(), end_place(name, place), out) {
                Err(end) => Err(end),
                Ok(()) => {
                    close_records(context, count, holds);
                    Ok(())
                }
            }
        }
        StmtKind::Empty => Ok(()),
        StmtKind::Assign(_, _) => Ok(()),
        StmtKind::Call(_, _) => Ok(()),
        StmtKind::Goto(_) => Ok(()),
    }
}

/// Adds the blocks of a statement and of all in it, in the order of the text: or tells the first limit that one of them
/// does not keep. What stands around the statement is lent, and given back as it was.
#[cycle(table)]
pub fn push_statement(
    alloc: Global,
    context: &mut Context,
    stmt: &Stmt,
    place: Place,
    out: &mut Items<CoreBlock>,
) -> Result<(), CheckEnd>
    ensures rows { tables.PushedOver result out.old out.new (tables.stmt_rows stmt.now context.old place) }
    ensures kept { OnOk result (context.new ≡ context.old) }
{
    match push_head(alloc, context, stmt.name, &stmt.kind, place, out) {
        Err(end) => Err(end),
        Ok(()) => push_inner(alloc, context, stmt.name, &stmt.kind, place, out),
    }
}
