//! `with` (ISO 7185:1990, 6.8.3.10): each record takes a hold, and its fields hide what is declared around it.
ghost use Rattle.std.specs.Prelude.{◌≡◌, ◌+◌, map, take, IfOk, OnOk};
ghost use Rattle.expression_rules.specs.Expressions as exprs;
ghost use Rattle.check_body.specs.StatementRules as spec;
ghost use Rattle.check_body.specs.Statements as folds;
ghost use Rattle.check_body.specs.Steps as steps;

use check_expr::place_of;
use check_rules::{CLEAN, Structure, Typing, WRONG_TYPE, WrittenType, kind_unless, structure_at};
use dice_base::NoMemory;
use expression_rules::{Env, Notes, OpenedRecord, notes_of, notes_of_both, notes_with};
use pascal_tree::Access;
use sqlite_items::Items;
use std::alloc::Global;

fn may_be_record(table: &[WrittenType], typing: Typing) -> bool
    ensures { result ≡ spec.may_be_record table.now typing }
{
    match typing {
        Typing::Unknown => true,
        _ => match structure_at(table, typing) {
            Some(Structure::RecordOf(_, _)) => true,
            _ => false,
        },
    }
}

fn open_record(env: &mut Env, typing: Typing, hold: u32) -> Result<(), NoMemory>
    ensures { hold ≡ env.old.holds + 1 → OnOk result (env.new ≡ steps.env_opening env.old typing) }
{
    env.opened.push(OpenedRecord { typing, hold })?;
    env.holds = hold;
    Ok(())
}

fn opened_notes(alloc: Global, env: &mut Env, access: &Access) -> Result<Notes, NoMemory>
    ensures value { IfOk result (λ n. n ≡ spec.record_notes env.old (exprs.access_of env.old access.now)) }
    ensures opened { OnOk result (env.new ≡ steps.env_opening env.old (exprs.access_of env.old access.now).place.typing) }
{
    let place = place_of(alloc, env, access)?;
    let typing = place.typing;
    let fits = may_be_record(env.table.as_slice(), typing);
    let hold = env.holds.checked_add(1).ok_or(NoMemory)?;
    open_record(env, typing, hold)?;
    Ok(notes_with(place.notes, kind_unless(fits, WRONG_TYPE)))
}

/// What is noted of the records of a `with`, each of which stands behind those before it. They stay open.
pub fn with_notes(alloc: Global, env: &mut Env, records: &[Access]) -> Result<Notes, NoMemory>
    ensures value { IfOk result (λ n. n ≡ spec.with_notes env.old (map folds.access_judge records.now)) }
    ensures opened { OnOk result (env.new ≡ spec.env_with_all env.old (map folds.access_judge records.now)) }
{
    let mut notes = notes_of(alloc, CLEAN);
    for access in records {
        let more = opened_notes(alloc, env, access)?;
        notes = notes_of_both(notes, more)?;
    }
    Ok(notes)
}

fn close_opened(opened: &mut Items<OpenedRecord>, count: usize)
    ensures { opened.new ≡ take count opened.old }
{
    while opened.len() > count {
        opened.pop();
    }
}

/// Closes all records but the first so many.
pub fn close_records(env: &mut Env, count: usize, holds: u32)
    ensures { env.new ≡ steps.env_closed env.old count holds }
{
    close_opened(&mut env.opened, count);
    env.holds = holds;
}

/// The kind of a `with` that opens these records.
#[tactic(auto, using(crate::proofs::Opened::closed_with))]
pub fn with_kind(alloc: Global, env: &mut Env, records: &[Access]) -> Result<u8, NoMemory>
    ensures value { IfOk result (λ k. k ≡ (spec.with_notes env.old (map folds.access_judge records.now)).kind) }
    ensures kept { OnOk result (env.new ≡ env.old) }
{
    let count = env.opened.len();
    let holds = env.holds;
    let notes = with_notes(alloc, env, records)?;
    close_records(env, count, holds);
    Ok(notes.kind)
}
