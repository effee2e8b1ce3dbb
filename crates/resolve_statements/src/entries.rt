//! Where statements begin: at their own gates, but a compound and a `repeat` at that of their first statement.
ghost use Rattle.resolve_statements.specs.Tables as tables;
ghost use Rattle.std.specs.Prelude.{[], ◌∷◌, OnOk};

use dice_base::{Name, NoMemory};
use pascal_tree::{Arm, Stmt, StmtKind};
use sqlite_items::Items;
use std::alloc::Global;

// 0 where there is none.
#[cycle(entries)]
fn first_entry(stmts: &[Stmt]) -> Name
    ensures { tables.FirstBeginsAt stmts.now result }
{
    match stmts {
        [first, ..] => entry_of(first),
        [] => Name(0),
    }
}

/// The statement at whose gate this one begins.
#[cycle(entries)]
pub fn entry_of(stmt: &Stmt) -> Name
    ensures { tables.BeginsAt stmt.now result }
{
    match &stmt.kind {
        StmtKind::Compound(stmts) => first_entry(stmts.as_slice()),
        StmtKind::Repeat(stmts, _) => first_entry(stmts.as_slice()),
        _ => stmt.name,
    }
}

fn push_entry(stmt: &Stmt, out: &mut Items<Name>) -> Result<(), NoMemory>
    ensures { OnOk result (tables.AreEntries out.old out.new (tables.stmts_in (stmt.now ∷ []))) }
{
    out.push(entry_of(stmt))?;
    Ok(())
}

fn push_entries(stmts: &[Stmt], out: &mut Items<Name>) -> Result<(), NoMemory>
    ensures { OnOk result (tables.AreEntries out.old out.new (tables.stmts_in stmts.now)) }
{
    for stmt in stmts {
        push_entry(stmt, out)?;
    }
    Ok(())
}

fn push_arm_entry(arm: &Arm, out: &mut Items<Name>) -> Result<(), NoMemory>
    ensures { OnOk result (tables.AreEntries out.old out.new (tables.arms_in (arm.now ∷ []))) }
{
    out.push(entry_of(&arm.body))?;
    Ok(())
}

fn push_arm_entries(arms: &[Arm], out: &mut Items<Name>) -> Result<(), NoMemory>
    ensures { OnOk result (tables.AreEntries out.old out.new (tables.arms_in arms.now)) }
{
    for arm in arms {
        push_arm_entry(arm, out)?;
    }
    Ok(())
}

/// Adds where the statements directly in one of this kind begin, in the order of the text.
pub fn push_inner_entries(kind: &StmtKind, out: &mut Items<Name>) -> Result<(), NoMemory>
    ensures { OnOk result (tables.AreEntries out.old out.new (tables.inner_in kind.now)) }
{
    match kind {
        StmtKind::Compound(stmts) => push_entries(stmts.as_slice(), out),
        StmtKind::If(_, first, other) => {
            push_entry(first.get(), out)?;
            match other {
                None => Ok(()),
                Some(second) => push_entry(second.get(), out),
            }
        }
        StmtKind::Case(_, arms) => push_arm_entries(arms.as_slice(), out),
        StmtKind::While(_, body) => push_entry(body.get(), out),
        StmtKind::Repeat(stmts, _) => push_entries(stmts.as_slice(), out),
        StmtKind::For(_, _, _, _, body) => push_entry(body.get(), out),
        StmtKind::With(_, body) => push_entry(body.get(), out),
        StmtKind::Empty => Ok(()),
        StmtKind::Assign(_, _) => Ok(()),
        StmtKind::Call(_, _) => Ok(()),
        StmtKind::Goto(_) => Ok(()),
    }
}
