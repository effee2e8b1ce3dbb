//! A statement in the place of another.
ghost use Rattle.std.specs.Prelude.{◌≡◌, IfOk, OnErr, OnOk, Some, option_copied, true};
ghost use Rattle.program_tree.specs.Lookups.{item_value};
ghost use Rattle.program_tree.specs.Named.{IsProgram};
ghost use Rattle.pascal_tree.specs.Formed.{is_formed, is_formed_stmt};
ghost use Rattle.pascal_tree.specs.Paths.{OfStmt, tree_at};
ghost use Rattle.pascal_tree.specs.Names.{Counts, names_within, stmt_renaming};
ghost use Rattle.pascal_tree.specs.Openness.{program_is_paired};
ghost use Rattle.pascal_tree.specs.declared.stmt.Stmt.{out-Stmt};
ghost use Rattle.tree_edit.specs.Edited.{Edits, Gives, IsEditedRows, edited_program, is_right_kind, replaced_program, replaced_stmt, stmt_of, with_stmt};

use crate::EditFault;
use crate::blocks::put_block;
use crate::checks::{are_spent, can_stand, is_too_deep};
use crate::pairing::is_block_paired_with;
use dice_base::{Name, NoMemory};
use pascal_tree::{Stmt, copy_texts};
use program_tree::{Item, Program};
use sqlite_items::Boxed;
use std::alloc::Global;
use tree_checks::stmt_depth;
use tree_names::name_stmt;

// The program with this statement in the place at the path, and with this next name.
fn with_stmt(
    alloc: Global,
    program: &Program,
    path: &[u32],
    named: &Stmt,
    next: u32,
) -> Result<Program, NoMemory>
    requires { IsProgram (with_stmt path.now (named.now, next) program.now) }
    ensures { IfOk result (λ p. p ≡ with_stmt path.now (named.now, next) program.now) }
{
    let ident = program.ident().copy(alloc)?;
    let files = copy_texts(alloc, program.files())?;
    let block = put_block(alloc, program.block(), path, named)?;
    Program::new(alloc, ident, files, block, next)
}

// The same, where the statement bears the name of the old one at the path, and those inside it are new up to `next`,
// and the program is still formed.
fn with_named(
    alloc: Global,
    program: &Program,
    path: &[u32],
    old: &Stmt,
    named: &Stmt,
    next: u32,
) -> Result<Program, NoMemory>
    requires place { tree_at path.now program.now ≡ Some (OfStmt old.now) }
    requires name { (out-Stmt named.now).name.0 ≡ (out-Stmt old.now).name.0 }
    requires counted { Counts program.now.next (names_within named.now) next }
    requires formed { is_formed (with_stmt path.now (named.now, next) program.now) ≡ true }
    ensures { IfOk result (λ p. p ≡ with_stmt path.now (named.now, next) program.now) }
{
    // That each item of the program has a name of its own is a clause of this call alone.
    let _tree = program.tree();
    with_stmt(alloc, program, path, named, next)
}

// The statement with its names, in a box, so that its drop is one call.
fn boxed_stmt(
    alloc: Global,
    name: Name,
    stmt: &Stmt,
    next: u32,
) -> Result<(Boxed<Stmt>, u32), NoMemory>
    ensures value { IfOk result (λ r. r ≡ stmt_renaming name.0 stmt.now next) }
    ensures names { IfOk result (λ r. Counts next (names_within r.0) r.1) }
{
    let (named, last) = name_stmt(alloc, name, stmt, next)?;
    let named = Boxed::new(alloc, named)?;
    Ok((named, last))
}

// The program with the statement in the place of the old one, which stands at the path.
fn with_renamed(
    alloc: Global,
    program: &Program,
    path: &[u32],
    old: &Stmt,
    stmt: &Stmt,
) -> Result<Program, NoMemory>
    requires place { tree_at path.now program.now ≡ Some (OfStmt old.now) }
    requires formed { is_formed (edited_program old.now path.now stmt.now program.now) ≡ true }
    ensures { let named = stmt_renaming (out-Stmt old.now).name.0 stmt.now program.now.next in
        IfOk result (λ p. p ≡ with_stmt path.now named program.now) }
{
    let (named, next) = boxed_stmt(alloc, old.name, stmt, program.next_name())?;
    with_named(alloc, program, path, old, named.get(), next)
}

// Whether the statement can stand at the path, and each `else` still belongs to its own `if`.
fn is_right_kind(program: &Program, old: &Stmt, path: &[u32], stmt: &Stmt) -> bool
    ensures { result ≡ is_right_kind old.now path.now stmt.now program.now }
{
    let block = program.block();
    can_stand(block, path, stmt) && is_block_paired_with(block, path, stmt)
}

fn replaced_stmt(
    alloc: Global,
    program: &Program,
    old: &Stmt,
    path: &[u32],
    name: Name,
    stmt: &Stmt,
) -> Result<Program, EditFault>
    requires place { tree_at path.now program.now ≡ Some (OfStmt old.now) }
    requires formed { is_formed_stmt stmt.now ≡ true }
    ensures { Gives result (replaced_stmt old.now path.now name.0 stmt.now program.now) }
{
    if !is_right_kind(program, old, path, stmt) {
        return Err(EditFault::WrongKind(name));
    }
    if is_too_deep(path, stmt_depth(stmt)?) {
        return Err(EditFault::TooDeep);
    }
    if are_spent(program.next_name(), stmt) {
        return Err(EditFault::NamesSpent);
    }
    // That the program is formed is a clause of this call alone.
    let _tree = program.tree();
    let program = with_renamed(alloc, program, path, old, stmt)?;
    Ok(program)
}

fn stmt_of(item: Item<'_>) -> Option<&Stmt>
    ensures { option_copied result ≡ stmt_of (item_value item.entry) }
{
    match item {
        Item::OfStmt(stmt) => Some(stmt),
        Item::OfProgram(_) => None,
        Item::OfDecl(_) => None,
        Item::OfRoutine(_) => None,
    }
}

fn replaced(alloc: Global, program: &Program, name: Name, stmt: &Stmt) -> Result<Program, EditFault>
    requires { is_formed_stmt stmt.now ≡ true }
    ensures { Gives result (replaced_program name.0 stmt.now program.now) }
{
    let Some(path) = program.path_of(name) else {
        return Err(EditFault::NoSuchName(name));
    };
    let Some(item) = program.find(name) else {
        return Err(EditFault::WrongKind(name));
    };
    let Some(old) = stmt_of(item) else {
        return Err(EditFault::WrongKind(name));
    };
    replaced_stmt(alloc, program, old, path, name, stmt)
}

/// Puts a statement in the place of the one with this name. The name stays that of the statement there, and the items
/// inside it get new names, in the order of the text. A refusal leaves the program as it was. The statement is one that
/// some text spells, names aside, so that the program stays one.
pub fn replace(
    alloc: Global,
    program: &mut Program,
    name: Name,
    stmt: &Stmt,
) -> Result<(), EditFault>
    requires { is_formed_stmt stmt.now ≡ true }
    // The program is the edited one, or the fault is the first there is; only want of memory is free.
    ensures value { Edits result (replaced_program name.0 stmt.now program.old) program.new }
    ensures kept { OnErr result (program.new ≡ program.old) }
    // The rows of this statement have those of the new one in their place, and all other rows are as they were.
    ensures rows { OnOk result (IsEditedRows name.0 stmt.now program.old program.new) }
    // Each `else` of the edited program belongs to its own `if`.
    ensures paired { OnOk result (program_is_paired program.new ≡ true) }
{
    let edited = replaced(alloc, program, name, stmt)?;
    *program = edited;
    Ok(())
}
