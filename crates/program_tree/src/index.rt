//! The index of a program: the path of each item under its name.
ghost use Rattle.std.specs.Prelude.{◌≡◌, ℕ, ◌+◌, [], ◌∷◌, ◌++◌, length, map, option_copied, option_to_list, if◌then◌else◌, nat_eq, Some, IfOk, OnOk, MatchResult};
ghost use Rattle.pascal_tree.specs.Rows.{any_rows, arm_rows, block_rows, decl_rows, kind_rows, routine_rows, rows_from, stmt_rows};
ghost use Rattle.indexmap.specs.IndexMap.{get};
ghost use Rattle.program_tree.specs.Entries.{AddsRows, HasPathsOf, IsIndexOf, entries_of, entry_of};

use dice_base::{Name, NoMemory, one_more};
use indexmap::IndexMap;
use pascal_tree::{Arm, Block, Decl, Routine, Stmt, StmtKind, Tree};
use sqlite_items::Items;
use std::alloc::Global;

/// The name of an item, and its path: the places among the parts of what it stands in, from the program on.
#[derive(Drop)]
pub struct Entry {
    pub name: Name,
    pub path: Items<u32>,
}

// The path of the part at this place.
fn step(alloc: Global, path: &[u32], at: u32) -> Result<Items<u32>, NoMemory>
    ensures { IfOk result (λ longer. longer ≡ path.now ++ at ∷ []) }
{
    let mut longer = Items::from_slice(alloc, path)?;
    longer.push(at)?;
    Ok(longer)
}

fn push_entry(
    alloc: Global,
    name: Name,
    path: &[u32],
    out: &mut Items<Entry>,
) -> Result<(), NoMemory>
    ensures { OnOk result (out.new ≡ out.old ++ (record { name = name; path = path.now }) ∷ []) }
{
    let path = Items::from_slice(alloc, path)?;
    out.push(Entry { name, path })?;
    Ok(())
}

#[cycle(push_stmt)]
#[tactic(auto, unfolding(pascal_tree::specs::Rows::stmt_rows, pascal_tree::specs::Rows::kind_rows, pascal_tree::specs::Rows::arm_rows))]
fn push_stmt(
    alloc: Global,
    stmt: &Stmt,
    path: &[u32],
    out: &mut Items<Entry>,
) -> Result<(), NoMemory>
    ensures { OnOk result (out.new ≡ out.old ++ map entry_of (stmt_rows stmt.now path.now)) }
{
    push_entry(alloc, stmt.name, path, out)?;
    push_kind(alloc, &stmt.kind, path, out)
}

#[cycle(push_stmt)]
#[tactic(auto, unfolding(pascal_tree::specs::Rows::stmt_rows, pascal_tree::specs::Rows::kind_rows, pascal_tree::specs::Rows::arm_rows))]
fn push_kind(
    alloc: Global,
    kind: &StmtKind,
    path: &[u32],
    out: &mut Items<Entry>,
) -> Result<(), NoMemory>
    ensures { OnOk result (out.new ≡ out.old ++ map entry_of ((kind_rows kind.now).1 path.now)) }
{
    match kind {
        StmtKind::Compound(stmts) => push_stmts(alloc, stmts.as_slice(), path, out),
        StmtKind::If(_, yes, None) => push_part(alloc, yes.get(), path, 0, out),
        StmtKind::If(_, yes, Some(no)) => {
            push_part(alloc, yes.get(), path, 0, out)?;
            push_part(alloc, no.get(), path, 1, out)
        }
        StmtKind::Case(_, arms) => push_arms(alloc, arms.as_slice(), path, out),
        StmtKind::While(_, body) => push_part(alloc, body.get(), path, 0, out),
        StmtKind::Repeat(stmts, _) => push_stmts(alloc, stmts.as_slice(), path, out),
        StmtKind::For(_, _, _, _, body) => push_part(alloc, body.get(), path, 0, out),
        StmtKind::With(_, body) => push_part(alloc, body.get(), path, 0, out),
        _ => Ok(()),
    }
}

#[cycle(push_stmt)]
fn push_part(
    alloc: Global,
    stmt: &Stmt,
    path: &[u32],
    at: u32,
    out: &mut Items<Entry>,
) -> Result<(), NoMemory>
    ensures { OnOk result (out.new ≡ out.old ++ map entry_of (stmt_rows stmt.now (path.now ++ at ∷ []))) }
{
    let path = step(alloc, path, at)?;
    push_stmt(alloc, stmt, path.as_slice(), out)
}

#[cycle(push_stmt)]
fn push_stmts(
    alloc: Global,
    stmts: &[Stmt],
    path: &[u32],
    out: &mut Items<Entry>,
) -> Result<(), NoMemory>
    ensures { OnOk result (out.new ≡ out.old ++ map entry_of (rows_from 0 (map stmt_rows stmts.now) path.now)) }
{
    let mut at = 0;
    for stmt in stmts {
        push_part(alloc, stmt, path, at, out)?;
        at = one_more(at)?;
    }
    Ok(())
}

#[cycle(push_stmt)]
#[tactic(auto, unfolding(pascal_tree::specs::Rows::stmt_rows, pascal_tree::specs::Rows::kind_rows, pascal_tree::specs::Rows::arm_rows))]
fn push_arm(
    alloc: Global,
    arm: &Arm,
    path: &[u32],
    at: u32,
    out: &mut Items<Entry>,
) -> Result<(), NoMemory>
    ensures { OnOk result (out.new ≡ out.old ++ map entry_of ((arm_rows arm.now).1 (path.now ++ at ∷ []))) }
{
    push_part(alloc, &arm.body, path, at, out)
}

#[cycle(push_stmt)]
fn push_arms(
    alloc: Global,
    arms: &[Arm],
    path: &[u32],
    out: &mut Items<Entry>,
) -> Result<(), NoMemory>
    ensures { OnOk result
        (out.new ≡ out.old ++ map entry_of (rows_from 0 (map (λ arm. arm.1) (map arm_rows arms.now)) path.now)) }
{
    let mut at = 0;
    for arm in arms {
        push_arm(alloc, arm, path, at, out)?;
        at = one_more(at)?;
    }
    Ok(())
}

fn push_decl(
    alloc: Global,
    decl: &Decl,
    path: &[u32],
    at: u32,
    out: &mut Items<Entry>,
) -> Result<(), NoMemory>
    ensures { OnOk result (out.new ≡ out.old ++ map entry_of (decl_rows decl.now (path.now ++ at ∷ []))) }
{
    let path = step(alloc, path, at)?;
    push_entry(alloc, decl.name, path.as_slice(), out)
}

// Declarations from this place on, and the place after them.
fn push_decls(
    alloc: Global,
    decls: &[Decl],
    path: &[u32],
    at: u32,
    out: &mut Items<Entry>,
) -> Result<u32, NoMemory>
    ensures { IfOk result (AddsRows at (map decl_rows decls.now) path.now out.old out.new) }
{
    let mut next = at;
    for decl in decls {
        push_decl(alloc, decl, path, next, out)?;
        next = one_more(next)?;
    }
    Ok(next)
}

fn push_labels(
    alloc: Global,
    labels: &Option<Decl>,
    path: &[u32],
    out: &mut Items<Entry>,
) -> Result<u32, NoMemory>
    ensures { IfOk result (AddsRows 0 (map decl_rows (option_to_list labels.now)) path.now out.old out.new) }
{
    match labels {
        None => Ok(0),
        Some(labels) => {
            push_decl(alloc, labels, path, 0, out)?;
            Ok(1)
        }
    }
}

// Each part begins at the place after the one before it.
#[cycle(push_block)]
fn push_block(
    alloc: Global,
    block: &Block,
    path: &[u32],
    out: &mut Items<Entry>,
) -> Result<(), NoMemory>
    ensures { OnOk result (out.new ≡ out.old ++ map entry_of (block_rows block.now path.now)) }
{
    let consts = push_labels(alloc, &block.labels, path, out)?;
    let types = push_decls(alloc, block.consts.as_slice(), path, consts, out)?;
    let vars = push_decls(alloc, block.types.as_slice(), path, types, out)?;
    let routines = push_decls(alloc, block.vars.as_slice(), path, vars, out)?;
    let body = push_routines(alloc, block.routines.as_slice(), path, routines, out)?;
    push_part(alloc, &block.body, path, body, out)
}

#[cycle(push_block)]
#[tactic(auto, unfolding(pascal_tree::specs::Rows::block_rows, pascal_tree::specs::Rows::routine_rows))]
fn push_routine(
    alloc: Global,
    routine: &Routine,
    path: &[u32],
    at: u32,
    out: &mut Items<Entry>,
) -> Result<(), NoMemory>
    ensures { OnOk result (out.new ≡ out.old ++ map entry_of (routine_rows routine.now (path.now ++ at ∷ []))) }
{
    let path = step(alloc, path, at)?;
    push_entry(alloc, routine.name, path.as_slice(), out)?;
    match &routine.block {
        None => Ok(()),
        Some(block) => push_block(alloc, block, path.as_slice(), out),
    }
}

#[cycle(push_block)]
fn push_routines(
    alloc: Global,
    routines: &[Routine],
    path: &[u32],
    at: u32,
    out: &mut Items<Entry>,
) -> Result<u32, NoMemory>
    ensures { IfOk result (AddsRows at (map routine_rows routines.now) path.now out.old out.new) }
{
    let mut next = at;
    for routine in routines {
        push_routine(alloc, routine, path, next, out)?;
        next = one_more(next)?;
    }
    Ok(next)
}

// The name and the path of each item of a program, in the order of the text.
#[tactic(auto, unfolding(pascal_tree::specs::Rows::block_rows, pascal_tree::specs::Rows::routine_rows))]
fn entries_of(alloc: Global, tree: &Tree) -> Result<Items<Entry>, NoMemory>
    ensures { IfOk result (λ entries. entries ≡ entries_of tree.now) }
{
    let mut entries = Items::new(alloc);
    push_entry(alloc, Name(1), &[], &mut entries)?;
    push_block(alloc, &tree.block, &[], &mut entries)?;
    Ok(entries)
}

// Puts the path of an entry under its name, where another may be.
fn insert_path(index: &mut IndexMap<u32, Items<u32>>, entry: Entry) -> Result<(), NoMemory>
    ensures { let old = get nat_eq index.old in
        OnOk result
        ((n : ℕ) → get nat_eq index.new n ≡ (if nat_eq entry.name.0 n then Some entry.path else old n)) }
{
    let Entry { name, path } = entry;
    index.insert(name.0, path)?;
    Ok(())
}

// The entries are put in from the last one on: so of entries with one name the first stays.
fn index_entries(
    alloc: Global,
    entries: Items<Entry>,
) -> Result<IndexMap<u32, Items<u32>>, NoMemory>
    ensures { IfOk result (HasPathsOf entries) }
{
    let mut entries = entries;
    let mut index = IndexMap::new(alloc);
    while let Some(entry) = entries.pop() {
        insert_path(&mut index, entry)?;
    }
    Ok(index)
}

/// The path of each item of a program, under its name.
#[tactic(auto, using(crate::proofs::TreeSearch::path_in_entries))]
pub fn index_program(alloc: Global, tree: &Tree) -> Result<IndexMap<u32, Items<u32>>, NoMemory>
    ensures { IfOk result (IsIndexOf tree.now) }
{
    let entries = entries_of(alloc, tree)?;
    index_entries(alloc, entries)
}

/// The path under a name, if there is one.
pub fn find_path(index: &IndexMap<u32, Items<u32>>, name: Name) -> Option<&[u32]>
    ensures { option_copied result ≡ get nat_eq index.now name.0 }
{
    match index.get(&name.0) {
        Some(path) => Some(path.as_slice()),
        None => None,
    }
}
