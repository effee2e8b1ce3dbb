//! The items of a program: what has a name.
ghost use Rattle.std.specs.Prelude.{◌≡◌, List, [], ◌∷◌, ◌++◌, map, option_map, option_copied, option_to_list, slice_get};
ghost use Rattle.program_tree.specs.Lookups.{at_place, is_sequence, item_value, name_of};
ghost use Rattle.pascal_tree.specs.Paths.{ItemValue, OfDecl, OfRoutine, OfStmt, arm_body, block_children, item_at, item_children, item_name, stmt_children};

use dice_base::Name;
use pascal_tree::{Arm, Block, Decl, Routine, Stmt, StmtKind, Tree};
use sqlite_items::Boxed;

/// An item of a program, with all that stands in it.
#[derive(Clone, Copy)]
pub enum Item<'a> {
    OfProgram(&'a Tree),
    OfDecl(&'a Decl),
    OfRoutine(&'a Routine),
    OfStmt(&'a Stmt),
}

/// The name of an item. The program itself is 1.
pub fn name_of_item(item: Item<'_>) -> Name
    ensures { result ≡ name_of (item_name (item_value item.entry)) }
{
    match item {
        Item::OfProgram(_) => Name(1),
        Item::OfDecl(decl) => decl.name,
        Item::OfRoutine(routine) => routine.name,
        Item::OfStmt(stmt) => stmt.name,
    }
}

// The branch of an `if` statement at this place.
fn branch<'a>(yes: &'a Boxed<Stmt>, no: &'a Option<Boxed<Stmt>>, at: usize) -> Option<&'a Stmt>
    ensures { option_copied result ≡ slice_get (yes.now ∷ option_to_list no.now) at }
{
    match at {
        0 => Some(yes.get()),
        1 => match no {
            Some(no) => Some(no.get()),
            None => None,
        },
        _ => None,
    }
}

// The only part of a statement.
fn only(body: &Boxed<Stmt>, at: usize) -> Option<&Stmt>
    ensures { option_copied result ≡ slice_get (body.now ∷ []) at }
{
    if at == 0 { Some(body.get()) } else { None }
}

// The statement of the arm at this place.
fn arm_child(arms: &[Arm], at: usize) -> Option<&Stmt>
    ensures { option_copied result ≡ slice_get (map arm_body arms.now) at }
{
    match arms.get(at) {
        Some(arm) => Some(&arm.body),
        None => None,
    }
}

// The part of a statement at this place.
fn stmt_child(stmt: &Stmt, at: usize) -> Option<&Stmt>
    ensures { option_copied result ≡ slice_get (stmt_children stmt.now) at }
{
    match &stmt.kind {
        StmtKind::Compound(stmts) => stmts.get(at),
        StmtKind::If(_, yes, no) => branch(yes, no, at),
        StmtKind::Case(_, arms) => arm_child(arms.as_slice(), at),
        StmtKind::While(_, body) => only(body, at),
        StmtKind::Repeat(stmts, _) => stmts.get(at),
        StmtKind::For(_, _, _, _, body) => only(body, at),
        StmtKind::With(_, body) => only(body, at),
        _ => None,
    }
}

// What stands at a place: an item, or what follows the items, so many places further.
enum Place<'a> {
    Here(Item<'a>),
    Behind(usize),
}

fn label_place(labels: &Option<Decl>, at: usize) -> Place<'_>
    ensures { (rest : List ItemValue)
        → slice_get (map OfDecl (option_to_list labels.now) ++ rest) at ≡ at_place rest result }
{
    match labels {
        Some(labels) => {
            if at == 0 {
                Place::Here(Item::OfDecl(labels))
            } else {
                Place::Behind(at - 1)
            }
        }
        None => Place::Behind(at),
    }
}

fn decl_place(decls: &[Decl], at: usize) -> Place<'_>
    ensures { (rest : List ItemValue) → slice_get (map OfDecl decls.now ++ rest) at ≡ at_place rest result }
{
    if at < decls.len() {
        Place::Here(Item::OfDecl(&decls[at]))
    } else {
        Place::Behind(at - decls.len())
    }
}

fn routine_place(routines: &[Routine], at: usize) -> Place<'_>
    ensures { (rest : List ItemValue) → slice_get (map OfRoutine routines.now ++ rest) at ≡ at_place rest result }
{
    if at < routines.len() {
        Place::Here(Item::OfRoutine(&routines[at]))
    } else {
        Place::Behind(at - routines.len())
    }
}

// The item of a block at this place.
fn block_child(block: &Block, at: usize) -> Option<Item<'_>>
    ensures { option_map item_value result ≡ slice_get (block_children block.now) at }
{
    let at = match label_place(&block.labels, at) {
        Place::Here(item) => return Some(item),
        Place::Behind(at) => at,
    };
    let at = match decl_place(block.consts.as_slice(), at) {
        Place::Here(item) => return Some(item),
        Place::Behind(at) => at,
    };
    let at = match decl_place(block.types.as_slice(), at) {
        Place::Here(item) => return Some(item),
        Place::Behind(at) => at,
    };
    let at = match decl_place(block.vars.as_slice(), at) {
        Place::Here(item) => return Some(item),
        Place::Behind(at) => at,
    };
    match routine_place(block.routines.as_slice(), at) {
        Place::Here(item) => Some(item),
        Place::Behind(0) => Some(Item::OfStmt(&block.body)),
        Place::Behind(_) => None,
    }
}

// The part of an item at this place.
fn item_child(item: Item<'_>, at: usize) -> Option<Item<'_>>
    ensures { option_map item_value result ≡ slice_get (item_children (item_value item.entry)) at }
{
    match item {
        Item::OfProgram(tree) => block_child(&tree.block, at),
        Item::OfDecl(_) => None,
        Item::OfRoutine(routine) => match &routine.block {
            Some(block) => block_child(block, at),
            None => None,
        },
        Item::OfStmt(stmt) => match stmt_child(stmt, at) {
            Some(part) => Some(Item::OfStmt(part)),
            None => None,
        },
    }
}

/// What stands at a path in an item, if there is something.
pub fn find_at<'a>(item: Item<'a>, path: &[u32]) -> Option<Item<'a>>
    ensures { option_map item_value result ≡ item_at path.now (item_value item.entry) }
{
    let mut found = item;
    for place in path {
        match item_child(found, *place as usize) {
            Some(part) => found = part,
            None => return None,
        }
    }
    Some(found)
}

/// An item has a sequence of statements, as compound and `repeat` statements have.
pub fn has_statements(item: Item<'_>) -> bool
    ensures { result ≡ is_sequence (item_value item.entry) }
{
    match item {
        Item::OfStmt(stmt) => match &stmt.kind {
            StmtKind::Compound(_) => true,
            StmtKind::Repeat(_, _) => true,
            _ => false,
        },
        _ => false,
    }
}
