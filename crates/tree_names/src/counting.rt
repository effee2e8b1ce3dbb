//! How many names there are in a statement.
ghost use Rattle.std.specs.Prelude.{◌≡◌, ◌-◌, length, map, min};
ghost use Rattle.std.specs.List.{concat};
ghost use Rattle.pascal_tree.specs.Names.{stmt_names, kind_names, arm_names, names_within};

use pascal_tree::{Arm, Stmt, StmtKind};

const MOST: u32 = 2_000_000;

// What is left of the room for names where the statement took its names from it.
#[cycle(behind_stmt)]
#[tactic(auto, unfolding(pascal_tree::specs::Names::stmt_names, pascal_tree::specs::Names::kind_names, pascal_tree::specs::Names::arm_names))]
fn behind_stmt(stmt: &Stmt, room: u32) -> u32
    ensures { result ≡ room - length (stmt_names stmt.now) }
{
    behind_kind(&stmt.kind, room.saturating_sub(1))
}

#[cycle(behind_stmt)]
#[tactic(auto, unfolding(pascal_tree::specs::Names::stmt_names, pascal_tree::specs::Names::kind_names, pascal_tree::specs::Names::arm_names))]
fn behind_kind(kind: &StmtKind, room: u32) -> u32
    ensures { result ≡ room - length (kind_names kind.now) }
{
    match kind {
        StmtKind::Empty | StmtKind::Assign(_, _) | StmtKind::Call(_, _) | StmtKind::Goto(_) => room,
        StmtKind::Compound(stmts) => behind_stmts(stmts.as_slice(), room),
        StmtKind::If(_, yes, None) => behind_stmt(yes.get(), room),
        StmtKind::If(_, yes, Some(no)) => {
            let room = behind_stmt(yes.get(), room);
            behind_stmt(no.get(), room)
        }
        StmtKind::Case(_, arms) => behind_arms(arms.as_slice(), room),
        StmtKind::While(_, body) => behind_stmt(body.get(), room),
        StmtKind::Repeat(stmts, _) => behind_stmts(stmts.as_slice(), room),
        StmtKind::For(_, _, _, _, body) => behind_stmt(body.get(), room),
        StmtKind::With(_, body) => behind_stmt(body.get(), room),
    }
}

#[cycle(behind_stmt)]
#[tactic(auto, unfolding(pascal_tree::specs::Names::stmt_names, pascal_tree::specs::Names::kind_names, pascal_tree::specs::Names::arm_names))]
fn behind_stmts(stmts: &[Stmt], room: u32) -> u32
    ensures { result ≡ room - length (concat (map stmt_names stmts.now)) }
{
    let mut room = room;
    for stmt in stmts {
        room = behind_stmt(stmt, room);
    }
    room
}

#[cycle(behind_stmt)]
#[tactic(auto, unfolding(pascal_tree::specs::Names::stmt_names, pascal_tree::specs::Names::kind_names, pascal_tree::specs::Names::arm_names))]
fn behind_arm(arm: &Arm, room: u32) -> u32
    ensures { result ≡ room - length (arm_names arm.now) }
{
    behind_stmt(&arm.body, room)
}

#[cycle(behind_stmt)]
#[tactic(auto, unfolding(pascal_tree::specs::Names::stmt_names, pascal_tree::specs::Names::kind_names, pascal_tree::specs::Names::arm_names))]
fn behind_arms(arms: &[Arm], room: u32) -> u32
    ensures { result ≡ room - length (concat (map arm_names arms.now)) }
{
    let mut room = room;
    for arm in arms {
        room = behind_arm(arm, room);
    }
    room
}

/// How many names `name_stmt` gives beside that of the statement itself, or 2,000,000 where they are more.
pub fn new_names(stmt: &Stmt) -> u32
    ensures { result ≡ min (length (names_within stmt.now)) 2000000 }
{
    MOST - behind_kind(&stmt.kind, MOST)
}
