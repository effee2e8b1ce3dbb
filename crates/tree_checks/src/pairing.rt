//! Whether each `else` belongs to its own `if` (ISO 7185:1990, 6.8.3.4).
ghost use Rattle.std.specs.Prelude.{◌≡◌, ◌&&◌, map};
ghost use Rattle.std.specs.List.{list_all};
ghost use Rattle.pascal_tree.specs.Openness as spec;

use pascal_tree::{Arm, Block, Routine, Stmt, StmtKind};

/// Whether no first branch before an `else` is open in these statements, which follow one another.
#[cycle(is_paired)]
pub fn are_paired(stmts: &[Stmt]) -> bool
    ensures { result ≡ spec.are_paired (map spec.stmt_ending stmts.now) }
{
    for stmt in stmts {
        if !is_paired(stmt, false) {
            return false;
        }
    }
    true
}

/// The same of the statements of these arms.
#[cycle(is_paired)]
#[tactic(auto, unfolding(pascal_tree::specs::Openness::arm_ending, pascal_tree::specs::Openness::stmt_ending, pascal_tree::specs::Openness::kind_ending))]
pub fn are_arms_paired(arms: &[Arm]) -> bool
    ensures { result ≡ spec.are_paired (map spec.arm_ending arms.now) }
{
    for arm in arms {
        if !is_paired(&arm.body, false) {
            return false;
        }
    }
    true
}

/// Whether no first branch before an `else` is open in the statement, nor the statement itself where an `else` follows
/// it at once.
#[cycle(is_paired)]
#[tactic(auto, unfolding(pascal_tree::specs::Openness::arm_ending, pascal_tree::specs::Openness::stmt_ending, pascal_tree::specs::Openness::kind_ending))]
pub fn is_paired(stmt: &Stmt, has_else: bool) -> bool
    ensures { result ≡ spec.is_paired_before has_else (spec.stmt_ending stmt.now) }
{
    match &stmt.kind {
        StmtKind::Empty | StmtKind::Assign(_, _) | StmtKind::Call(_, _) | StmtKind::Goto(_) => true,
        StmtKind::Compound(stmts) => are_paired(stmts.as_slice()),
        StmtKind::If(_, yes, None) => !has_else && is_paired(yes.get(), false),
        StmtKind::If(_, yes, Some(no)) => {
            is_paired(yes.get(), true) && is_paired(no.get(), has_else)
        }
        StmtKind::Case(_, arms) => are_arms_paired(arms.as_slice()),
        StmtKind::While(_, body) => is_paired(body.get(), has_else),
        StmtKind::Repeat(stmts, _) => are_paired(stmts.as_slice()),
        StmtKind::For(_, _, _, _, body) => is_paired(body.get(), has_else),
        StmtKind::With(_, body) => is_paired(body.get(), has_else),
    }
}

/// The same of the statements of a routine.
#[cycle(is_block_paired)]
#[tactic(auto, unfolding(pascal_tree::specs::Openness::routine_is_paired, pascal_tree::specs::Openness::block_is_paired))]
pub fn is_routine_paired(routine: &Routine) -> bool
    ensures { result ≡ spec.routine_is_paired routine.now }
{
    match &routine.block {
        None => true,
        Some(block) => is_block_paired(block),
    }
}

/// The same of the statements of these routines.
#[cycle(is_block_paired)]
#[tactic(auto, unfolding(pascal_tree::specs::Openness::routine_is_paired, pascal_tree::specs::Openness::block_is_paired))]
pub fn are_routines_paired(routines: &[Routine]) -> bool
    ensures { result ≡ list_all (λ paired. paired) (map spec.routine_is_paired routines.now) }
{
    for routine in routines {
        if !is_routine_paired(routine) {
            return false;
        }
    }
    true
}

/// The same of the statements of a block and of its routines.
#[cycle(is_block_paired)]
#[tactic(auto, unfolding(pascal_tree::specs::Openness::routine_is_paired, pascal_tree::specs::Openness::block_is_paired))]
pub fn is_block_paired(block: &Block) -> bool
    ensures { result ≡ spec.block_is_paired block.now }
{
    are_routines_paired(block.routines.as_slice()) && is_paired(&block.body, false)
}
