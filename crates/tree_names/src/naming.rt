//! Names in text order.
//!
//! Lists are copied before large values, so that no step that may fail has a large value to let go of.
ghost use Rattle.std.specs.Prelude.{◌≡◌, ◌+◌, IfOk};
ghost use Rattle.pascal_tree.specs.Naming as spec;
ghost use Rattle.pascal_tree.specs.Names.{Counts, names_within, program_names, stmt_renaming};

use dice_base::{Name, NoMemory, Text, one_more};
use pascal_tree::{
    Access, Arm, Block, Decl, Expr, Routine, Stmt, StmtKind, Tree, copy_accesses, copy_assign,
    copy_call, copy_constants, copy_decl_kind, copy_expr, copy_heading, copy_texts, make_for,
};
use sqlite_items::{Boxed, Items};
use std::alloc::Global;

#[cycle(number_stmt)]
#[tactic(auto, unfolding(pascal_tree::specs::Naming::stmt_numbering, pascal_tree::specs::Naming::kind_numbering, pascal_tree::specs::Naming::arm_numbering))]
fn number_compound(alloc: Global, stmts: &[Stmt], next: u32) -> Result<(StmtKind, u32), NoMemory>
    ensures { IfOk result (λ r. r ≡ spec.kind_numbering (StmtKind.Compound stmts.now) next) }
{
    let (stmts, next) = number_stmts(alloc, stmts, next)?;
    Ok((StmtKind::Compound(stmts), next))
}

#[cycle(number_stmt)]
#[tactic(auto, unfolding(pascal_tree::specs::Naming::stmt_numbering, pascal_tree::specs::Naming::kind_numbering, pascal_tree::specs::Naming::arm_numbering))]
fn number_case(
    alloc: Global,
    arms: &[Arm],
    selector: &Expr,
    next: u32,
) -> Result<(StmtKind, u32), NoMemory>
    ensures { IfOk result (λ r. r ≡ spec.kind_numbering (StmtKind.Case selector.now arms.now) next) }
{
    let (arms, next) = number_arms(alloc, arms, next)?;
    let selector = copy_expr(alloc, selector)?;
    Ok((StmtKind::Case(selector, arms), next))
}

#[cycle(number_stmt)]
#[tactic(auto, unfolding(pascal_tree::specs::Naming::stmt_numbering, pascal_tree::specs::Naming::kind_numbering, pascal_tree::specs::Naming::arm_numbering))]
fn number_while(
    alloc: Global,
    body: &Stmt,
    test: &Expr,
    next: u32,
) -> Result<(StmtKind, u32), NoMemory>
    ensures { IfOk result (λ r. r ≡ spec.kind_numbering (StmtKind.While test.now body.now) next) }
{
    let (body, next) = number_boxed(alloc, body, next)?;
    let test = copy_expr(alloc, test)?;
    Ok((StmtKind::While(test, body), next))
}

#[cycle(number_stmt)]
#[tactic(auto, unfolding(pascal_tree::specs::Naming::stmt_numbering, pascal_tree::specs::Naming::kind_numbering, pascal_tree::specs::Naming::arm_numbering))]
fn number_repeat(
    alloc: Global,
    stmts: &[Stmt],
    test: &Expr,
    next: u32,
) -> Result<(StmtKind, u32), NoMemory>
    ensures { IfOk result (λ r. r ≡ spec.kind_numbering (StmtKind.Repeat stmts.now test.now) next) }
{
    let (stmts, next) = number_stmts(alloc, stmts, next)?;
    let test = copy_expr(alloc, test)?;
    Ok((StmtKind::Repeat(stmts, test), next))
}

#[cycle(number_stmt)]
#[tactic(auto, unfolding(pascal_tree::specs::Naming::stmt_numbering, pascal_tree::specs::Naming::kind_numbering, pascal_tree::specs::Naming::arm_numbering))]
fn number_for(
    alloc: Global,
    body: &Stmt,
    ident: &Text,
    first: &Expr,
    down: bool,
    last: &Expr,
    next: u32,
) -> Result<(StmtKind, u32), NoMemory>
    ensures { IfOk result (λ r. r ≡ spec.kind_numbering (StmtKind.For ident.now first.now down last.now body.now) next) }
{
    let (body, next) = number_boxed(alloc, body, next)?;
    let kind = make_for(alloc, ident, first, down, last, body)?;
    Ok((kind, next))
}

#[cycle(number_stmt)]
#[tactic(auto, unfolding(pascal_tree::specs::Naming::stmt_numbering, pascal_tree::specs::Naming::kind_numbering, pascal_tree::specs::Naming::arm_numbering))]
fn number_with(
    alloc: Global,
    body: &Stmt,
    records: &[Access],
    next: u32,
) -> Result<(StmtKind, u32), NoMemory>
    ensures { IfOk result (λ r. r ≡ spec.kind_numbering (StmtKind.With records.now body.now) next) }
{
    let (body, next) = number_boxed(alloc, body, next)?;
    let records = copy_accesses(alloc, records)?;
    Ok((StmtKind::With(records, body), next))
}

#[cycle(number_stmt)]
#[tactic(auto, unfolding(pascal_tree::specs::Naming::stmt_numbering, pascal_tree::specs::Naming::kind_numbering, pascal_tree::specs::Naming::arm_numbering))]
fn number_if(alloc: Global, yes: &Stmt, test: &Expr, next: u32) -> Result<(StmtKind, u32), NoMemory>
    ensures { IfOk result (λ r. r ≡ spec.kind_numbering (StmtKind.If test.now yes.now None) next) }
{
    let (yes, next) = number_boxed(alloc, yes, next)?;
    let test = copy_expr(alloc, test)?;
    Ok((StmtKind::If(test, yes, None), next))
}

#[cycle(number_stmt)]
fn number_stmts(alloc: Global, stmts: &[Stmt], next: u32) -> Result<(Items<Stmt>, u32), NoMemory>
    ensures { IfOk result (λ r. r ≡ spec.stmts_numbering stmts.now next) }
{
    let mut all = Items::new(alloc);
    let mut next = next;
    for stmt in stmts {
        let (stmt, last) = number_stmt(alloc, stmt, next)?;
        all.push(stmt)?;
        next = last;
    }
    Ok((all, next))
}

#[cycle(number_stmt)]
#[tactic(auto, unfolding(pascal_tree::specs::Naming::stmt_numbering, pascal_tree::specs::Naming::kind_numbering, pascal_tree::specs::Naming::arm_numbering))]
fn number_arm(alloc: Global, arm: &Arm, next: u32) -> Result<(Arm, u32), NoMemory>
    ensures { IfOk result (λ r. r ≡ spec.arm_numbering arm.now next) }
{
    let constants = copy_constants(alloc, arm.constants.as_slice())?;
    let (body, next) = number_stmt(alloc, &arm.body, next)?;
    Ok((Arm { constants, body }, next))
}

#[cycle(number_stmt)]
fn number_arms(alloc: Global, arms: &[Arm], next: u32) -> Result<(Items<Arm>, u32), NoMemory>
    ensures { IfOk result (λ r. r ≡ spec.arms_numbering arms.now next) }
{
    let mut all = Items::new(alloc);
    let mut next = next;
    for arm in arms {
        let (arm, last) = number_arm(alloc, arm, next)?;
        all.push(arm)?;
        next = last;
    }
    Ok((all, next))
}

#[cycle(number_stmt)]
fn number_boxed(alloc: Global, stmt: &Stmt, next: u32) -> Result<(Boxed<Stmt>, u32), NoMemory>
    ensures { IfOk result (λ r. r ≡ spec.stmt_numbering stmt.now next) }
{
    let (stmt, next) = number_stmt(alloc, stmt, next)?;
    let stmt = Boxed::new(alloc, stmt)?;
    Ok((stmt, next))
}

/// A copy of a statement whose items bear the names from this one on, in text order, and the number after the last.
#[cycle(number_stmt)]
#[tactic(auto, unfolding(pascal_tree::specs::Naming::stmt_numbering, pascal_tree::specs::Naming::kind_numbering, pascal_tree::specs::Naming::arm_numbering))]
pub fn number_stmt(alloc: Global, stmt: &Stmt, next: u32) -> Result<(Stmt, u32), NoMemory>
    ensures { IfOk result (λ r. r ≡ spec.stmt_numbering stmt.now next) }
{
    let label = stmt.label;
    let inner = one_more(next)?;
    let (kind, last) = number_kind(alloc, &stmt.kind, inner)?;
    let stmt = Stmt {
        name: Name(next),
        label,
        kind,
    };
    Ok((stmt, last))
}

#[cycle(number_stmt)]
#[tactic(auto, unfolding(pascal_tree::specs::Naming::stmt_numbering, pascal_tree::specs::Naming::kind_numbering, pascal_tree::specs::Naming::arm_numbering))]
fn number_kind(alloc: Global, kind: &StmtKind, next: u32) -> Result<(StmtKind, u32), NoMemory>
    ensures { IfOk result (λ r. r ≡ spec.kind_numbering kind.now next) }
{
    match kind {
        StmtKind::Empty => Ok((StmtKind::Empty, next)),
        StmtKind::Assign(access, value) => {
            let kind = copy_assign(alloc, access, value)?;
            Ok((kind, next))
        }
        StmtKind::Call(ident, args) => {
            let kind = copy_call(alloc, ident, args.as_slice())?;
            Ok((kind, next))
        }
        StmtKind::Goto(label) => Ok((StmtKind::Goto(*label), next)),
        StmtKind::Compound(stmts) => number_compound(alloc, stmts.as_slice(), next),
        StmtKind::If(test, yes, None) => number_if(alloc, yes.get(), test, next),
        StmtKind::If(test, yes, Some(no)) => {
            let (yes, next) = number_boxed(alloc, yes.get(), next)?;
            let (no, next) = number_boxed(alloc, no.get(), next)?;
            let test = copy_expr(alloc, test)?;
            Ok((StmtKind::If(test, yes, Some(no)), next))
        }
        StmtKind::Case(selector, arms) => number_case(alloc, arms.as_slice(), selector, next),
        StmtKind::While(test, body) => number_while(alloc, body.get(), test, next),
        StmtKind::Repeat(stmts, test) => number_repeat(alloc, stmts.as_slice(), test, next),
        StmtKind::For(ident, first, down, last, body) => {
            number_for(alloc, body.get(), ident, first, *down, last, next)
        }
        StmtKind::With(records, body) => number_with(alloc, body.get(), records.as_slice(), next),
    }
}

fn number_decl(alloc: Global, decl: &Decl, next: u32) -> Result<(Decl, u32), NoMemory>
    ensures { IfOk result (λ r. r ≡ spec.decl_numbering decl.now next) }
{
    let last = one_more(next)?;
    let kind = copy_decl_kind(alloc, &decl.kind)?;
    let decl = Decl {
        name: Name(next),
        kind,
    };
    Ok((decl, last))
}

fn number_decls(alloc: Global, decls: &[Decl], next: u32) -> Result<(Items<Decl>, u32), NoMemory>
    ensures { IfOk result (λ r. r ≡ spec.decls_numbering decls.now next) }
{
    let mut all = Items::new(alloc);
    let mut next = next;
    for decl in decls {
        let (decl, last) = number_decl(alloc, decl, next)?;
        all.push(decl)?;
        next = last;
    }
    Ok((all, next))
}

fn number_labels(
    alloc: Global,
    labels: &Option<Decl>,
    next: u32,
) -> Result<(Option<Decl>, u32), NoMemory>
    ensures { IfOk result (λ r. r ≡ spec.labels_numbering labels.now next) }
{
    match labels {
        None => Ok((None, next)),
        Some(labels) => {
            let (labels, next) = number_decl(alloc, labels, next)?;
            Ok((Some(labels), next))
        }
    }
}

// The number behind the names of the labels.
fn after_labels(labels: &Option<Decl>, next: u32) -> Result<u32, NoMemory>
    ensures { IfOk result (λ n. n ≡ (spec.labels_numbering labels.now next).1) }
{
    match labels {
        None => Ok(next),
        Some(_) => one_more(next),
    }
}

// The labels and the body of a block, with its other parts.
fn number_ends(
    alloc: Global,
    block: &Block,
    next: u32,
    last: u32,
    consts: Items<Decl>,
    types: Items<Decl>,
    vars: Items<Decl>,
    routines: Items<Routine>,
) -> Result<(Block, u32), NoMemory>
    ensures { IfOk result (λ r. r ≡ spec.block_with_ends block.now next last consts types vars routines) }
{
    let (labels, _) = number_labels(alloc, &block.labels, next)?;
    let (body, last) = number_stmt(alloc, &block.body, last)?;
    let block = Block {
        labels,
        consts,
        types,
        vars,
        routines,
        body,
    };
    Ok((block, last))
}

#[cycle(number_block)]
#[tactic(auto, unfolding(pascal_tree::specs::Naming::block_numbering, pascal_tree::specs::Naming::routine_numbering))]
fn number_block(alloc: Global, block: &Block, next: u32) -> Result<(Block, u32), NoMemory>
    ensures { IfOk result (λ r. r ≡ spec.block_numbering block.now next) }
{
    let first = after_labels(&block.labels, next)?;
    let (consts, last) = number_decls(alloc, block.consts.as_slice(), first)?;
    let (types, last) = number_decls(alloc, block.types.as_slice(), last)?;
    let (vars, last) = number_decls(alloc, block.vars.as_slice(), last)?;
    let (routines, last) = number_routines(alloc, block.routines.as_slice(), last)?;
    number_ends(alloc, block, next, last, consts, types, vars, routines)
}

/// A copy of a routine whose items bear the names from this one on, in text order, and the number after the last.
#[cycle(number_block)]
#[tactic(auto, unfolding(pascal_tree::specs::Naming::block_numbering, pascal_tree::specs::Naming::routine_numbering))]
pub fn number_routine(
    alloc: Global,
    routine: &Routine,
    next: u32,
) -> Result<(Routine, u32), NoMemory>
    ensures { IfOk result (λ r. r ≡ spec.routine_numbering routine.now next) }
{
    let name = Name(next);
    let next = one_more(next)?;
    let heading = copy_heading(alloc, &routine.heading)?;
    match &routine.block {
        None => Ok((
            Routine {
                name,
                heading,
                block: None,
            },
            next,
        )),
        Some(block) => {
            let (block, next) = number_block(alloc, block, next)?;
            Ok((
                Routine {
                    name,
                    heading,
                    block: Some(block),
                },
                next,
            ))
        }
    }
}

#[cycle(number_block)]
fn number_routines(
    alloc: Global,
    routines: &[Routine],
    next: u32,
) -> Result<(Items<Routine>, u32), NoMemory>
    ensures { IfOk result (λ r. r ≡ spec.routines_numbering routines.now next) }
{
    let mut all = Items::new(alloc);
    let mut next = next;
    for routine in routines {
        let (routine, last) = number_routine(alloc, routine, next)?;
        all.push(routine)?;
        next = last;
    }
    Ok((all, next))
}

/// A copy of a statement that bears this name, and whose parts bear the names from `next` on, in text order; and the
/// number behind them.
pub fn name_stmt(alloc: Global, name: Name, stmt: &Stmt, next: u32) -> Result<(Stmt, u32), NoMemory>
    ensures value { IfOk result (λ r. r ≡ stmt_renaming name.0 stmt.now next) }
    ensures names { IfOk result (λ r. Counts next (names_within r.0) r.1) }
{
    let (kind, last) = number_kind(alloc, &stmt.kind, next)?;
    let stmt = Stmt {
        name,
        label: stmt.label,
        kind,
    };
    Ok((stmt, last))
}

/// A copy of a program whose items bear the names from 1 on, in text order.
pub fn number_program(alloc: Global, program: &Tree) -> Result<Tree, NoMemory>
    ensures value { IfOk result (λ p. p ≡ spec.numbered_program program.now) }
    ensures names { IfOk result (λ p. Counts 1 (program_names p) p.next) }
{
    let ident = program.ident.copy(alloc)?;
    let files = copy_texts(alloc, program.files.as_slice())?;
    let (block, next) = number_block(alloc, &program.block, 2)?;
    Ok(Tree {
        ident,
        files,
        block,
        next,
    })
}
