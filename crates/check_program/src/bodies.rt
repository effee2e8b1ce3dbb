//! What comes of the body of a block (ISO 7185:1990, 6.2.1): its first fault, or what it changes.
ghost use Rattle.std.specs.Prelude.{◌≡◌, ◌++◌, ◌∷◌, [], IfOk, OnOk};
ghost use Rattle.std.specs.Option.{option_copied};
ghost use Rattle.check_decl.specs.Answers.{Answers};
ghost use Rattle.check_decl.specs.Blocks.{labels_in};
ghost use Rattle.check_body.specs.Statements.{judge_of};
ghost use Rattle.check_program.specs.BodyRules as spec;
ghost use Rattle.check_program.specs.Programs.{body_rule, labels_of_part};

use check_body::{first_fault, push_changes, push_kinds};
use check_decl::{At, BodyPlace, JudgesBodies, Known, Layout, Owner, Row, copy_names};
use check_rules::{CheckEnd, Region};
use dice_base::{NoMemory, Text};
use expression_rules::Env;
use pascal_tree::{Decl, DeclKind, Stmt};
use sqlite_items::Items;
use std::alloc::Global;

// What stands around a body, and what else is known in its place.
#[derive(Drop)]
struct Inside {
    env: Env,
    layouts: Items<Layout>,
    places: Items<BodyPlace>,
    rows: Items<Row>,
    words: u32,
}

// The regions around a body: those outside its block, which are lent, and that of the block.
fn regions_inside(
    alloc: Global,
    outer: &mut Items<Region>,
    block: Region,
) -> Result<Items<Region>, NoMemory>
    ensures { IfOk result (λ rs. rs ≡ outer.old ++ block ∷ []) }
{
    outer.push(block)?;
    Ok(std::mem::replace(outer, Items::new(alloc)))
}

fn go_inside(
    alloc: Global,
    owner: &Owner,
    outer: &mut Items<Region>,
    here: At,
) -> Result<Inside, NoMemory>
    ensures env { IfOk result (λ i. i.env ≡ spec.env_at owner.now outer.old here) }
    ensures layouts { IfOk result (λ i. i.layouts ≡ here.known.layouts) }
    ensures places { IfOk result (λ i. i.places ≡ here.known.places) }
    ensures rows { IfOk result (λ i. i.rows ≡ here.rows) }
    ensures words { IfOk result (λ i. i.words ≡ here.words) }
{
    let At {
        known,
        block,
        rows,
        words,
    } = here;
    let Known {
        table,
        domains,
        changed,
        layouts,
        places,
    } = known;
    let regions = regions_inside(alloc, outer, block)?;
    let functions = copy_names(alloc, owner.functions.as_slice())?;
    let env = Env {
        table,
        domains,
        regions,
        opened: Items::new(alloc),
        holds: 0,
        owner: owner.name,
        functions,
        changed,
    };
    Ok(Inside {
        env,
        layouts,
        places,
        rows,
        words,
    })
}

// The place behind a body, whose block has this region and which changes these variables. The regions outside are given
// back.
fn come_out(
    inside: Inside,
    changes: Items<(u32, Text)>,
    outer: &mut Items<Region>,
) -> Result<At, NoMemory>
    ensures place { IfOk result (λ at. at ≡ spec.place_behind inside.env inside.layouts inside.places inside.rows inside.words changes at.block) }
    ensures regions { IfOk result (λ at. inside.env.regions ≡ outer.new ++ at.block ∷ []) }
{
    let Inside {
        env,
        layouts,
        places,
        rows,
        words,
    } = inside;
    let Env {
        table,
        domains,
        mut regions,
        mut changed,
        ..
    } = env;
    changed.append(changes)?;
    let block = regions.pop().ok_or(NoMemory)?;
    *outer = regions;
    let known = Known {
        table,
        domains,
        changed,
        layouts,
        places,
    };
    Ok(At {
        known,
        block,
        rows,
        words,
    })
}

// A body of a block with these labels.
#[tactic(auto, using(std::proofs::lemmas::List::append_cancel_right))]
fn judge_body(
    alloc: Global,
    labels: &[u16],
    body: &Stmt,
    owner: &Owner,
    outer: &mut Items<Region>,
    here: At,
) -> Result<At, CheckEnd>
    ensures value { Answers result (spec.body_outcome (judge_of labels.now body.now) owner.now outer.old here) }
    ensures kept { OnOk result (outer.new ≡ outer.old) }
{
    let Ok(mut inside) = go_inside(alloc, owner, outer, here) else {
        return Err(CheckEnd::NoMemory);
    };
    let mut kinds = Items::new(alloc);
    let Ok(()) = push_kinds(alloc, labels, &mut inside.env, body, &[], &mut kinds) else {
        return Err(CheckEnd::NoMemory);
    };
    if let Some(fault) = first_fault(kinds.as_slice()) {
        return Err(CheckEnd::Fault(fault));
    }
    let mut changes = Items::new(alloc);
    let Ok(()) = push_changes(alloc, labels, &mut inside.env, body, &mut changes) else {
        return Err(CheckEnd::NoMemory);
    };
    let Ok(after) = come_out(inside, changes, outer) else {
        return Err(CheckEnd::NoMemory);
    };
    Ok(after)
}

// The labels that a block declares.
fn labels_declared<'a>(labels: Option<&'a Decl>) -> &'a [u16]
    ensures { result.now ≡ labels_of_part (labels_in (option_copied labels.entry)) }
{
    match labels {
        None => &[],
        Some(decl) => match &decl.kind {
            DeclKind::LabelDecl(numbers) => numbers.as_slice(),
            _ => &[],
        },
    }
}

/// Judges bodies: each statement by its own text, and what they change.
#[derive(Clone, Copy)]
pub struct WithBodies;

impl JudgesBodies for WithBodies {
    ghost rule = { λ s. body_rule };

    fn judge(
        &self,
        alloc: Global,
        labels: Option<&Decl>,
        body: &Stmt,
        owner: &Owner,
        outer: &mut Items<Region>,
        here: At,
    ) -> Result<At, CheckEnd> {
        judge_body(alloc, labels_declared(labels), body, owner, outer, here)
    }
}
