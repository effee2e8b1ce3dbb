//! A routine or the program by itself: what is said of it, and its own block.
ghost use Rattle.std.specs.Prelude.{◌≡◌, ◌≤◌, ◌<◌, List, [], ◌∷◌, ◌++◌, map, OnOk, IfOk};
ghost use Rattle.core_tree.specs.Shapes.{trees_of};
ghost use Rattle.core_tree.specs.Views.{bare_form, head_over};
ghost use Rattle.resolve_expr.specs.declared.context.Context.{Context};
ghost use Rattle.resolve_statements.specs.Sizes as sizes;
ghost use Rattle.check_program.specs.Resolution as spec;
ghost use Rattle.check_rules.specs.Typing.{Text as Ident};
ghost use Rattle.check_decl.specs.declared.place.At.{At};

use crate::lists::{Lists, Source};
use check_rules::{CheckEnd, RoutineEntity, SizeFault};
use core_tree::{CoreBlock, CoreForm, CoreRoutine, LinkEnd, charge, need};
use dice_base::{Name, NoMemory, Text};
use pascal_tree::Stmt;
use resolve_expr::MAX_BLOCK_WORDS;
use resolve_statements::{Place, entry_of, push_labels};
use resolve_types::{core_form, core_routine};
use sqlite_items::Items;
use std::alloc::Global;

// Where control goes after the body of a routine, or of the program, which has level 0.
fn body_after(routine: &RoutineEntity) -> LinkEnd
    ensures { (end : At) (ident : Ident) → result ≡ (spec.body_place end ident routine.now).after }
{
    if routine.level == 0 {
        LinkEnd::Finish
    } else {
        LinkEnd::Leave(routine.name)
    }
}

/// Where the body of a routine or of the program stands.
pub fn body_place(routine: &RoutineEntity) -> Place
    ensures { (end : At) (ident : Ident) → result ≡ spec.body_place end ident routine.now }
{
    Place {
        routine: routine.name,
        after: body_after(routine),
        around: None,
    }
}

// The limit of words that the own block of the program or of a routine does not keep. It has no temporaries and no holds.
fn own_fault(name: Name, form: &CoreForm) -> Option<SizeFault>
    ensures { spec.IsOwnForm form.now → result ≡ sizes.form_fault name (bare_form form.now) }
{
    let words = charge(form);
    if words > MAX_BLOCK_WORDS {
        Some(SizeFault::BlockTooLong(name, words))
    } else {
        None
    }
}

fn own_block(
    alloc: Global,
    source: &Source,
    row: &CoreRoutine,
    body: &Stmt,
) -> Result<CoreBlock, CheckEnd>
    ensures { let trees = trees_of source.now.shapes.entries in spec.IsOwnBlock result trees (head_over trees row.now) body.now }
{
    let Ok(form) = core_form(alloc, &source.shapes, row) else {
        return Err(CheckEnd::NoMemory);
    };
    if let Some(fault) = own_fault(row.name, &form) {
        return Err(CheckEnd::Size(fault));
    }
    let mut entries = Items::new(alloc);
    let entry = entry_of(body);
    let Ok(()) = entries.push(entry) else {
        return Err(CheckEnd::NoMemory);
    };
    Ok(CoreBlock {
        name: row.name,
        routine: row.name,
        around: None,
        next: None,
        entries,
        form,
    })
}

fn own_row(
    alloc: Global,
    source: &Source,
    ident: &Text,
    owner: Name,
    routine: &RoutineEntity,
    body: &Stmt,
) -> Result<CoreRoutine, NoMemory>
    ensures { IfOk result (λ r. spec.IsOwnRow r source.now.end owner ident.now routine.now body.now) }
{
    let mut labels = Items::new(alloc);
    push_labels(body, &mut labels)?;
    core_routine(alloc, &source.end, owner, ident, routine, labels)
}

/// Adds a routine of this identifier, which another declares and which has this body, or the program: what is said of it,
/// and its own block.
pub fn push_own(
    alloc: Global,
    source: &Source,
    ident: &Text,
    owner: Name,
    routine: &RoutineEntity,
    body: &Stmt,
    out: &mut Lists,
) -> Result<(), CheckEnd>
    requires { trees_of source.now.shapes.entries ≡ spec.trees_in source.now.end }
    ensures { (c : Context) → spec.Adds result source.now.end out.old out.new (spec.own_listed source.now.end owner ident.now routine.now body.now c) (spec.own_rows source.now.end ident.now routine.now body.now c) }
{
    let Ok(row) = own_row(alloc, source, ident, owner, routine, body) else {
        return Err(CheckEnd::NoMemory);
    };
    let block = own_block(alloc, source, &row, body)?;
    let Ok(()) = out.routines.push(row) else {
        return Err(CheckEnd::NoMemory);
    };
    let Ok(()) = out.blocks.push(block) else {
        return Err(CheckEnd::NoMemory);
    };
    Ok(())
}
