//! Declarations of constants, types and variables (ISO 7185:1990, 6.3 to 6.5), in the order of the text, up to the first
//! fault.
ghost use Rattle.std.specs.Prelude.{◌≡◌, ◌+◌, min, map, IfOk};
ghost use Rattle.check_decl.specs.Answers.{Answers};
ghost use Rattle.check_types.specs.TypeTexts.{reading_of};
ghost use Rattle.check_decl.specs.BlockRules as spec;
ghost use Rattle.check_decl.specs.Blocks as folds;

use crate::place::{At, Known, Owner, Row};
use check_rules::{
    CLEAN, CheckEnd, CheckFault, Entity, MAX_COUNTED, Region, Typing, Variable, declare, least,
    words_of,
};
use check_types::{TypeState, constant_of, type_of};
use dice_base::{Name, NoMemory, Text};
use pascal_tree::{Constant as WrittenConstant, Decl, DeclKind, TypeText};
use sqlite_items::Items;
use std::alloc::Global;

/// The item with this name, if it is clean; else its fault.
pub fn item(name: Name, kind: u8, here: At) -> Result<At, CheckEnd>
    ensures { Answers result (spec.item name kind here) }
{
    if kind < CLEAN {
        Err(CheckEnd::Fault(CheckFault { kind, name }))
    } else {
        Ok(here)
    }
}

fn constant_item(
    alloc: Global,
    name: Name,
    ident: &Text,
    constant: &WrittenConstant,
    outer: &[Region],
    here: At,
) -> Result<At, CheckEnd>
    ensures { Answers result (spec.constant_item name ident.now constant.now outer.now here) }
{
    let Ok(judged) = constant_of(
        alloc,
        here.known.table.as_slice(),
        outer,
        &here.block,
        &[],
        constant,
    ) else {
        return Err(CheckEnd::NoMemory);
    };
    let At {
        known,
        mut block,
        rows,
        words,
    } = here;
    let entity = Entity::ConstantOf(judged.value, judged.typing);
    let Ok(twice) = declare(alloc, &mut block, ident, entity) else {
        return Err(CheckEnd::NoMemory);
    };
    let here = At {
        known,
        block,
        rows,
        words,
    };
    item(name, least(judged.kind, twice), here)
}

/// A place in a block where a type was read: the type, and the least kind of fault.
#[derive(Drop)]
struct TypedAt {
    here: At,
    typing: Typing,
    kind: u8,
}

// Reads a type at a place.
fn typed_at(alloc: Global, text: &TypeText, outer: &[Region], here: At) -> Result<TypedAt, NoMemory>
    ensures { IfOk result (λ r. (r.here, r.typing, r.kind) ≡ spec.typed_at (reading_of text.now) outer.now here) }
{
    let At {
        known,
        block,
        rows,
        words,
    } = here;
    let Known {
        table,
        domains,
        changed,
        layouts,
        places,
    } = known;
    let mut state = TypeState { table, block };
    let mut around = Items::new(alloc);
    let judged = type_of(alloc, outer, &mut around, &mut state, text)?;
    let TypeState { table, block } = state;
    let known = Known {
        table,
        domains,
        changed,
        layouts,
        places,
    };
    let here = At {
        known,
        block,
        rows,
        words,
    };
    Ok(TypedAt {
        here,
        typing: judged.typing,
        kind: judged.kind,
    })
}

fn with_domain(known: Known, name: Name, typing: Typing) -> Result<Known, NoMemory>
    ensures { IfOk result (λ k. k ≡ spec.with_domain known name typing) }
{
    let Known {
        table,
        mut domains,
        changed,
        layouts,
        places,
    } = known;
    domains.push((name, typing))?;
    Ok(Known {
        table,
        domains,
        changed,
        layouts,
        places,
    })
}

fn type_item_of(alloc: Global, name: Name, ident: &Text, typed: TypedAt) -> Result<At, CheckEnd>
    ensures { Answers result (spec.type_item_of name ident.now (typed.here, typed.typing, typed.kind)) }
{
    let TypedAt { here, typing, kind } = typed;
    let At {
        known,
        mut block,
        rows,
        words,
    } = here;
    let entity = Entity::TypeOf(typing, Some(name));
    let Ok(twice) = declare(alloc, &mut block, ident, entity) else {
        return Err(CheckEnd::NoMemory);
    };
    let Ok(known) = with_domain(known, name, typing) else {
        return Err(CheckEnd::NoMemory);
    };
    let here = At {
        known,
        block,
        rows,
        words,
    };
    item(name, least(kind, twice), here)
}

fn type_item(
    alloc: Global,
    name: Name,
    ident: &Text,
    text: &TypeText,
    outer: &[Region],
    here: At,
) -> Result<At, CheckEnd>
    ensures { Answers result (spec.type_item name ident.now (reading_of text.now) outer.now here) }
{
    let Ok(typed) = typed_at(alloc, text, outer, here) else {
        return Err(CheckEnd::NoMemory);
    };
    type_item_of(alloc, name, ident, typed)
}

/// The sum of words, counted up to the limit.
pub fn counted_sum(words: u32, more: u32) -> u32
    ensures { result ≡ min MAX_COUNTED (words + more) }
{
    let sum = words as u64 + more as u64;
    if sum < MAX_COUNTED as u64 {
        sum as u32
    } else {
        MAX_COUNTED
    }
}

/// A place in a block, and the least kind of fault so far.
#[derive(Drop)]
pub struct Judging {
    pub here: At,
    pub kind: u8,
}

/// Declares a variable or a parameter, and gives it a row.
pub fn with_variable(
    alloc: Global,
    owner: Name,
    ident: &Text,
    typing: Typing,
    by_place: bool,
    local: bool,
    so_far: Judging,
) -> Result<Judging, NoMemory>
    ensures { IfOk result (λ r. (r.here, r.kind) ≡ spec.with_variable owner ident.now typing by_place local (so_far.here, so_far.kind)) }
{
    let Judging { here, kind } = so_far;
    let At {
        known,
        mut block,
        mut rows,
        words,
    } = here;
    let entity = Entity::VariableOf(Variable {
        owner,
        typing,
        offset: words,
        by_place,
        local,
    });
    let twice = declare(alloc, &mut block, ident, entity)?;
    let copied = ident.copy(alloc)?;
    rows.push(Row {
        ident: copied,
        typing,
        offset: words,
        by_place,
    })?;
    let own = if by_place {
        1
    } else {
        words_of(known.table.as_slice(), typing)
    };
    let here = At {
        known,
        block,
        rows,
        words: counted_sum(words, own),
    };
    Ok(Judging {
        here,
        kind: least(kind, twice),
    })
}

fn with_variables(
    alloc: Global,
    owner: Name,
    typing: Typing,
    idents: &[Text],
    first: Judging,
) -> Result<Judging, NoMemory>
    ensures { IfOk result (λ r. (r.here, r.kind) ≡ spec.with_variables owner typing idents.now (first.here, first.kind)) }
{
    let mut so_far = first;
    for ident in idents {
        so_far = with_variable(alloc, owner, ident, typing, false, true, so_far)?;
    }
    Ok(so_far)
}

fn variable_item(
    alloc: Global,
    owner: &Owner,
    name: Name,
    idents: &[Text],
    text: &TypeText,
    outer: &[Region],
    here: At,
) -> Result<At, CheckEnd>
    ensures { Answers result (spec.variable_item owner.now name idents.now (reading_of text.now) outer.now here) }
{
    let Ok(typed) = typed_at(alloc, text, outer, here) else {
        return Err(CheckEnd::NoMemory);
    };
    let TypedAt { here, typing, kind } = typed;
    let Ok(judged) = with_variables(alloc, owner.name, typing, idents, Judging { here, kind })
    else {
        return Err(CheckEnd::NoMemory);
    };
    let Judging { here, kind } = judged;
    item(name, kind, here)
}

fn decl_item(
    alloc: Global,
    owner: &Owner,
    outer: &[Region],
    decl: &Decl,
    here: At,
) -> Result<At, CheckEnd>
    ensures { Answers result ((folds.decl_judge decl.now).item owner.now outer.now here) }
{
    match &decl.kind {
        DeclKind::LabelDecl(_) => Ok(here),
        DeclKind::ConstDecl(ident, constant) => {
            constant_item(alloc, decl.name, ident, constant, outer, here)
        }
        DeclKind::TypeDecl(ident, text) => type_item(alloc, decl.name, ident, text, outer, here),
        DeclKind::VarDecl(idents, text) => {
            variable_item(
                alloc,
                owner,
                decl.name,
                idents.as_slice(),
                text,
                outer,
                here,
            )
        }
    }
}

/// The declarations of a part of a block: the place after them, or the first fault.
pub fn decl_items(
    alloc: Global,
    owner: &Owner,
    outer: &[Region],
    decls: &[Decl],
    here: At,
) -> Result<At, CheckEnd>
    ensures { Answers result (spec.decl_items owner.now outer.now (map folds.decl_judge decls.now) here) }
{
    let mut so_far = here;
    for decl in decls {
        so_far = decl_item(alloc, owner, outer, decl, so_far)?;
    }
    Ok(so_far)
}
