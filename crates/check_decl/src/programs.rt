//! Whole programs (ISO 7185:1990, 6.10).
ghost use Rattle.std.specs.Prelude.{◌≡◌, map, Result, Ok, Err};
ghost use Rattle.check_decl.specs.Answers.{Answers, AnswersScopes};
ghost use Rattle.check_decl.specs.BlockRules as spec;
ghost use Rattle.check_decl.specs.Blocks as folds;

use crate::blocks::block_walk;
use crate::bodies::{JudgesBodies, WithoutBodies};
use crate::idents::block_idents;
use crate::items::item;
use crate::place::{At, Known, Owner};
use crate::routines::new_block;
use check_rules::{CheckEnd, WRONG_PARAMETER, has_ident, kind_unless};
use dice_base::{Name, Text};
use pascal_tree::Tree;
use predeclared::predeclared_region;
use sqlite_items::Items;
use std::alloc::Global;

fn is_file(ident: &[u8]) -> bool
    ensures { result ≡ spec.is_file ident.now }
{
    ident == b"input".as_slice() || ident == b"output".as_slice()
}

fn are_files(files: &[Text]) -> bool
    ensures { result ≡ spec.are_files files.now }
{
    for (index, file) in files.iter().enumerate() {
        if !is_file(file.bytes()) || has_ident(&files[index + 1..], file.bytes()) {
            return false;
        }
    }
    true
}

fn nothing_known(alloc: Global) -> Known
    ensures { result ≡ spec.nothing_known }
{
    Known {
        table: Items::new(alloc),
        domains: Items::new(alloc),
        changed: Items::new(alloc),
        layouts: Items::new(alloc),
        places: Items::new(alloc),
    }
}

fn program_owner(alloc: Global) -> Owner
    ensures { result ≡ spec.program_owner }
{
    Owner {
        name: Name(1),
        level: 0,
        functions: Items::new(alloc),
    }
}

/// A whole program: the place at the end of its block, where each layout and each block of a routine is known, or the
/// first fault. Bodies are judged by `bodies`.
#[tactic(auto, using(crate::proofs::Rules::idents_same))]
pub fn walk_program<B: JudgesBodies>(
    alloc: Global,
    program: &Tree,
    bodies: &B,
) -> Result<At, CheckEnd>
    ensures { Answers result (spec.program_walk program.now.files (folds.block_judge (B.rule bodies.now) program.now.block)) }
{
    let Ok(idents) = block_idents(alloc, &program.block) else {
        return Err(CheckEnd::NoMemory);
    };
    let kind = kind_unless(are_files(program.files.as_slice()), WRONG_PARAMETER);
    let here = new_block(alloc, nothing_known(alloc), idents);
    let here = item(Name(1), kind, here)?;
    let Ok(region) = predeclared_region(alloc) else {
        return Err(CheckEnd::NoMemory);
    };
    let mut outer = Items::new(alloc);
    let Ok(()) = outer.push(region) else {
        return Err(CheckEnd::NoMemory);
    };
    let owner = program_owner(alloc);
    block_walk(alloc, bodies, &program.block, &owner, &mut outer, here)
}

/// All that the declarations of a program give: types, layouts and the regions of all blocks.
#[derive(Drop)]
pub struct Scopes {
    pub end: At,
}

/// The declarations of a program, where bodies are left out; or the first fault in them.
pub fn resolve_declarations(alloc: Global, program: &Tree) -> Result<Scopes, CheckEnd>
    ensures { AnswersScopes result (folds.declarations_of program.now) }
{
    let end = walk_program(alloc, program, &WithoutBodies)?;
    Ok(Scopes { end })
}
