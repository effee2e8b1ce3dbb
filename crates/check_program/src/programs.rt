//! Whole programs.
ghost use Rattle.check_decl.specs.Answers.{Answers};
ghost use Rattle.check_program.specs.Programs as spec;

use crate::bodies::WithBodies;
use check_decl::{At, walk_program};
use check_rules::CheckEnd;
use pascal_tree::Tree;
use std::alloc::Global;

/// Judges a program, whatever its tree: the place at the end of its block, where all types, layouts and blocks of routines
/// are known, or the fault of the first item in the order of the text that has one (ISO 7185:1990, 6.2 to 6.10).
pub fn check_program(alloc: Global, program: &Tree) -> Result<At, CheckEnd>
    ensures { Answers result (spec.checked program.now) }
{
    walk_program(alloc, program, &WithBodies)
}
