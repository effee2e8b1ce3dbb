//! The listings.
ghost use Rattle.std.specs.Prelude.{◌≡◌, IfOk};
ghost use Rattle.tree_listing.specs.Listing as spec;

use crate::blocks::push_program;
use crate::events::Events;
use crate::layout::lay_out;
use crate::statements::push_stmt;
use dice_base::{NoMemory, Text};
use pascal_tree::{Stmt, Tree};
use std::alloc::Global;

/// The listing of a program, with the names of its items or without. A line begins at each item, at each of `label`,
/// `const`, `type` and `var` before declarations, and at the first token other than `;` and `.` that an item has behind
/// another in it. Two blanks stand before its tokens for each item around its item, and one blank between tokens.
///
/// A name stands right in six places, or in as many as it has digits, with a blank between it and the tokens, if there
/// are any. Without names a line of no tokens is left out.
pub fn list_program(alloc: Global, program: &Tree, names: bool) -> Result<Text, NoMemory>
    ensures { IfOk result (λ text. text ≡ spec.listing names program.now) }
{
    let mut events = Events::new(alloc);
    push_program(alloc, program, &mut events)?;
    lay_out(alloc, names, events)
}

/// The listing of a statement that stands in no other item, without names.
pub fn list_statement(alloc: Global, statement: &Stmt) -> Result<Text, NoMemory>
    ensures { IfOk result (λ text. text ≡ spec.statement_listing statement.now) }
{
    let mut events = Events::new(alloc);
    push_stmt(alloc, statement, 0, &mut events)?;
    lay_out(alloc, false, events)
}
