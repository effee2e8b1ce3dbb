//! The listings of programs and of statements.
ghost use Rattle.std.specs.Prelude.{◌≡◌, true, false, IfOk};
ghost use Rattle.pascal_tree.specs.Names.{program_names};
ghost use Rattle.tree_listing.specs.Listing.{listing, statement_listing};
ghost use Rattle.pascal_print.specs.FirstColumn.{first_column};
ghost use Rattle.pascal_print.specs.ReadsBack.{ReadsBack, StatementReadsBack};

use dice_base::{NoMemory, Text};
use pascal_tree::Stmt;
use program_tree::Program;
use std::alloc::Global;
use tree_listing::{list_program, list_statement};

/// The listing of a program, with the names of its items or without. A line begins at each item, at each of `label`,
/// `const`, `type` and `var` before declarations, and at the first token other than `;` and `.` that an item has after
/// an item within it. Two blanks stand before its tokens for each item around its item, and one blank between tokens.
///
/// A name stands right in six places, or in as many as it has digits, with a blank between it and the tokens, if there
/// are any. Without names a line of no tokens is left out.
pub fn print_program(alloc: Global, program: &Program, names: bool) -> Result<Text, NoMemory>
    ensures listing { IfOk result (λ text. text ≡ listing names program.now) }
    // Without names it is a text of the program's own tokens, and nothing but this program is read of it.
    ensures reads_back { IfOk result (λ text. names ≡ false → ReadsBack program.now text) }
    // With them the numbers in the first column are the names of the items, in the order of the text.
    ensures names { IfOk result (λ text. names ≡ true → first_column text ≡ program_names program.now) }
{
    list_program(alloc, program.tree(), names)
}

/// The listing of a statement that stands in no other item, without names.
///
/// Where some text spells the statement, names aside, the listing is a text of the statement's own tokens, and nothing
/// but this statement is read of it.
pub fn print_statement(alloc: Global, statement: &Stmt) -> Result<Text, NoMemory>
    ensures listing { IfOk result (λ text. text ≡ statement_listing statement.now) }
    ensures reads_back { IfOk result (λ text. StatementReadsBack statement.now text) }
{
    list_statement(alloc, statement)
}
