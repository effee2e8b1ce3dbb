//! Which trees a text can spell: the tests `is_formed` and the like of pascal_tree's specifications say it.
#![tactic(auto)]

ghost use Rattle.std.specs.Bool.{Decides};
ghost use Rattle.pascal_tree.specs.Formed.{is_formed, is_formed_stmt, is_formed_decl, is_formed_routine, heading_is_formed};
ghost use Rattle.tree_laws.specs.Spelled.{IsSpelled, IsSpelledStmt, IsSpelledDecl, IsSpelledRoutine, IsSpelledHeading};

use pascal_tree::{Decl, Heading, Routine, Stmt, Tree};

/// A program is formed exactly where some tokens of a text spell it by the grammar (ISO 7185:1990, 6.10), names aside.
pub fn formed_programs(tree: &Tree)
    ensures { Decides (is_formed tree.now) (IsSpelled tree.now) }
{}

/// The same of a statement (6.8).
pub fn formed_statements(stmt: &Stmt)
    ensures { Decides (is_formed_stmt stmt.now) (IsSpelledStmt stmt.now) }
{}

/// The same of a declaration by itself (6.2.1), with its word.
pub fn formed_declarations(decl: &Decl)
    ensures { Decides (is_formed_decl decl.now) (IsSpelledDecl decl.now) }
{}

/// The same of a procedure or a function (6.6.1, 6.6.2).
pub fn formed_routines(routine: &Routine)
    ensures { Decides (is_formed_routine routine.now) (IsSpelledRoutine routine.now) }
{}

/// The same of a heading.
pub fn formed_headings(heading: &Heading)
    ensures { Decides (heading_is_formed heading.now) (IsSpelledHeading heading.now) }
{}
