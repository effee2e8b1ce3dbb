//! Which trees some text spells.
ghost use Rattle.std.specs.Bool.{Decides};
ghost use Rattle.pascal_tree.specs.Formed.{is_formed, is_formed_stmt};
ghost use Rattle.pascal_tree.specs.Sources.{HasSource, HasStatementSource};
ghost use Rattle.pascal_tree.specs.declared.levels.TheConstants.{LEVELS};

use pascal_tree::{Stmt, Tree};

/// A program is formed exactly where some text spells it, names aside (ISO 7185:1990, 6.10).
pub fn formed_programs(tree: &Tree)
    ensures { Decides (is_formed tree.now) (HasSource tree.now) }
{}

/// A statement is formed exactly where some text spells it, names aside, with at most 64 levels (6.8).
pub fn formed_statements(stmt: &Stmt)
    ensures { Decides (is_formed_stmt stmt.now) (HasStatementSource LEVELS stmt.now) }
{}
