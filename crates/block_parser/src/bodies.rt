//! What reads the bodies of blocks.
ghost use Rattle.std.specs.Prelude.{ℕ};
ghost use Rattle.pascal_tree.specs.declared.stmt.StmtKind.{StmtKind};
ghost use Rattle.token_reader.specs.Readers.{Parser, Reads};

use pascal_tree::StmtKind;
use std::alloc::Global;
use token_reader::{Cursor, Stop};

/// What reads the bodies of blocks.
pub trait ReadsBodies {
    /// The reader of a body of at most so many levels.
    ghost body_in: { ℕ → Parser StmtKind };

    /// A body of at most so many levels (ISO 7185:1990, 6.2.1).
    fn body(alloc: Global, tokens: &mut Cursor<'_>, depth: usize) -> Result<StmtKind, Stop>
        ensures { Reads (body_in depth tokens.old) result tokens.new };
}
