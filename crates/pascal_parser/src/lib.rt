//! Reads tokens as the tree of a program, or of a part of one.
//!
//! Each call reads all the tokens, each of which some text has, within 64 levels, and names the items from 1 on in the
//! order of the text. It answers the one tree that the tokens spell, or their fault (`IsReading` in token_reader, over the
//! forms of pascal_tree). The tree is formed (`Formed` in pascal_tree), as an edit asks for.
#![tactic(auto)]

mod decls;
mod programs;
mod stmts;

pub use decls::{parse_declaration, parse_heading};
pub use programs::{parse_program, parse_routine};
pub use stmts::{parse_header, parse_statement};
pub use token_reader::ParseFault;
