//! Constants, types and headings as a program writes them, judged (ISO 7185:1990, 6.3, 6.4 and 6.6.1 to 6.6.3).
//!
//! In `specs/`: constants (`Constants`), a rule for each form of a type (`TypeRules`), the judgement of a whole type
//! (`TypeTexts`), and headings (`Headings`). A type is one more entry of the table of types, so reading takes time and memory within a constant of
//! the text, also where each type doubles the words of the one before.
#![tactic(auto)]

mod constants;
mod enumerations;
mod headings;
mod state;
mod types;
mod typing;

pub use constants::{constant_of, integer_constant, named_constant, number_in, signed_number};
pub use enumerations::push_constants;
pub use headings::{HeadingWalk, JudgedHeading, heading_of, is_bare_heading, lacks_result};
pub use state::{RecordWalk, TypeState, Typed};
pub use types::type_named;
pub use typing::type_of;
