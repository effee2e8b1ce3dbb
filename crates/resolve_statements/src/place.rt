//! Where a statement stands in the table of blocks.
ghost use Rattle.std.specs.Prelude.{◌≡◌};
ghost use Rattle.resolve_statements.specs.Tables as tables;

use core_tree::LinkEnd;
use dice_base::Name;

/// Where a statement stands: its routine, where control goes after it, and the nearest `for` or `with` around it in its
/// routine.
#[derive(Clone, Copy)]
pub struct Place {
    pub routine: Name,
    pub after: LinkEnd,
    pub around: Option<Name>,
}

/// In a `while` or a `repeat` of this name, after each turn of which its condition is tried.
pub fn turn_place(name: Name, place: Place) -> Place
    ensures { result ≡ tables.turn_place name place }
{
    Place {
        routine: place.routine,
        after: LinkEnd::Gate(name),
        around: place.around,
    }
}

/// In a `for` of this name.
pub fn step_place(name: Name, place: Place) -> Place
    ensures { result ≡ tables.step_place name place }
{
    Place {
        routine: place.routine,
        after: LinkEnd::Step(name),
        around: Some(name),
    }
}

/// In a `with` of this name.
pub fn end_place(name: Name, place: Place) -> Place
    ensures { result ≡ tables.end_place name place }
{
    Place {
        routine: place.routine,
        after: LinkEnd::End(name),
        around: Some(name),
    }
}
