//! What the layouts of a program are.
ghost use Rattle.std.specs.Prelude.{◌≡◌, option_copied};
ghost use Rattle.frame_layout.specs.Layouts.{layout_found};

use core_tree::Shape;
use dice_base::{Name, Text};
use sqlite_items::Items;

/// A variable of a layout, or a function's result under the function's identifier.
#[derive(Drop)]
pub struct LayoutRow {
    pub ident: Text,
    pub shape: Shape,
    /// The number of its first word, counted up to 1,000,000,000.
    pub offset: u32,
    /// It is a variable parameter.
    pub by_place: bool,
}

/// The layout of a routine, or that of the program, whose variables are the globals.
#[derive(Drop)]
pub struct Layout {
    pub routine: Name,
    /// 0 for the program, 1 for a routine of the program.
    pub level: u8,
    /// The words of all its variables, counted up to 1,000,000,000.
    pub words: u32,
    /// A function's result, the parameters and the variables of the block, in this order.
    pub rows: Items<LayoutRow>,
}

/// The layouts of a program: its own first, then those of its routines in the order of the text.
#[derive(Drop)]
pub struct Layouts {
    pub layouts: Items<Layout>,
}

impl Layouts {
    /// The layout of this routine or program. `None` exactly where none has the name. Takes no memory.
    pub fn of(&self, routine: Name) -> Option<&Layout>
        ensures value { option_copied result ≡ layout_found self.now.layouts routine.0 }
    {
        let layouts = self.layouts.as_slice();
        for layout in layouts {
            if layout.routine == routine {
                return Some(layout);
            }
        }
        None
    }
}
