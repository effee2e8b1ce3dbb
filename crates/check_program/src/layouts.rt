//! The sizes of layouts: the program's words first, then the stack charge of each routine.
ghost use Rattle.std.specs.Prelude.{◌≡◌};
ghost use Rattle.check_program.specs.Layouts as spec;

use check_decl::{Layout, counted_sum};
use dice_base::Name;

/// The first layout that does not fit its limit.
#[derive(Clone, Copy)]
pub enum LayoutFault {
    /// More than 4,096 words of the program's own: the words.
    GlobalsFull(u32),
    /// A stack charge of more than 2,048 words: the routine and its charge.
    FrameTooLarge(Name, u32),
}

/// The words of stack that a call of the routine takes: linkage, holds and temporaries beside its layout.
pub fn stack_charge(layout: &Layout) -> u32
    ensures { result ≡ spec.stack_charge layout.now }
{
    counted_sum(45, layout.words)
}

fn frame_fault(layouts: &[Layout]) -> Option<LayoutFault>
    ensures { result ≡ spec.frame_fault layouts.now }
{
    for layout in layouts {
        let charge = stack_charge(layout);
        if charge > 2048 {
            return Some(LayoutFault::FrameTooLarge(layout.owner, charge));
        }
    }
    None
}

/// The first layout that does not fit its limit, where the program's own is the first. Takes no memory.
pub fn layout_fault(layouts: &[Layout]) -> Option<LayoutFault>
    ensures { result ≡ spec.layout_fault layouts.now }
{
    match layouts {
        [] => None,
        [program, routines @ ..] => {
            if program.words > 4096 {
                Some(LayoutFault::GlobalsFull(program.words))
            } else {
                frame_fault(routines)
            }
        }
    }
}
