//! The layouts of a program, made and measured.
ghost use Rattle.std.specs.Prelude.{◌≡◌, IfOk, MatchResult, map};
ghost use Rattle.frame_layout.specs.Layouts.{HasFault, fault_result, frame_fault, layout_fault, layout_of, stack_charge};

use crate::fault::LayoutFault;
use crate::filling::frame_of;
use crate::sizes::{LINKAGE_WORDS, MAX_GLOBAL_WORDS, MAX_STACK_CHARGE};
use crate::{Layout, Layouts};
use core_tree::{Core, CoreRoutine, MAX_COUNTED_WORDS, ShapeTable};
use dice_base::NoMemory;
use sqlite_items::Items;
use std::alloc::Global;

/// The layouts of a program. `GlobalsFull` exactly where its variables take more than 4,096 words. Else `FrameTooLarge`
/// exactly where the stack charge of a routine is above 2,048, of the first such in the order of the text.
pub fn layout(alloc: Global, core: &Core) -> Result<Layouts, LayoutFault>
    ensures value { IfOk result (λ ls. ls.layouts ≡ map (layout_of core.now.shapes.entries) core.now.routines) }
    ensures fault { HasFault result (layout_fault (map (layout_of core.now.shapes.entries) core.now.routines)) }
{
    let layouts = all_layouts(alloc, &core.shapes, core.routines.as_slice())?;
    check_sizes(layouts.as_slice())?;
    Ok(Layouts { layouts })
}

fn all_layouts(
    alloc: Global,
    shapes: &ShapeTable,
    routines: &[CoreRoutine],
) -> Result<Items<Layout>, NoMemory>
    ensures { IfOk result (λ ls. ls ≡ map (layout_of shapes.now.entries) routines.now) }
{
    let mut layouts = Items::new(alloc);
    for routine in routines {
        layouts.push(layout_of(alloc, shapes, routine)?)?;
    }
    Ok(layouts)
}

fn layout_of(alloc: Global, shapes: &ShapeTable, routine: &CoreRoutine) -> Result<Layout, NoMemory>
    ensures { IfOk result (λ l. l ≡ layout_of shapes.now.entries routine.now) }
{
    let frame = frame_of(alloc, shapes, routine)?;
    Ok(Layout {
        routine: routine.name,
        level: routine.level,
        words: frame.words,
        rows: frame.rows,
    })
}

fn check_sizes(layouts: &[Layout]) -> Result<(), LayoutFault>
    ensures { result ≡ fault_result tt (layout_fault layouts.now) }
{
    match layouts.first() {
        Some(globals) if MAX_GLOBAL_WORDS < globals.words => {
            Err(LayoutFault::GlobalsFull(globals.words))
        }
        Some(_) => check_frames(&layouts[1..]),
        None => Ok(()),
    }
}

fn check_frames(layouts: &[Layout]) -> Result<(), LayoutFault>
    ensures { result ≡ fault_result tt (frame_fault layouts.now) }
{
    for layout in layouts {
        let charge = stack_charge(layout.words);
        if MAX_STACK_CHARGE < charge {
            return Err(LayoutFault::FrameTooLarge(layout.routine, charge));
        }
    }
    Ok(())
}

fn stack_charge(words: u32) -> u32
    ensures { result ≡ stack_charge words }
{
    words.min(MAX_COUNTED_WORDS - LINKAGE_WORDS) + LINKAGE_WORDS
}
