//! The variables of one owner, laid out one after the other.
ghost use Rattle.std.specs.Prelude.{◌≡◌, ◌≤◌, ◌+◌, ℕ, List, min, map, IfOk, OnOk};
ghost use Rattle.core_tree.specs.Shapes.{counted_words};
ghost use Rattle.frame_layout.specs.Slots.{frame_after, frame_with, parameter_slot, result_slots, routine_frame, slot, slot_words, variable_slot};

use crate::LayoutRow;
use crate::frame::Frame;
use core_tree::{
    CoreRoutine, CoreVariable, HeadingParameter, MAX_COUNTED_WORDS, Shape, ShapeTable,
};
use dice_base::{NoMemory, Text};
use sqlite_items::Items;
use std::alloc::Global;

/// The result, the parameters and the variables of a routine, or the variables of the program.
#[tactic(auto, using(crate::proofs::Frames::frame_in_parts))]
pub fn frame_of(
    alloc: Global,
    shapes: &ShapeTable,
    routine: &CoreRoutine,
) -> Result<Frame, NoMemory>
    ensures { IfOk result (λ f. f ≡ routine_frame shapes.now.entries routine.now) }
{
    let mut frame = Frame {
        rows: Items::new(alloc),
        words: 0,
    };
    let heading = &routine.heading;
    put_result(alloc, shapes, &mut frame, &routine.ident, heading.result)?;
    put_parameters(alloc, shapes, &mut frame, heading.parameters.as_slice())?;
    put_variables(alloc, shapes, &mut frame, routine.variables.as_slice())?;
    Ok(frame)
}

fn put_result(
    alloc: Global,
    shapes: &ShapeTable,
    frame: &mut Frame,
    ident: &Text,
    shape: Option<Shape>,
) -> Result<(), NoMemory>
    ensures { OnOk result (frame.new ≡ frame_after shapes.now.entries frame.old (result_slots ident.now shape)) }
{
    match shape {
        Some(shape) => put(alloc, shapes, frame, ident, shape, false),
        None => Ok(()),
    }
}

fn put_parameters(
    alloc: Global,
    shapes: &ShapeTable,
    frame: &mut Frame,
    parameters: &[HeadingParameter],
) -> Result<(), NoMemory>
    ensures { OnOk result (frame.new ≡ frame_after shapes.now.entries frame.old (map parameter_slot parameters.now)) }
{
    for parameter in parameters {
        put(
            alloc,
            shapes,
            frame,
            &parameter.ident,
            parameter.shape,
            parameter.by_place,
        )?;
    }
    Ok(())
}

fn put_variables(
    alloc: Global,
    shapes: &ShapeTable,
    frame: &mut Frame,
    variables: &[CoreVariable],
) -> Result<(), NoMemory>
    ensures { OnOk result (frame.new ≡ frame_after shapes.now.entries frame.old (map variable_slot variables.now)) }
{
    for variable in variables {
        put(alloc, shapes, frame, &variable.ident, variable.shape, false)?;
    }
    Ok(())
}

// Puts a variable after those that are there.
fn put(
    alloc: Global,
    shapes: &ShapeTable,
    frame: &mut Frame,
    ident: &Text,
    shape: Shape,
    by_place: bool,
) -> Result<(), NoMemory>
    ensures { OnOk result (frame.new ≡ frame_with shapes.now.entries frame.old (slot ident.now shape by_place)) }
{
    let words = slot_words(shapes, shape, by_place);
    let ident = ident.copy(alloc)?;
    frame.rows.push(LayoutRow {
        ident,
        shape,
        offset: frame.words,
        by_place,
    })?;
    frame.words = words_sum(frame.words, words);
    Ok(())
}

fn words_sum(first: u32, second: u32) -> u32
    ensures { result ≡ counted_words (first + second) }
{
    let sum = u64::from(first) + u64::from(second);
    sum.min(u64::from(MAX_COUNTED_WORDS)) as u32
}

// A variable parameter holds a place.
fn slot_words(shapes: &ShapeTable, shape: Shape, by_place: bool) -> u32
    ensures { (ident : List ℕ) → result ≡ counted_words (slot_words shapes.now.entries (slot ident shape by_place)) }
{
    if by_place { 1 } else { shapes.words(shape) }
}
