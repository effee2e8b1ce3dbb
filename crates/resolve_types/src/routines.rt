//! The own forms of the program and of routines.
ghost use Rattle.std.specs.Prelude.{◌≡◌, ◌≤◌, ◌+◌, ℕ, map, IfOk};
ghost use Rattle.core_tree.specs.Plain as plain;
ghost use Rattle.core_tree.specs.Plain.{Heading};
ghost use Rattle.core_tree.specs.Shapes as shapes;
ghost use Rattle.core_tree.specs.Views as views;
ghost use Rattle.resolve_types.specs.Forms as spec;

use core_tree::{
    CoreForm, CoreRoutine, CoreVariable, HeadingParameter, MAX_COUNTED_WORDS, Parameter,
    RoutineForm, Shape, ShapeTable, WrittenShape,
};
use dice_base::NoMemory;
use sqlite_items::Items;
use std::alloc::Global;

fn written_parameter(shape: &WrittenShape, words: u32) -> Parameter
    ensures { result ≡ spec.written_parameter words shape.now }
{
    match shape {
        WrittenShape::SetOf(_) => Parameter::Set,
        WrittenShape::ArrayOf(_, _) => Parameter::Structure(words),
        WrittenShape::RecordOf(_) => Parameter::Structure(words),
        _ => Parameter::Scalar,
    }
}

// How a value parameter of a type is taken.
#[tactic(auto, using(crate::proofs::Taken::some_parameter, crate::proofs::Taken::no_parameter))]
fn value_parameter(table: &ShapeTable, shape: Shape) -> Parameter
    ensures { result ≡ plain.value_parameter (shapes.tree_of (shapes.trees_of table.now.entries) shape) }
{
    match shape {
        Shape::Written(number) => match table.entries.get(number as usize) {
            Some(entry) => written_parameter(&entry.shape, table.words(shape)),
            None => Parameter::Structure(0),
        },
        _ => Parameter::Scalar,
    }
}

fn parameter_of(table: &ShapeTable, parameter: &HeadingParameter) -> Parameter
    ensures { result ≡ spec.parameter_over (shapes.trees_of table.now.entries) parameter.now }
{
    if parameter.by_place {
        Parameter::ByPlace
    } else {
        value_parameter(table, parameter.shape)
    }
}

fn parameters_of(
    alloc: Global,
    table: &ShapeTable,
    parameters: &[HeadingParameter],
) -> Result<Items<Parameter>, NoMemory>
    ensures { IfOk result (λ ps. ps ≡ map (spec.parameter_over (shapes.trees_of table.now.entries)) parameters.now) }
{
    let mut all = Items::new(alloc);
    for parameter in parameters {
        all.push(parameter_of(table, parameter))?;
    }
    Ok(all)
}

fn words_sum(first: u32, second: u32) -> u32
    requires first_counted { first ≤ MAX_COUNTED_WORDS }
    requires second_counted { second ≤ MAX_COUNTED_WORDS }
    ensures { result ≡ shapes.counted_words (first + second) }
{
    (first + second).min(MAX_COUNTED_WORDS)
}

// The words of variables, counted up to 1,000,000,000.
fn variables_words(table: &ShapeTable, variables: &[CoreVariable]) -> u32
    ensures { result ≡ shapes.counted_words (spec.variables_words (shapes.trees_of table.now.entries) variables.now) }
{
    let mut words = 0;
    for variable in variables {
        words = words_sum(words, table.words(variable.shape));
    }
    words
}

#[tactic(auto, using(crate::proofs::Taken::routine_is))]
fn routine_form(
    alloc: Global,
    table: &ShapeTable,
    routine: &CoreRoutine,
) -> Result<RoutineForm, NoMemory>
    ensures { IfOk result (λ f. f ≡ plain.routine_form (views.head_over (shapes.trees_of table.now.entries) routine.now)) }
{
    let parameters = parameters_of(alloc, table, routine.heading.parameters.as_slice())?;
    Ok(RoutineForm {
        level: routine.level,
        parameters,
        function: routine.heading.result.is_some(),
        local_words: variables_words(table, routine.variables.as_slice()),
    })
}

/// The own form of the program, which has level 0, or of a routine, over a table of its types. Takes memory for each
/// parameter.
#[tactic(auto, using(crate::proofs::Taken::program_is, crate::proofs::Taken::inner_is))]
pub fn core_form(
    alloc: Global,
    table: &ShapeTable,
    routine: &CoreRoutine,
) -> Result<CoreForm, NoMemory>
    ensures { (headings : ℕ → Heading) → let trees = shapes.trees_of table.now.entries in
        IfOk result (λ f. views.form_over trees headings f ≡ plain.head_form (views.head_over trees routine.now)) }
{
    if routine.level == 0 {
        return Ok(CoreForm::Program);
    }
    let form = routine_form(alloc, table, routine)?;
    Ok(CoreForm::Routine(form))
}
