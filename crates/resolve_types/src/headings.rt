//! Headings, and the variables of blocks (ISO 7185:1990, 6.5 and 6.6).
ghost use Rattle.std.specs.Prelude.{◌≡◌, map, IfOk};
ghost use Rattle.resolve_types.specs.Resolved as spec;

use crate::shapes::declared_shape;
use check_decl::Row;
use check_rules::{Parameter, RoutineEntity};
use core_tree::{CoreHeading, CoreVariable, HeadingParameter};
use dice_base::NoMemory;
use sqlite_items::Items;
use std::alloc::Global;

fn heading_parameters(
    alloc: Global,
    parameters: &[Parameter],
) -> Result<Items<HeadingParameter>, NoMemory>
    ensures { IfOk result (λ ps. ps ≡ map spec.heading_parameter parameters.now) }
{
    let mut all = Items::new(alloc);
    for parameter in parameters {
        let ident = parameter.ident.copy(alloc)?;
        all.push(HeadingParameter {
            ident,
            by_place: parameter.by_place,
            shape: declared_shape(parameter.typing),
        })?;
    }
    Ok(all)
}

/// What the heading of a routine says. Takes memory for a copy of each parameter.
pub fn core_heading(alloc: Global, routine: &RoutineEntity) -> Result<CoreHeading, NoMemory>
    ensures { IfOk result (λ h. h ≡ spec.core_heading routine.now) }
{
    let parameters = heading_parameters(alloc, routine.parameters.as_slice())?;
    let result = if routine.function {
        Some(declared_shape(routine.result))
    } else {
        None
    };
    Ok(CoreHeading { parameters, result })
}

/// The variables of the variable part of a block, from the rows of its owner's layout: those behind the result and the
/// parameters of this heading. Takes memory for a copy of each.
pub fn core_variables(
    alloc: Global,
    heading: &CoreHeading,
    rows: &[Row],
) -> Result<Items<CoreVariable>, NoMemory>
    ensures { IfOk result (λ vs. vs ≡ spec.core_variables heading.now rows.now) }
{
    let mut before = heading.parameters.len();
    if heading.result.is_some() {
        if before == usize::MAX {
            return Err(NoMemory);
        }
        before += 1;
    }
    match rows.get(before..) {
        Some(locals) => variables_of(alloc, locals),
        None => Ok(Items::new(alloc)),
    }
}

fn variables_of(alloc: Global, rows: &[Row]) -> Result<Items<CoreVariable>, NoMemory>
    ensures { IfOk result (λ vs. vs ≡ map spec.core_variable rows.now) }
{
    let mut all = Items::new(alloc);
    for row in rows {
        let ident = row.ident.copy(alloc)?;
        all.push(CoreVariable {
            ident,
            shape: declared_shape(row.typing),
        })?;
    }
    Ok(all)
}
