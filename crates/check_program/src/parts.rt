//! What a program is resolved to.
ghost use Rattle.std.specs.Prelude.{◌≡◌};
ghost use Rattle.check_program.specs.Parts as spec;

use crate::lists::{Lists, Source};
use crate::programs::check_program;
use crate::routines::push_block;
use check_decl::At;
use check_rules::CheckEnd;
use core_tree::{CoreBlock, CoreRoutine, DomainShape, ShapeTable};
use dice_base::Name;
use pascal_tree::Tree;
use resolve_types::{domain_shapes, program_context, program_entity, shape_table};
use sqlite_items::Items;
use std::alloc::Global;

/// A resolved program: its types, the types to which pointers lead, its routines and its blocks.
#[derive(Drop)]
pub struct Parts {
    pub shapes: ShapeTable,
    pub domains: Items<DomainShape>,
    pub routines: Items<CoreRoutine>,
    pub blocks: Items<CoreBlock>,
}

fn resolve_checked(alloc: Global, program: &Tree, end: At) -> Result<Parts, CheckEnd>
    ensures { spec.IsOutcome result program.now end }
{
    let Ok(shapes) = shape_table(alloc, end.known.table.as_slice()) else {
        return Err(CheckEnd::NoMemory);
    };
    let Ok(domains) = domain_shapes(alloc, end.known.domains.as_slice()) else {
        return Err(CheckEnd::NoMemory);
    };
    let Ok(context) = program_context(alloc, &end) else {
        return Err(CheckEnd::NoMemory);
    };
    let entity = program_entity(alloc);
    let source = Source { end, shapes };
    let mut out = Lists {
        routines: Items::new(alloc),
        blocks: Items::new(alloc),
    };
    let block = &program.block;
    match push_block(
        alloc,
        &source,
        block,
        &program.ident,
        Name(1),
        &entity,
        context,
        &mut out,
    ) {
        Err(end) => Err(end),
        Ok(_) => Ok(Parts {
            shapes: source.shapes,
            domains,
            routines: out.routines,
            blocks: out.blocks,
        }),
    }
}

/// Resolves a program, whatever its tree: its parts, or the fault of the first item in the order of the text that has one
/// (ISO 7185:1990, 6.2 to 6.10), or where there is none the first limit that a block does not keep.
pub fn resolve_parts(alloc: Global, program: &Tree) -> Result<Parts, CheckEnd>
    ensures { spec.IsResolution result program.now }
{
    match check_program(alloc, program) {
        Err(end) => Err(end),
        Ok(end) => resolve_checked(alloc, program, end),
    }
}
