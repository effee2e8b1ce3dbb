//! A resolved program, put together by hand.
//!
//!     program a; type t = array [1..10] of integer; var i: integer; b: t;
//!       function f(n: integer; var k: t): integer; var m: t;
//!       begin for i := 1 to 2 do f := n + k[i] end;
//!     begin 7: goto 7; while i < 5 do i := f(1, b) end.
use core_tree::{
    Callee, Core, CoreBlock, CoreExpr, CoreForm, CoreHeading, CoreLabel, CoreRoutine, CoreVariable,
    ForLoop, HeadingParameter, LinkEnd, Op, Parameter, PlaceOp, Relation, RoutineForm, Scope,
    Shape, ShapeTable, StatementForm, StatementOp, Storage, Variable, WordOp, WrittenShape,
    are_apart,
};
use dice_base::{Name, NoMemory, Text};
use sqlite_items::Items;
use std::alloc::Global;

const INTEGERS: Storage = Storage::Ordinal(-32_767, 32_767);

fn text(alloc: Global, bytes: &[u8]) -> Result<Text, NoMemory> {
    Text::from_slice(alloc, bytes)
}

fn one<T: Drop>(alloc: Global, item: T) -> Result<Items<T>, NoMemory> {
    let mut all = Items::new(alloc);
    all.push(item)?;
    Ok(all)
}

fn two<T: Drop>(alloc: Global, first: T, second: T) -> Result<Items<T>, NoMemory> {
    let mut all = Items::new(alloc);
    all.push(first)?;
    all.push(second)?;
    Ok(all)
}

// ---- expressions

fn leaf(alloc: Global, op: Op, shape: Option<Shape>) -> CoreExpr {
    CoreExpr {
        op,
        shape,
        parts: Items::new(alloc),
    }
}

fn place(alloc: Global, scope: Scope, offset: u32, by_place: bool, shape: Shape) -> CoreExpr {
    let variable = Variable {
        scope,
        offset,
        by_place,
        frame_words: 13,
    };
    leaf(alloc, Op::Place(PlaceOp::Variable(variable)), Some(shape))
}

/// A number.
pub fn number(alloc: Global, value: i32) -> CoreExpr {
    leaf(
        alloc,
        Op::Word(WordOp::Constant(value)),
        Some(Shape::Integer),
    )
}

fn load(alloc: Global, place: CoreExpr) -> Result<CoreExpr, NoMemory> {
    Ok(CoreExpr {
        op: Op::Word(WordOp::Load),
        shape: None,
        parts: one(alloc, place)?,
    })
}

fn global(alloc: Global) -> CoreExpr {
    place(alloc, Scope::Program, 0, false, Shape::Integer)
}

// `k[i]`
fn component(alloc: Global, array: Shape) -> Result<CoreExpr, NoMemory> {
    let index = load(alloc, global(alloc))?;
    Ok(CoreExpr {
        op: Op::Place(PlaceOp::Index(1, 10, 1)),
        shape: Some(array),
        parts: two(
            alloc,
            place(alloc, Scope::Routine(0), 2, true, array),
            index,
        )?,
    })
}

/// `n + k[i]`: of 16 words, a place of 8, its value of 4, a place of 12, an index of 24 with a place of 8 and a value of 4,
/// and a value of 4.
pub fn sum(alloc: Global, array: Shape) -> Result<CoreExpr, NoMemory> {
    let first = load(
        alloc,
        place(alloc, Scope::Routine(0), 1, false, Shape::Integer),
    )?;
    let second = load(alloc, component(alloc, array)?)?;
    Ok(CoreExpr {
        op: Op::Word(WordOp::Add),
        shape: None,
        parts: two(alloc, first, second)?,
    })
}

// `f(1, b)`
fn call(alloc: Global, array: Shape) -> Result<CoreExpr, NoMemory> {
    let callee = Callee {
        routine: Name(2),
        scope: Scope::Program,
        function: true,
    };
    let value = CoreExpr {
        op: Op::Argument(INTEGERS),
        shape: None,
        parts: one(alloc, number(alloc, 1))?,
    };
    let variable = CoreExpr {
        op: Op::ActualVariable,
        shape: None,
        parts: one(alloc, place(alloc, Scope::Program, 1, false, array))?,
    };
    Ok(CoreExpr {
        op: Op::Call(callee),
        shape: None,
        parts: two(alloc, value, variable)?,
    })
}

// `i < 5`
fn test(alloc: Global) -> Result<CoreExpr, NoMemory> {
    let first = load(alloc, global(alloc))?;
    Ok(CoreExpr {
        op: Op::Word(WordOp::Compare(Relation::Less)),
        shape: None,
        parts: two(alloc, first, number(alloc, 5))?,
    })
}

// ---- blocks

fn statement(
    level: u8,
    holds: u32,
    op: StatementOp,
    shape: Option<Shape>,
    parts: Items<CoreExpr>,
) -> CoreForm {
    CoreForm::Statement(StatementForm {
        level,
        holds,
        op,
        shape,
        parts,
    })
}

fn routine_block(alloc: Global) -> Result<CoreBlock, NoMemory> {
    let form = RoutineForm {
        level: 1,
        parameters: two(alloc, Parameter::Scalar, Parameter::ByPlace)?,
        function: true,
        local_words: 10,
    };
    Ok(CoreBlock {
        name: Name(2),
        routine: Name(2),
        around: None,
        next: None,
        entries: one(alloc, Name(5))?,
        form: CoreForm::Routine(form),
    })
}

fn for_block(alloc: Global) -> Result<CoreBlock, NoMemory> {
    let variable = Variable {
        scope: Scope::Program,
        offset: 0,
        by_place: false,
        frame_words: 0,
    };
    let looping = ForLoop {
        variable,
        first: -32_767,
        last: 32_767,
        down: false,
    };
    let parts = two(alloc, number(alloc, 1), number(alloc, 2))?;
    Ok(CoreBlock {
        name: Name(5),
        routine: Name(2),
        around: None,
        next: Some(LinkEnd::Leave(Name(2))),
        entries: one(alloc, Name(6))?,
        form: statement(1, 0, StatementOp::For(looping), Some(Shape::Integer), parts),
    })
}

fn result_block(alloc: Global, array: Shape) -> Result<CoreBlock, NoMemory> {
    let place = place(alloc, Scope::Routine(0), 0, false, Shape::Integer);
    let parts = two(alloc, place, sum(alloc, array)?)?;
    Ok(CoreBlock {
        name: Name(6),
        routine: Name(2),
        around: Some(Name(5)),
        next: Some(LinkEnd::Step(Name(5))),
        entries: Items::new(alloc),
        form: statement(1, 1, StatementOp::Assign(INTEGERS), None, parts),
    })
}

fn goto_block(alloc: Global) -> CoreBlock {
    CoreBlock {
        name: Name(8),
        routine: Name(1),
        around: None,
        next: Some(LinkEnd::Gate(Name(9))),
        entries: Items::new(alloc),
        form: statement(0, 0, StatementOp::Goto(7), None, Items::new(alloc)),
    }
}

fn while_block(alloc: Global) -> Result<CoreBlock, NoMemory> {
    let parts = one(alloc, test(alloc)?)?;
    Ok(CoreBlock {
        name: Name(9),
        routine: Name(1),
        around: None,
        next: Some(LinkEnd::Finish),
        entries: one(alloc, Name(10))?,
        form: statement(0, 0, StatementOp::While, None, parts),
    })
}

fn call_block(alloc: Global, array: Shape) -> Result<CoreBlock, NoMemory> {
    let parts = two(alloc, global(alloc), call(alloc, array)?)?;
    Ok(CoreBlock {
        name: Name(10),
        routine: Name(1),
        around: None,
        next: Some(LinkEnd::Gate(Name(9))),
        entries: Items::new(alloc),
        form: statement(0, 0, StatementOp::Assign(INTEGERS), None, parts),
    })
}

fn program_block(alloc: Global) -> Result<CoreBlock, NoMemory> {
    Ok(CoreBlock {
        name: Name(1),
        routine: Name(1),
        around: None,
        next: None,
        entries: one(alloc, Name(8))?,
        form: CoreForm::Program,
    })
}

fn blocks(alloc: Global, array: Shape) -> Result<Items<CoreBlock>, NoMemory> {
    let mut blocks = one(alloc, program_block(alloc)?)?;
    blocks.push(routine_block(alloc)?)?;
    blocks.push(for_block(alloc)?)?;
    blocks.push(result_block(alloc, array)?)?;
    blocks.push(goto_block(alloc))?;
    blocks.push(while_block(alloc)?)?;
    blocks.push(call_block(alloc, array)?)?;
    Ok(blocks)
}

// ---- routines

fn variable(alloc: Global, ident: &[u8], shape: Shape) -> Result<CoreVariable, NoMemory> {
    let ident = text(alloc, ident)?;
    Ok(CoreVariable { ident, shape })
}

fn program(alloc: Global, array: Shape) -> Result<CoreRoutine, NoMemory> {
    let variables = two(
        alloc,
        variable(alloc, b"i", Shape::Integer)?,
        variable(alloc, b"b", array)?,
    )?;
    let labels = one(
        alloc,
        CoreLabel {
            label: 7,
            entry: Name(8),
        },
    )?;
    Ok(CoreRoutine {
        name: Name(1),
        owner: Name(1),
        ident: text(alloc, b"a")?,
        level: 0,
        heading: CoreHeading {
            parameters: Items::new(alloc),
            result: None,
        },
        variables,
        labels,
    })
}

fn parameter(
    alloc: Global,
    ident: &[u8],
    by_place: bool,
    shape: Shape,
) -> Result<HeadingParameter, NoMemory> {
    let ident = text(alloc, ident)?;
    Ok(HeadingParameter {
        ident,
        by_place,
        shape,
    })
}

fn function(alloc: Global, array: Shape) -> Result<CoreRoutine, NoMemory> {
    let parameters = two(
        alloc,
        parameter(alloc, b"n", false, Shape::Integer)?,
        parameter(alloc, b"k", true, array)?,
    )?;
    let variables = one(alloc, variable(alloc, b"m", array)?)?;
    Ok(CoreRoutine {
        name: Name(2),
        owner: Name(1),
        ident: text(alloc, b"f")?,
        level: 1,
        heading: CoreHeading {
            parameters,
            result: Some(Shape::Integer),
        },
        variables,
        labels: Items::new(alloc),
    })
}

fn core_with(
    alloc: Global,
    shapes: ShapeTable,
    routines: Items<CoreRoutine>,
    blocks: Items<CoreBlock>,
) -> Result<Core, NoMemory> {
    // Both are so: a core has to be shown that they are.
    if are_apart(blocks.as_slice()) && blocks.len() <= 100 {
        Ok(Core {
            shapes,
            domains: Items::new(alloc),
            routines,
            blocks,
        })
    } else {
        Err(NoMemory)
    }
}

/// The program, where the array type has components up to this index.
pub fn core(alloc: Global, last: i32) -> Result<Core, NoMemory> {
    let mut shapes = ShapeTable::new(alloc);
    let index = shapes.push(WrittenShape::Subrange(Shape::Integer, 1, last))?;
    let array = shapes.push(WrittenShape::ArrayOf(index, Shape::Integer))?;
    let routines = two(alloc, program(alloc, array)?, function(alloc, array)?)?;
    let blocks = blocks(alloc, array)?;
    core_with(alloc, shapes, routines, blocks)
}
