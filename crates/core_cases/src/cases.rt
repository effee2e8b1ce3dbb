//! What each call answers on the program.
use crate::build::{core, number, sum};
use core_tree::{
    Core, LinkEnd, Op, SetOp, Shape, StatementOp, WordOp, charge, counted_sum, expr_charge,
    expr_need, need, op_charge, op_need, op_width, own_holds, statement_charge,
};
use dice_base::{LinkTo, Name, NoMemory};
use frame_layout::{Layout, LayoutFault, layout};
use std::alloc::Global;
use std::test::Fail;

// The charge and the need of a block, or 0 where there is none.
fn sums(core: &Core, name: u32) -> (u32, u32) {
    match core.form(Name(name)) {
        Some(form) => (charge(form), need(form)),
        None => (0, 0),
    }
}

#[test]
fn sums_of_blocks(rt: HostRuntime) -> Result<(), Fail> {
    let alloc = rt.alloc();
    let core = core(alloc, 10)?;
    // `goto 7` is 8; `while i < 5` 48; `i := f(1, b)` 24 with a place of 8, a call of 24, and arguments of 16 + 4 and 8 + 8
    let is = [
        sums(&core, 1) == (32, 0),
        sums(&core, 2) == (80, 0),
        sums(&core, 5) == (80, 2),
        sums(&core, 6) == (112, 4),
        sums(&core, 8) == (8, 0),
        sums(&core, 9) == (48, 2),
        sums(&core, 10) == (92, 4),
        sums(&core, 3) == (0, 0),
    ];
    assert!(rt; is == [true; 8]);
    Ok(())
}

#[test]
fn sums_of_expressions(rt: HostRuntime) -> Result<(), Fail> {
    let alloc = rt.alloc();
    let number = number(alloc, 5);
    let sum = sum(alloc, Shape::Written(1))?;
    let is = [
        expr_charge(&number) == 4,
        expr_need(&number) == 1,
        expr_charge(&sum) == 80,
        expr_need(&sum) == 3,
    ];
    assert!(rt; is == [true; 4]);
    Ok(())
}

#[test]
fn rows_of_the_table(rt: HostRuntime) -> Result<(), Fail> {
    let alloc = rt.alloc();
    let core = core(alloc, 10)?;
    let is = [
        op_charge(&Op::Word(WordOp::Modulo)) == 32,
        op_width(&Op::Set(SetOp::Union)) == 8,
        op_need(&Op::Structure, 5) == 1,
        statement_charge(&StatementOp::Dispose(2)) == 16,
        own_holds(&StatementOp::With, 3) == 3,
        counted_sum(999_999, 2) == 1_000_000,
        core.shapes.words(Shape::Char) == 1,
        core.shapes.words(Shape::Written(1)) == 10,
    ];
    assert!(rt; is == [true; 8]);
    Ok(())
}

#[test]
fn places_of_blocks(rt: HostRuntime) -> Result<(), Fail> {
    let alloc = rt.alloc();
    let core = core(alloc, 10)?;
    let is = [
        core.blocks() == 7,
        core.block_at(0) == Some(Name(1)),
        core.block_at(3) == Some(Name(6)),
        core.block_at(7) == None,
        core.holds(Name(5)) == Some(1),
        core.holds(Name(6)) == Some(1),
        core.holds(Name(2)) == Some(0),
        core.holds(Name(7)) == None,
        core.routine_of(Name(6)) == Some(Name(2)),
        core.routine_of(Name(10)) == Some(Name(1)),
        core.routine_of(Name(7)) == None,
        core.around(Name(6)) == Some(Name(5)),
        core.around(Name(5)) == None,
    ];
    assert!(rt; is == [true; 13]);
    Ok(())
}

#[test]
fn ends_of_links(rt: HostRuntime) -> Result<(), Fail> {
    let alloc = rt.alloc();
    let core = core(alloc, 10)?;
    let is = [
        core.link_end(Name(1), LinkTo::Child(0)) == Some(LinkEnd::Gate(Name(8))),
        core.link_end(Name(1), LinkTo::Next) == None,
        core.link_end(Name(6), LinkTo::Next) == Some(LinkEnd::Step(Name(5))),
        core.link_end(Name(5), LinkTo::Child(0)) == Some(LinkEnd::Gate(Name(6))),
        core.link_end(Name(5), LinkTo::Child(1)) == None,
        core.link_end(Name(5), LinkTo::Next) == Some(LinkEnd::Leave(Name(2))),
        core.link_end(Name(8), LinkTo::Label(7)) == Some(LinkEnd::Gate(Name(8))),
        core.link_end(Name(6), LinkTo::Label(7)) == None,
        core.link_end(Name(10), LinkTo::Routine(Name(2))) == Some(LinkEnd::Block(Name(2))),
        core.link_end(Name(10), LinkTo::Routine(Name(1))) == None,
        core.link_end(Name(9), LinkTo::Next) == Some(LinkEnd::Finish),
        core.link_end(Name(7), LinkTo::Next) == None,
    ];
    assert!(rt; is == [true; 12]);
    Ok(())
}

// A variable as it lies in a layout: the first byte of its identifier, its offset, and whether it is a variable parameter.
fn row(layout: &Layout, at: usize) -> (u8, u32, bool) {
    match layout.rows.get(at) {
        Some(row) => match row.ident.bytes().first() {
            Some(byte) => (*byte, row.offset, row.by_place),
            None => (0, row.offset, row.by_place),
        },
        None => (0, 0, false),
    }
}

#[test]
fn layouts(rt: HostRuntime) -> Result<(), Fail> {
    let alloc = rt.alloc();
    let core = core(alloc, 10)?;
    let layouts = layout(alloc, &core).map_err(|_| NoMemory)?;
    let globals = layouts.of(Name(1)).ok_or(NoMemory)?;
    let frame = layouts.of(Name(2)).ok_or(NoMemory)?;
    let is = [
        globals.level == 0 && globals.words == 11,
        row(globals, 0) == (b'i', 0, false),
        row(globals, 1) == (b'b', 1, false),
        frame.level == 1 && frame.words == 13,
        row(frame, 0) == (b'f', 0, false),
        row(frame, 1) == (b'n', 1, false),
        row(frame, 2) == (b'k', 2, true),
        row(frame, 3) == (b'm', 3, false),
        row(frame, 4) == (0, 0, false),
    ];
    assert!(rt; is == [true; 9]);
    Ok(())
}

// The words of the globals or of a frame that are too many, where the array type has components up to this index; 0 where
// they are not.
fn fault(alloc: Global, last: i32) -> Result<(u32, u32), NoMemory> {
    let core = core(alloc, last)?;
    match layout(alloc, &core) {
        Ok(_) => Ok((0, 0)),
        Err(LayoutFault::GlobalsFull(words)) => Ok((words, 0)),
        Err(LayoutFault::FrameTooLarge(Name(2), words)) => Ok((0, words)),
        Err(_) => Err(NoMemory),
    }
}

#[test]
fn faults_of_layouts(rt: HostRuntime) -> Result<(), Fail> {
    let alloc = rt.alloc();
    // V is 3 and the array, and the globals are 1 and the array: 45 + 3 + 2,000 is 2,048, and 1 + 4,095 is 4,096
    let is = [
        fault(alloc, 2_000)? == (0, 0),
        fault(alloc, 2_001)? == (0, 2_049),
        fault(alloc, 4_095)? == (0, 4_143),
        fault(alloc, 4_096)? == (4_097, 0),
    ];
    assert!(rt; is == [true; 4]);
    Ok(())
}
