//! Resolved Pascal programs: what the check of a program gives, and what its meaning and its code are made from.
//!
//! An expression is an operation with its parts, in the order in which they are evaluated (`CoreExpr`). Each statement
//! but a compound, each routine and the program has a block. A program is a table of its blocks (`Core`), each with what
//! it is made from (`CoreForm`) and where control goes from it (`LinkEnd`), beside its routines and its types.
#![tactic(auto)]

mod charges;
mod counting;
mod form;
mod laws;
mod limits;
mod lookups;
mod op;
mod program;
mod rows;
mod shape;
mod table;

pub use charges::{charge, expr_charge, expr_need, need};
pub use counting::counted_sum;
pub use form::{CaseLabel, CoreForm, ForLoop, Parameter, RoutineForm, StatementForm, StatementOp};
pub use laws::{machine_tables, program_links, sums_of_forms};
pub use limits::{MAX_COUNTED_CHARGE, MAX_COUNTED_WORDS};
pub use lookups::are_apart;
pub use op::{
    Callee, CoreExpr, EffectOp, Op, PlaceOp, Relation, Scope, SetOp, Storage, Variable, WordOp,
    Written,
};
pub use program::{
    Core, CoreBlock, CoreHeading, CoreLabel, CoreRoutine, CoreVariable, DomainShape,
    HeadingParameter, LinkEnd,
};
pub use rows::{op_charge, op_need, op_width, own_holds, statement_charge};
pub use shape::{Domain, FieldShape, Shape, ShapeEntry, WrittenShape};
pub use table::ShapeTable;
