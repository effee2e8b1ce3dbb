//! What identifiers of a Pascal program stand for, and the rules of its types and regions (ISO 7185:1990, 6.2.2, 6.4).
//!
//! An item of a program is judged part by part. A judgement is a value and the least *kind* of fault, a number from 1 to
//! 11, or `CLEAN`; the kinds of parts are joined by their least. A part with a fault has an unknown type, which keeps
//! every rule. So it does not matter in which order the rules of one item are tested.
//!
//! In `specs/`: same, compatible and assignable types, and words (`Typing`); where an identifier is looked for
//! (`Regions`); kinds (`Faults`); strings (`Strings`). The code gives the same values as these definitions.
#![tactic(auto)]

mod entity;
mod fault;
mod kinds;
mod lookups;
mod ordinals;
mod sets;
mod strings;
mod typing;

pub use entity::{
    Constant, Declared, Entity, Field, JudgedConstant, Parameter, Region, RoutineEntity, Standard,
    StandardFile, Variable,
};
pub use fault::{CheckEnd, CheckFault, SizeFault};
pub use kinds::{
    CLEAN, MAX_COUNTED, MAX_STRING, MAX_TYPE_WORDS, TOO_LARGE, TWICE, UNKNOWN, WRONG_ARGUMENTS,
    WRONG_CLASS, WRONG_CONSTANT, WRONG_CONTROL, WRONG_FORWARD, WRONG_LABEL, WRONG_PARAMETER,
    WRONG_TYPE, kind_unless, least,
};
pub use lookups::{
    declare, entity_in, entity_of, entity_through, entity_within, has_ident, new_region,
};
pub use ordinals::{
    are_compatible_ordinals, bounds_of, host_of, is_same_host, structure_at, words_of,
};
pub use sets::{
    Set, are_assignable, are_comparable_pointers, are_compatible, are_compatible_sets,
    are_same_strings, domain_of, is_same_type, set_of, set_type, sets_agree, string_length,
};
pub use strings::{faulty_constant, string_constant};
pub use typing::{Domain, FieldType, Host, Packing, Structure, Typing, WrittenType};
