//! What is declared before a program begins (ISO 7185:1990, 6.2.2.10): the types, constants and routines that the standard
//! requires, in a region outside that of the program.
#![tactic(auto)]

mod predeclared;

pub use predeclared::predeclared_region;
