//! Types as they are written (ISO 7185:1990, 6.4).
use crate::Constant;
use dice_base::Text;
use sqlite_items::{Boxed, Items};

/// A type. The bool of a structured type says that it is `packed`.
#[cycle(typing)]
#[derive(Drop)]
pub enum TypeText {
    Named(Text),
    Enumeration(Items<Text>),
    Range(Constant, Constant),
    Pointer(Text),
    Array(bool, Items<TypeText>, Boxed<TypeText>),
    SetOf(bool, Boxed<TypeText>),
    RecordOf(bool, Items<FieldText>),
}

/// Fields of one type.
#[cycle(typing)]
#[derive(Drop)]
pub struct FieldText {
    pub idents: Items<Text>,
    pub shape: TypeText,
}
