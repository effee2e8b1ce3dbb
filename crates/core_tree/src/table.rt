//! The table of shapes.
ghost use Rattle.std.specs.Prelude.{◌≡◌, ◌≤◌, ◌+◌, ◌*◌, [], ◌∷◌, ◌++◌, length, min, IfOk, OnOk, OnErr};
ghost use Rattle.core_tree.specs.Shapes.{HaveWords, counted_words, fields_of, fields_words, next_entry, table_words, tree_of, trees_of, values_of, words_of, written_tree, written_values};

use crate::limits::MAX_COUNTED_WORDS;
use crate::{FieldShape, Shape, ShapeEntry, WrittenShape};
use dice_base::NoMemory;
use sqlite_items::Items;
use std::alloc::Global;

/// The types that a program writes, in the order of the text, each with its words.
#[derive(Drop)]
pub struct ShapeTable {
    pub entries: Items<ShapeEntry>,
    pub ghost sums: { HaveWords entries },
}

impl ShapeTable {
    /// A table without entries. Takes no memory.
    pub fn new(alloc: Global) -> ShapeTable
        ensures { result.entries ≡ [] }
    {
        ShapeTable {
            entries: Items::new(alloc),
        }
    }

    /// Adds a type over those that are there, and tells by which shape it is named. After a refusal the table is as before.
    #[tactic(auto, using(crate::proofs::Tables::words_after))]
    pub fn push(&mut self, shape: WrittenShape) -> Result<Shape, NoMemory>
        ensures name { IfOk result (λ s. s ≡ Shape.Written (length self.old.entries)) }
        ensures entry { OnOk result (self.new.entries ≡ self.old.entries ++ next_entry self.old.entries shape ∷ []) }
        ensures kept { OnErr result (self.new.entries ≡ self.old.entries) }
    {
        let number = u32::try_from(self.entries.len()).map_err(|_| NoMemory)?;
        let words = self.written_words(&shape);
        self.entries.push(ShapeEntry { shape, words })?;
        Ok(Shape::Written(number))
    }

    /// The words that a value of a type takes, counted up to 1,000,000,000. Takes no memory.
    #[tactic(auto, using(crate::proofs::Tables::some_words, crate::proofs::Tables::none_words))]
    pub fn words(&self, shape: Shape) -> u32
        ensures value { result ≡ counted_words (table_words self.now.entries shape) }
    {
        match shape {
            Shape::Written(number) => match self.entries.get(number as usize) {
                Some(entry) => entry.words,
                None => 0,
            },
            Shape::Integer | Shape::Boolean | Shape::Char => 1,
        }
    }

    // The words of a type over this table.
    #[tactic(auto, using(crate::proofs::Tables::counted_product))]
    fn written_words(&self, shape: &WrittenShape) -> u32
        ensures { result ≡ counted_words (words_of (written_tree (trees_of self.now.entries) shape.now)) }
    {
        match shape {
            WrittenShape::SetOf(_) => 8,
            WrittenShape::ArrayOf(index, component) => {
                product(self.values(*index), self.words(*component))
            }
            WrittenShape::RecordOf(fields) => self.fields_words(fields.as_slice()),
            _ => 1,
        }
    }

    fn fields_words(&self, fields: &[FieldShape]) -> u32
        ensures { result ≡ counted_words (fields_words (fields_of (trees_of self.now.entries) fields.now)) }
    {
        let mut words = 0;
        for field in fields {
            words = words_sum(words, self.words(field.shape));
        }
        words
    }

    // How many values an ordinal type has.
    #[tactic(auto, using(crate::proofs::Tables::some_values, crate::proofs::Tables::none_values))]
    fn values(&self, shape: Shape) -> u64
        ensures { result ≡ values_of (tree_of (trees_of self.now.entries) shape) }
    {
        match shape {
            Shape::Integer => 65_535,
            Shape::Boolean => 2,
            Shape::Char => 128,
            Shape::Written(number) => match self.entries.get(number as usize) {
                Some(entry) => written_values(&entry.shape),
                None => 0,
            },
        }
    }
}

fn written_values(shape: &WrittenShape) -> u64
    ensures { result ≡ written_values shape.now }
{
    match shape {
        WrittenShape::Enumeration(idents) => idents.len() as u64,
        WrittenShape::Subrange(_, first, last) => u64::from(first.abs_diff(*last)) + 1,
        _ => 0,
    }
}

fn words_sum(first: u32, second: u32) -> u32
    requires first_counted { first ≤ MAX_COUNTED_WORDS }
    requires second_counted { second ≤ MAX_COUNTED_WORDS }
    ensures { result ≡ counted_words (first + second) }
{
    (first + second).min(MAX_COUNTED_WORDS)
}

fn product(values: u64, words: u32) -> u32
    requires { words ≤ MAX_COUNTED_WORDS }
    ensures { result ≡ counted_words (values * words) }
{
    let product = u128::from(values) * u128::from(words);
    product.min(u128::from(MAX_COUNTED_WORDS)) as u32
}
