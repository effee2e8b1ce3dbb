//! Look-ups in the lists of a core, each a linear search.
ghost use Rattle.std.specs.Prelude.{◌≡◌, length, option_copied, option_map, slice_get};
ghost use Rattle.core_tree.specs.Lookups.{are_apart, block_of, call_link, link_in, form_link, has_block, label_link, routine_of};

use crate::{CoreBlock, CoreForm, CoreLabel, CoreRoutine, LinkEnd};
use dice_base::{LinkTo, Name};

/// The block of this name.
pub fn find_block(blocks: &[CoreBlock], name: Name) -> Option<&CoreBlock>
    ensures { option_copied result ≡ block_of blocks.now name.0 }
{
    for block in blocks {
        if block.name == name {
            return Some(block);
        }
    }
    None
}

/// The program or the routine of this name.
pub fn find_routine(routines: &[CoreRoutine], name: Name) -> Option<&CoreRoutine>
    ensures { option_copied result ≡ routine_of routines.now name.0 }
{
    for routine in routines {
        if routine.name == name {
            return Some(routine);
        }
    }
    None
}

/// Where a link word of a block leads.
pub fn link_in(
    blocks: &[CoreBlock],
    routines: &[CoreRoutine],
    block: &CoreBlock,
    to: LinkTo,
) -> Option<LinkEnd>
    ensures { result ≡ link_in blocks.now routines.now block.now to }
{
    match to {
        LinkTo::Next => block.next,
        LinkTo::Child(number) => match block.entries.get(number as usize) {
            Some(entry) => Some(LinkEnd::Gate(*entry)),
            None => None,
        },
        LinkTo::Label(label) => match find_routine(routines, block.routine) {
            Some(routine) => label_link(routine.labels.as_slice(), label),
            None => None,
        },
        LinkTo::Routine(name) => call_link(blocks, name),
    }
}

// Where a label stands.
fn label_link(labels: &[CoreLabel], label: u16) -> Option<LinkEnd>
    ensures { result ≡ label_link labels.now label }
{
    for stands in labels {
        if stands.label == label {
            return Some(LinkEnd::Gate(stands.entry));
        }
    }
    None
}

// The block of a routine that is called.
fn call_link(blocks: &[CoreBlock], name: Name) -> Option<LinkEnd>
    ensures { result ≡ call_link name (block_of blocks.now name.0) }
{
    match find_block(blocks, name) {
        Some(block) => form_link(name, &block.form),
        None => None,
    }
}

fn form_link(name: Name, form: &CoreForm) -> Option<LinkEnd>
    ensures { result ≡ form_link name form.now }
{
    match form {
        CoreForm::Routine(_) => Some(LinkEnd::Block(name)),
        CoreForm::Program => None,
        CoreForm::Statement(_) => None,
    }
}

/// Whether no two blocks have one name, which each core keeps. Takes the square of their number in steps, and no memory.
pub fn are_apart(blocks: &[CoreBlock]) -> bool
    ensures { result ≡ are_apart blocks.now }
{
    for at in 0..blocks.len() {
        if has_block(&blocks[at + 1..], blocks[at].name) {
            return false;
        }
    }
    true
}

// Whether a block has this name.
fn has_block(blocks: &[CoreBlock], name: Name) -> bool
    ensures { result ≡ has_block blocks.now name.0 }
{
    for block in blocks {
        if block.name == name {
            return true;
        }
    }
    false
}
