//! A resolved program: its types, its routines and its blocks.
ghost use Rattle.std.specs.Prelude.{◌≡◌, ◌≤◌, IsTrue, length, option_copied, option_map, slice_get};
ghost use Rattle.core_tree.specs.Charge.{counted_charge, holds_of};
ghost use Rattle.core_tree.specs.Lookups.{are_apart, around_by, block_of, link_of};
ghost use Rattle.core_tree.specs.Views.{bare_form, core_end};

use crate::charges::form_holds;
use crate::lookups::{find_block, link_in};
use crate::{CoreForm, Shape, ShapeTable};
use dice_base::{LinkTo, Name, Text};
use sqlite_items::Items;

/// Where a link word leads.
#[derive(Clone, Copy, PartialEq, Eq)]
pub enum LinkEnd {
    /// The gate of this statement.
    Gate(Name),
    /// The step part of this `for`.
    Step(Name),
    /// The end part of this `with`.
    End(Name),
    /// The leaving part of this routine.
    Leave(Name),
    /// The first word of this routine's block.
    Block(Name),
    /// The end part of the program's block.
    Finish,
}

/// A block: its name, what it is made from, and where control goes from it.
#[derive(Drop)]
pub struct CoreBlock {
    pub name: Name,
    /// The routine or the program in whose body the statement stands. A routine and the program have their own name here.
    pub routine: Name,
    /// The nearest `for` or `with` around the statement in its routine.
    pub around: Option<Name>,
    /// Where control goes after the statement. A routine and the program have none.
    pub next: Option<LinkEnd>,
    /// The statements at which those directly in this one begin, in the order of the text: branches, arms, the sequence of
    /// a `repeat`, the body of a loop, of a `with`, of a routine or of the program.
    pub entries: Items<Name>,
    pub form: CoreForm,
}

/// A label, and the statement at which control goes on after a `goto` to it.
#[derive(Clone, Copy, PartialEq, Eq)]
pub struct CoreLabel {
    pub label: u16,
    pub entry: Name,
}

/// A parameter of a heading.
#[derive(Drop)]
pub struct HeadingParameter {
    pub ident: Text,
    /// It is a variable parameter.
    pub by_place: bool,
    pub shape: Shape,
}

/// What a heading says: the parameters, and a function's result.
#[derive(Drop)]
pub struct CoreHeading {
    pub parameters: Items<HeadingParameter>,
    pub result: Option<Shape>,
}

/// A variable that is declared in the variable part of a block.
#[derive(Drop)]
pub struct CoreVariable {
    pub ident: Text,
    pub shape: Shape,
}

/// The program, or a routine with its block.
#[derive(Drop)]
pub struct CoreRoutine {
    pub name: Name,
    /// The routine or the program that declares it. The program has its own name here.
    pub owner: Name,
    pub ident: Text,
    /// 0 for the program, 1 for a routine of the program.
    pub level: u8,
    pub heading: CoreHeading,
    /// In the order of their declaration.
    pub variables: Items<CoreVariable>,
    /// In the order of the text.
    pub labels: Items<CoreLabel>,
}

/// The type that a declaration gives, to which pointers lead.
#[derive(Clone, Copy, PartialEq, Eq)]
pub struct DomainShape {
    pub declared: Name,
    pub shape: Shape,
}

/// A resolved program. No two blocks have one name, and there are fewer than 2^32.
#[derive(Drop)]
pub struct Core {
    pub shapes: ShapeTable,
    pub domains: Items<DomainShape>,
    /// In the order of the text, the program first.
    pub routines: Items<CoreRoutine>,
    /// In the order of the text: the program's block first, and each routine's before those of its inner routines and of
    /// its body.
    pub blocks: Items<CoreBlock>,
    pub ghost apart: { IsTrue (are_apart blocks) },
    pub ghost few: { length blocks ≤ 4294967295 },
}

impl Core {
    /// What the block of this name is made from. `None` exactly where no block has the name. Takes no memory.
    pub fn form(&self, name: Name) -> Option<&CoreForm>
        ensures value { option_copied result ≡ option_map (λ b. b.form) (block_of self.now.blocks name.0) }
    {
        match self.block(name) {
            Some(block) => Some(&block.form),
            None => None,
        }
    }

    /// The holds of the `for` and `with` statements around the statement of this name, and its own, counted up to
    /// 1,000,000; 0 for a routine and the program. `None` exactly where no block has the name. Takes no memory.
    pub fn holds(&self, name: Name) -> Option<u32>
        ensures value { result ≡ option_map (λ b. counted_charge (holds_of (bare_form b.form))) (block_of self.now.blocks name.0) }
    {
        match self.block(name) {
            Some(block) => Some(form_holds(&block.form)),
            None => None,
        }
    }

    /// The number of blocks. Takes no memory.
    pub fn blocks(&self) -> u32
        ensures value { result ≡ length self.now.blocks }
    {
        self.blocks.len() as u32
    }

    /// The name of the block of this number in the order of the text, counted from 0. `None` exactly where there are no
    /// more than so many. Takes no memory.
    pub fn block_at(&self, index: u32) -> Option<Name>
        ensures value { result ≡ option_map (λ b. b.name) (slice_get self.now.blocks index) }
    {
        match self.blocks.get(index as usize) {
            Some(block) => Some(block.name),
            None => None,
        }
    }

    /// The routine or the program in whose body the statement of this name stands. A routine and the program give their
    /// own name. `None` exactly where no block has the name. Takes no memory.
    pub fn routine_of(&self, name: Name) -> Option<Name>
        ensures value { result ≡ option_map (λ b. b.routine) (block_of self.now.blocks name.0) }
    {
        match self.block(name) {
            Some(block) => Some(block.routine),
            None => None,
        }
    }

    /// The nearest `for` or `with` around the statement of this name in its routine. `None` exactly where there is none, or
    /// no block has the name. Takes no memory.
    pub fn around(&self, name: Name) -> Option<Name>
        ensures value { result ≡ around_by (block_of self.now.blocks name.0) }
    {
        match self.block(name) {
            Some(block) => block.around,
            None => None,
        }
    }

    /// Where such a link word of the block of this name leads. `None` exactly where no block has the name, or there is no
    /// such substatement, label or routine, or nothing comes after the block. Takes no memory.
    #[tactic(auto, using(crate::proofs::Ends::link_agrees))]
    pub fn link_end(&self, name: Name, to: LinkTo) -> Option<LinkEnd>
        ensures value { let core = self.now in result ≡ core_end core.shapes.entries core.routines core.blocks name.0 to }
    {
        self.link_of(name, to)
    }

    // The same, over the lists of the core.
    fn link_of(&self, name: Name, to: LinkTo) -> Option<LinkEnd>
        ensures { result ≡ link_of self.now.blocks self.now.routines name.0 to }
    {
        match self.block(name) {
            Some(block) => link_in(self.blocks.as_slice(), self.routines.as_slice(), block, to),
            None => None,
        }
    }

    // The block of this name.
    fn block(&self, name: Name) -> Option<&CoreBlock>
        ensures { option_copied result ≡ block_of self.now.blocks name.0 }
    {
        find_block(self.blocks.as_slice(), name)
    }
}
