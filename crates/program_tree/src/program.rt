//! Programs whose items have names.
ghost use Rattle.std.specs.Prelude.{◌≡◌, ◌≤◌, true, IfOk, MatchOption, option_map, option_copied};
ghost use Rattle.pascal_tree.specs.Formed.{is_formed};
ghost use Rattle.pascal_tree.specs.Names.{Counts, program_names};
ghost use Rattle.program_tree.specs.Named.{IsProgram};
ghost use Rattle.program_tree.specs.Found.{HasNoParent, HasNoRow, HasNoSequence, HasParent, HasPath, HasRow, HasSequence, HaveOwnNames};
ghost use Rattle.pascal_tree.specs.Paths.{last_place};
ghost use Rattle.pascal_tree.specs.Rows.{own_text, program_rows};
ghost use Rattle.program_tree.specs.Lookups.{item_named, item_value, outer_at, parent_of, sequence_of, sequence_place};
ghost use Rattle.program_tree.specs.Search.{path_of};

use crate::index::{find_path, index_program};
use crate::item::{Item, find_at, has_statements, name_of_item};
use dice_base::{Name, NoMemory, Text};
use indexmap::IndexMap;
use pascal_tree::{Block, Tree, copy_program};
use sqlite_items::{Boxed, Items};
use std::alloc::Global;
use std::marker::Model;

/// A program each of whose items has a name of its own, at least 1 and below the next name, and which some text spells,
/// names aside: it is formed. Contracts see its tree.
#[derive(Drop)]
pub struct Program {
    // In a box, so that its drop is one call wherever a program is let go.
    tree: Boxed<Tree>,
    index: IndexMap<u32, Items<u32>>,
}

impl Model for Program {
    ghost use Rattle.std.specs.Prelude.{◌≡◌};
    ghost use Rattle.pascal_tree.specs.declared.program.Tree.{Tree};
    ghost use Rattle.program_tree.specs.Named.{IsProgram};
    ghost use Rattle.program_tree.specs.Entries.{IsIndexOf};
    ghost use Rattle.pascal_tree.specs.contracts.decl.Block as block_type;
    ghost use Rattle.std.specs.Coded.{codes};

    ghost Value = { Tree };

    ghost coded = { Prim.hlevel (codes, block_type.the_row.coded) };

    ghost view = { λ p. p.tree };

    ghost invariant = { λ p. IsProgram p.tree × IsIndexOf p.tree p.index };
}

// The tree, with its index.
fn indexed(alloc: Global, tree: Boxed<Tree>) -> Result<Program, NoMemory>
    requires { IsProgram tree }
    ensures { IfOk result (λ p. p ≡ tree) }
{
    let index = index_program(alloc, tree.get())?;
    Ok(Program { tree, index })
}

// The tree, whose items have the numbers below the next one as names, with its index.
fn indexed_in_turn(alloc: Global, tree: Boxed<Tree>, next: u32) -> Result<Program, NoMemory>
    requires last { next ≡ tree.next }
    requires names { Counts 1 (program_names tree) tree.next }
    requires formed { is_formed tree ≡ true }
    ensures { IfOk result (λ p. p ≡ tree) }
{
    indexed(alloc, tree)
}

impl Program {
    /// A program of these parts, whose items have names already. Its own name is 1.
    pub fn new(
        alloc: Global,
        ident: Text,
        files: Items<Text>,
        block: Block,
        next: u32,
    ) -> Result<Program, NoMemory>
        requires { IsProgram (record { ident = ident; files = files; block = block; next = next }) }
        ensures { IfOk result (λ p. p ≡ record { ident = ident; files = files; block = block; next = next }) }
    {
        let tree = Tree {
            ident,
            files,
            block,
            next,
        };
        let tree = Boxed::new(alloc, tree)?;
        indexed(alloc, tree)
    }

    /// The program of a formed tree whose items bear the numbers below its next name, each once, in the order of the text.
    pub fn from_numbered(alloc: Global, tree: Tree) -> Result<Program, NoMemory>
        requires names { Counts 1 (program_names tree) tree.next }
        requires formed { is_formed tree ≡ true }
        ensures { IfOk result (λ p. p ≡ tree) }
    {
        let next = tree.next;
        let tree = Boxed::new(alloc, tree)?;
        indexed_in_turn(alloc, tree, next)
    }

    /// The tree of the program.
    pub fn tree(&self) -> &Tree
        ensures value { result.now ≡ self.now }
        ensures invariant { IsProgram self.now }
    {
        self.tree.get()
    }

    /// The identifier of the program.
    pub fn ident(&self) -> &Text
        ensures { result.now ≡ self.now.ident }
    {
        &self.tree.get().ident
    }

    /// The program parameters.
    pub fn files(&self) -> &[Text]
        ensures { result.now ≡ self.now.files }
    {
        self.tree.get().files.as_slice()
    }

    /// The declarations and the body.
    pub fn block(&self) -> &Block
        ensures { result.now ≡ self.now.block }
    {
        &self.tree.get().block
    }

    /// The name of the next item that is added.
    pub fn next_name(&self) -> u32
        ensures { result ≡ self.now.next }
    {
        self.tree.get().next
    }

    /// A copy: the same items with the same names.
    pub fn copy(&self, alloc: Global) -> Result<Program, NoMemory>
        ensures { IfOk result (λ p. p ≡ self.now) }
    {
        let tree = copy_program(alloc, self.tree.get())?;
        let tree = Boxed::new(alloc, tree)?;
        indexed(alloc, tree)
    }

    /// A copy with this next name.
    #[tactic(auto, using(crate::proofs::Counted::program_later))]
    pub fn copy_next(&self, alloc: Global, next: u32) -> Result<Program, NoMemory>
        requires { self.now.next ≤ next }
        ensures { let tree = self.now in
            IfOk result (λ p. p ≡ record { ident = tree.ident; files = tree.files; block = tree.block; next = next }) }
    {
        let mut tree = copy_program(alloc, self.tree.get())?;
        tree.next = next;
        let tree = Boxed::new(alloc, tree)?;
        indexed(alloc, tree)
    }

    // The path of the item with this name.
    fn indexed_path(&self, name: Name) -> Option<&[u32]>
        ensures { option_copied result ≡ path_of name.0 self.now }
    {
        find_path(&self.index, name)
    }

    /// The path of the item with this name: the place of each item on the way to it, counted from 0. `None` where no item
    /// has the name.
    pub fn path_of(&self, name: Name) -> Option<&[u32]>
        ensures value { option_copied result ≡ path_of name.0 self.now }
        ensures rows { let rows = program_rows self.now in
            MatchOption result (HasNoRow name.0 rows) (λ path. HasPath path.now name.0 rows) }
    {
        self.indexed_path(name)
    }

    // The item with this name.
    #[tactic(auto, using(crate::proofs::RowNames::once_each))]
    fn item_named(&self, name: Name) -> Option<Item<'_>>
        ensures value { option_map item_value result ≡ item_named name.0 self.now }
        ensures once { HaveOwnNames (program_rows self.now) }
    {
        match self.path_of(name) {
            Some(path) => find_at(Item::OfProgram(self.tree.get()), path),
            None => None,
        }
    }

    /// The item with this name. `None` where no item has it.
    pub fn find(&self, name: Name) -> Option<Item<'_>>
        ensures value { option_map item_value result ≡ item_named name.0 self.now }
        ensures rows { let rows = program_rows self.now in
            MatchOption result (HasNoRow name.0 rows) (λ x. HasRow name.0 (own_text (item_value x)) rows) }
        ensures once { HaveOwnNames (program_rows self.now) }
    {
        self.item_named(name)
    }

    // The name of what the item with this name stands in.
    fn outer_name(&self, name: Name) -> Option<Name>
        ensures { result ≡ parent_of name.0 self.now }
    {
        match self.path_of(name) {
            Some(path) => match self.outer_at(path) {
                Some(outer) => Some(name_of_item(outer)),
                None => None,
            },
            None => None,
        }
    }

    /// The name of what the item with this name stands in. `None` where no item has the name, and for the program itself.
    pub fn parent(&self, name: Name) -> Option<Name>
        ensures value { result ≡ parent_of name.0 self.now }
        ensures rows { let rows = program_rows self.now in
            MatchOption result (HasNoParent name.0 rows) (λ outer. HasParent name.0 outer.0 rows) }
    {
        self.outer_name(name)
    }

    // What the item at a path stands in.
    fn outer_at(&self, path: &[u32]) -> Option<Item<'_>>
        ensures { option_map item_value result ≡ outer_at path.now self.now }
    {
        match path.len() {
            0 => None,
            count => find_at(Item::OfProgram(self.tree.get()), &path[..count - 1]),
        }
    }

    // The statement in whose sequence the item at a path stands, and its place there.
    fn place_in_sequence(&self, path: &[u32]) -> Option<(Name, u32)>
        ensures { result ≡ sequence_place (outer_at path.now self.now) (last_place path.now) }
    {
        match (self.outer_at(path), path.last()) {
            (Some(outer), Some(place)) => {
                if has_statements(outer) {
                    Some((name_of_item(outer), *place))
                } else {
                    None
                }
            }
            _ => None,
        }
    }

    // The statement in whose sequence the item with this name stands, and its place there.
    fn sequence_with(&self, name: Name) -> Option<(Name, u32)>
        ensures { result ≡ sequence_of name.0 self.now }
    {
        match self.path_of(name) {
            Some(path) => self.place_in_sequence(path),
            None => None,
        }
    }

    /// The compound or `repeat` statement in whose sequence the item with this name stands, and its place there,
    /// counted from 0. `None` where no item has the name, and for one that stands in no sequence.
    pub fn sequence_of(&self, name: Name) -> Option<(Name, u32)>
        ensures value { result ≡ sequence_of name.0 self.now }
        ensures rows { let rows = program_rows self.now in
            MatchOption result (HasNoSequence name.0 rows) (λ place. HasSequence name.0 place.0.0 place.1 rows) }
    {
        self.sequence_with(name)
    }
}
