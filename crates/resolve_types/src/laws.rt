//! Laws of the definitions, each the contract of a function that does nothing.
ghost use Rattle.std.specs.Prelude.{◌≡◌, ◌++◌, List, map};
ghost use Rattle.check_decl.specs.BlockRules.{owner_of, place_inside};
ghost use Rattle.check_decl.specs.declared.place.Known.{Known};
ghost use Rattle.check_decl.specs.declared.place.Owner.{Owner};
ghost use Rattle.check_decl.specs.declared.place.Row.{Row};
ghost use Rattle.check_rules.specs.Regions.{Texts};
ghost use Rattle.check_rules.specs.Typing as types;
ghost use Rattle.check_decl.specs.declared.place.At.{At};
ghost use Rattle.core_tree.specs.Views.{IsTableOf};
ghost use Rattle.pascal_tree.specs.declared.program.Tree.{Tree};
ghost use Rattle.resolve_types.specs.Programs.{AreBuilt, BodyRules, context_of, entered, resolved_program};
ghost use Rattle.resolve_types.specs.Resolved.{core_heading, core_variable, core_variables};

use check_rules::RoutineEntity;
use core_tree::Core;

/// The block of a routine begins with the rows of its heading, so its variables are the rows that come to these.
#[tactic(auto, using(crate::proofs::Places::variables_behind))]
pub fn variables_behind(routine: &RoutineEntity)
    ensures { (ident : types.Text) (idents : Texts) (known : Known) (more : List Row)
        → core_variables (core_heading routine.now) ((place_inside ident routine.now idents known).rows ++ more)
        ≡ map core_variable more }
{}

/// A core that is built to the program of a tree, whatever the headings, is the table of that program.
#[tactic(auto, using(crate::proofs::Assembled::built_table))]
pub fn built_table(core: &Core)
    ensures { let c = core.now in (bodies : BodyRules) (tree : Tree) (end : At)
        → AreBuilt bodies tree end c.shapes.entries c.routines c.blocks
        → IsTableOf (resolved_program bodies end tree) c.shapes.entries c.routines c.blocks }
{}

/// What stands around the body of a routine is what stands around that of the block that declares it, and the routine.
#[tactic(auto, using(crate::proofs::Assembled::context_inside))]
pub fn context_inside(routine: &RoutineEntity)
    ensures { (end : At) (owner : Owner)
        → context_of end (owner_of routine.now owner) ≡ entered end routine.now (context_of end owner) }
{}
