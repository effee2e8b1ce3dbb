//! Laws of the definitions, each the contract of a function that does nothing.
ghost use Rattle.std.specs.Prelude.{◌≡◌, ℕ, List, map};
ghost use Rattle.dice_base.specs.declared.link.LinkTo.{LinkTo};
ghost use Rattle.core_tree.specs.Charge.{charge_of, holds_of, need_of};
ghost use Rattle.core_tree.specs.Control.{core_row, core_rows, machine_rows};
ghost use Rattle.core_tree.specs.Plain.{Heading, Routine};
ghost use Rattle.core_tree.specs.Shapes.{ShapeTree};
ghost use Rattle.core_tree.specs.Views.{IsTableOf, bare_form, core_end, form_over, program_end};

use crate::{Core, CoreForm};

/// The table of a program is that of the plain machine, of which it keeps the first place that control comes to after a
/// statement, and the nearest statement around.
#[tactic(auto, using(crate::proofs::Flows::rows_agree))]
pub fn machine_tables()
    ensures { (program : Routine) → map core_row (machine_rows program) ≡ core_rows program }
{}

/// The links of a core lead where those of its program do.
#[tactic(auto, using(crate::proofs::Ends::program_links))]
pub fn program_links(core: &Core)
    ensures { let entries = core.now.shapes.entries in
        (program : Routine) (n : ℕ) (way : LinkTo) → IsTableOf program entries core.now.routines core.now.blocks
        → core_end entries core.now.routines core.now.blocks n way ≡ program_end program n way }
{}

/// The sums of a form need neither types nor headings.
#[tactic(auto, using(crate::proofs::Ends::charge_over, crate::proofs::Ends::need_over, crate::proofs::Ends::holds_over))]
pub fn sums_of_forms(form: &CoreForm)
    ensures charges { (trees : List ShapeTree) (headings : ℕ → Heading)
        → charge_of (form_over trees headings form.now) ≡ charge_of (bare_form form.now) }
    ensures needs { (trees : List ShapeTree) (headings : ℕ → Heading)
        → need_of (form_over trees headings form.now) ≡ need_of (bare_form form.now) }
    ensures holds { (trees : List ShapeTree) (headings : ℕ → Heading)
        → holds_of (form_over trees headings form.now) ≡ holds_of (bare_form form.now) }
{}
