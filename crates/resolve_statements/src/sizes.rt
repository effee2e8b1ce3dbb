//! What fits into a block.
ghost use Rattle.std.specs.Prelude.{◌≡◌, ◌+◌, ◌≤◌, length};
ghost use Rattle.core_tree.specs.Charge.{charge_of, counted_charge, own_holds};
ghost use Rattle.core_tree.specs.Views.{bare_form};
ghost use Rattle.core_tree.specs.declared.form.CoreForm.TheVariants as forms;
ghost use Rattle.core_tree.specs.declared.form.StatementForm.{StatementForm};
ghost use Rattle.resolve_statements.specs.Forms as spec;
ghost use Rattle.resolve_statements.specs.Tables as tables;

use crate::form::KeptForm;
use crate::limits::{MAX_BLOCK_HOLDS, MAX_BLOCK_TEMPS};
use check_rules::{CheckEnd, SizeFault};
use core_tree::{CoreForm, MAX_COUNTED_CHARGE, StatementForm, counted_sum, need, own_holds};
use dice_base::Name;
use resolve_expr::MAX_BLOCK_WORDS;

fn statement_holds(form: &StatementForm) -> u32
    ensures { result ≡ counted_charge (form.now.holds + own_holds form.now.op (length form.now.parts)) }
{
    counted_sum(
        form.holds.min(MAX_COUNTED_CHARGE),
        own_holds(&form.op, form.parts.len()),
    )
}

// A form that has no more words than a block.
fn short_form(name: Name, form: StatementForm) -> Result<CoreForm, CheckEnd>
    ensures { charge_of (bare_form (forms.Statement form)) ≤ MAX_BLOCK_WORDS → tables.Formed result name form }
{
    let holds = statement_holds(&form);
    let form = CoreForm::Statement(form);
    let words = need(&form);
    if words > MAX_BLOCK_TEMPS {
        return Err(CheckEnd::Size(SizeFault::TooManyTemps(name, words)));
    }
    if holds > MAX_BLOCK_HOLDS {
        return Err(CheckEnd::Size(SizeFault::TooManyHolds(name, holds)));
    }
    Ok(form)
}

/// What the block of a statement of this name is made from, or the first limit that it does not keep.
pub fn block_form(name: Name, kept: KeptForm) -> Result<CoreForm, CheckEnd>
    ensures { (f : StatementForm) → kept ≡ spec.kept_form f → tables.Formed result name f }
{
    if kept.charge > MAX_BLOCK_WORDS {
        return Err(CheckEnd::Size(SizeFault::BlockTooLong(name, kept.charge)));
    }
    match kept.form {
        Some(form) => short_form(name, form),
        None => Err(CheckEnd::NoMemory),
    }
}
