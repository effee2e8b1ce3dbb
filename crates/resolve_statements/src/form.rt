//! Own forms over parts of which only as much is kept as a block can have.
ghost use Rattle.std.specs.Prelude.{◌≡◌, List, true};
ghost use Rattle.core_tree.specs.Charge.{counted_charge};
ghost use Rattle.core_tree.specs.declared.op.CoreExpr.{CoreExpr};
ghost use Rattle.resolve_expr.specs.Kept as kept_spec;
ghost use Rattle.resolve_statements.specs.Forms as spec;

use core_tree::{
    CoreExpr, MAX_COUNTED_CHARGE, Shape, StatementForm, StatementOp, statement_charge,
};
use resolve_expr::{Context, KeptParts, MAX_BLOCK_WORDS};
use sqlite_items::Items;

/// The own form of a statement: its words of code, counted up to 1,000,000, and the form where they are no more than
/// `MAX_BLOCK_WORDS`.
#[derive(Drop)]
pub struct KeptForm {
    pub charge: u32,
    pub form: Option<StatementForm>,
}

fn form_over(
    context: &Context,
    op: StatementOp,
    shape: Option<Shape>,
    parts: Option<Items<CoreExpr>>,
) -> Option<StatementForm>
    ensures { result ≡ spec.form_over true context.now op shape parts }
{
    match parts {
        Some(parts) => Some(StatementForm {
            level: context.level.min(255) as u8,
            holds: context.env.holds,
            op,
            shape,
            parts,
        }),
        None => None,
    }
}

#[tactic(auto, unfolding(crate::specs::Forms::formed))]
fn formed(context: &Context, op: StatementOp, shape: Option<Shape>, parts: KeptParts) -> KeptForm
    ensures { result ≡ spec.formed context.now op shape parts }
{
    let words = u64::from(statement_charge(&op)) + u64::from(parts.charge);
    let form = if words <= u64::from(MAX_BLOCK_WORDS) {
        form_over(context, op, shape, parts.exprs)
    } else {
        None
    };
    KeptForm {
        charge: words.min(u64::from(MAX_COUNTED_CHARGE)) as u32,
        form,
    }
}

/// A form with these parts, where this stands around the statement. Takes no memory.
#[tactic(auto, using(crate::proofs::Keeping::kept_formed))]
pub fn form_with(
    context: &Context,
    op: StatementOp,
    shape: Option<Shape>,
    parts: KeptParts,
) -> KeptForm
    ensures { (es : List CoreExpr) → parts ≡ kept_spec.kept_parts es → result ≡ spec.kept_form (spec.form context.now op shape es) }
{
    formed(context, op, shape, parts)
}
