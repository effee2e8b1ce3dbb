//! Operations over parts of which only as much is kept as a block can have.
ghost use Rattle.std.specs.Prelude.{◌≡◌, List, [], ◌∷◌, ◌++◌, IfOk, true};
ghost use Rattle.core_tree.specs.Charge.{counted_charge};
ghost use Rattle.core_tree.specs.declared.op.CoreExpr.{CoreExpr};
ghost use Rattle.resolve_expr.specs.Kept as spec;

use crate::context::{Kept, KeptParts, MAX_BLOCK_WORDS};
use core_tree::{CoreExpr, MAX_COUNTED_CHARGE, Op, Shape, op_charge};
use dice_base::NoMemory;
use sqlite_items::Items;
use std::alloc::Global;

// Two sums of words of code together.
fn counted(words: u64) -> u32
    ensures { result ≡ counted_charge words }
{
    words.min(u64::from(MAX_COUNTED_CHARGE)) as u32
}

fn fits_block(words: u64) -> bool
    ensures { result ≡ spec.fits_block words }
{
    words <= u64::from(MAX_BLOCK_WORDS)
}

/// No parts. Takes no memory.
#[tactic(auto, unfolding(crate::specs::Kept::kept_parts))]
pub fn no_parts(alloc: Global) -> KeptParts
    ensures { result ≡ spec.kept_parts [] }
{
    KeptParts {
        charge: 0,
        exprs: Some(Items::new(alloc)),
    }
}

fn joined(
    exprs: Option<Items<CoreExpr>>,
    expr: Option<CoreExpr>,
) -> Result<Option<Items<CoreExpr>>, NoMemory>
    ensures { IfOk result (λ es. es ≡ spec.joined true exprs expr) }
{
    match (exprs, expr) {
        (Some(mut all), Some(one)) => {
            all.push(one)?;
            Ok(Some(all))
        }
        _ => Ok(None),
    }
}

/// Parts, and one more behind them.
#[tactic(auto, unfolding(crate::specs::Kept::with_part))]
pub fn with_part(parts: KeptParts, part: Kept) -> Result<KeptParts, NoMemory>
    ensures { IfOk result (λ ps. ps ≡ spec.with_part parts part) }
{
    let words = u64::from(parts.charge) + u64::from(part.charge);
    let exprs = if fits_block(words) {
        joined(parts.exprs, part.expr)?
    } else {
        None
    };
    Ok(KeptParts {
        charge: counted(words),
        exprs,
    })
}

/// Parts, and one more behind them, where it is known of what they are kept.
#[tactic(auto, using(crate::proofs::Keeping::kept_with_part))]
pub fn appended(parts: KeptParts, part: Kept) -> Result<KeptParts, NoMemory>
    ensures { (es : List CoreExpr) (e : CoreExpr) → parts ≡ spec.kept_parts es → part ≡ spec.kept e
        → IfOk result (λ ps. ps ≡ spec.kept_parts (es ++ e ∷ [])) }
{
    with_part(parts, part)
}

#[tactic(auto, unfolding(crate::specs::Kept::operation))]
fn over(op: Op, shape: Option<Shape>, exprs: Option<Items<CoreExpr>>) -> Option<CoreExpr>
    ensures { result ≡ spec.over true op shape exprs }
{
    match exprs {
        Some(parts) => Some(CoreExpr { op, shape, parts }),
        None => None,
    }
}

/// An operation with its parts. Takes no memory.
#[tactic(auto, unfolding(crate::specs::Kept::applied))]
pub fn applied(op: Op, shape: Option<Shape>, parts: KeptParts) -> Kept
    ensures { result ≡ spec.applied op shape parts }
{
    let words = u64::from(op_charge(&op)) + u64::from(parts.charge);
    let expr = if fits_block(words) {
        over(op, shape, parts.exprs)
    } else {
        None
    };
    Kept {
        charge: counted(words),
        expr,
    }
}

/// An operation without parts. Takes no memory.
#[tactic(auto, using(crate::proofs::Keeping::kept_applied))]
pub fn leaf(alloc: Global, op: Op, shape: Option<Shape>) -> Kept
    ensures { result ≡ spec.kept (spec.operation op shape []) }
{
    applied(op, shape, no_parts(alloc))
}

/// An operation of one part.
#[tactic(auto, using(crate::proofs::Keeping::kept_applied, crate::proofs::Keeping::kept_with_part))]
pub fn around(alloc: Global, op: Op, shape: Option<Shape>, part: Kept) -> Result<Kept, NoMemory>
    ensures { (x : CoreExpr) → part ≡ spec.kept x → IfOk result (λ k. k ≡ spec.kept (spec.operation op shape (x ∷ []))) }
{
    let parts = with_part(no_parts(alloc), part)?;
    Ok(applied(op, shape, parts))
}

/// An operation of two parts.
#[tactic(auto, using(crate::proofs::Keeping::kept_applied, crate::proofs::Keeping::kept_with_part))]
pub fn both(
    alloc: Global,
    op: Op,
    shape: Option<Shape>,
    first: Kept,
    second: Kept,
) -> Result<Kept, NoMemory>
    ensures { (x y : CoreExpr) → first ≡ spec.kept x → second ≡ spec.kept y
        → IfOk result (λ k. k ≡ spec.kept (spec.operation op shape (x ∷ (y ∷ [])))) }
{
    let parts = with_part(no_parts(alloc), first)?;
    let parts = with_part(parts, second)?;
    Ok(applied(op, shape, parts))
}
