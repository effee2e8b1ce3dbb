//! One part, or two.
ghost use Rattle.std.specs.Prelude.{◌≡◌, [], ◌∷◌, IfOk};
ghost use Rattle.core_tree.specs.declared.op.CoreExpr.{CoreExpr};
ghost use Rattle.resolve_expr.specs.Kept as spec;

use dice_base::NoMemory;
use resolve_expr::{Kept, KeptParts, appended, no_parts};
use std::alloc::Global;

/// One part.
pub fn one_part(alloc: Global, part: Kept) -> Result<KeptParts, NoMemory>
    ensures { (x : CoreExpr) → part ≡ spec.kept x → IfOk result (λ ps. ps ≡ spec.kept_parts (x ∷ [])) }
{
    appended(no_parts(alloc), part)
}

/// Two parts.
pub fn two_parts(alloc: Global, first: Kept, second: Kept) -> Result<KeptParts, NoMemory>
    ensures { (x y : CoreExpr) → first ≡ spec.kept x → second ≡ spec.kept y
        → IfOk result (λ ps. ps ≡ spec.kept_parts (x ∷ (y ∷ []))) }
{
    let one = appended(no_parts(alloc), first)?;
    let two = appended(one, second)?;
    Ok(two)
}
