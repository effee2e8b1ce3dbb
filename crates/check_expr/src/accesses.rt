//! Expressions that are an access and nothing more.
ghost use Rattle.std.specs.Prelude.{◌≡◌, None};
ghost use Rattle.std.specs.Option.{option_copied, option_map};
ghost use Rattle.pascal_tree.specs.declared.expr.Factor.{out-Factor};
ghost use Rattle.pascal_tree.specs.declared.expr.Term.{out-Term};
ghost use Rattle.pascal_tree.specs.declared.expr.SumExpr.{out-SumExpr};
ghost use Rattle.expression_rules.specs.declared.notes.Env.{Env};
ghost use Rattle.expression_rules.specs.Expressions as spec;
ghost use Rattle.check_expr.specs.Reaching as reaching;
ghost use Rattle.check_expr.specs.Steps.{place_or_lost};

use check_rules::{CLEAN, Typing};
use expression_rules::{Place, notes_of};
use pascal_tree::{Access, Expr, Factor, Prefix, SumExpr, Term};
use std::alloc::Global;

fn access_of_factor(factor: &Factor) -> Option<&Access>
    ensures { option_copied result ≡ reaching.access_of_factor (out-Factor factor.now) }
{
    match factor {
        Factor::Access(access) => Some(access),
        _ => None,
    }
}

fn access_of_term(term: &Term) -> Option<&Access>
    ensures { option_copied result ≡ reaching.access_of_term (out-Term term.now).first (out-Term term.now).rest }
{
    match term.rest.as_slice() {
        [] => access_of_factor(&term.first),
        _ => None,
    }
}

fn access_of_sum(sum: &SumExpr) -> Option<&Access>
    ensures { option_copied result ≡ reaching.access_of_sum (out-SumExpr sum.now).prefix (out-SumExpr sum.now).first (out-SumExpr sum.now).rest }
{
    match (sum.prefix, sum.rest.as_slice()) {
        (Prefix::Without, []) => access_of_term(&sum.first),
        _ => None,
    }
}

/// The access that an expression is, where it is one and nothing more: without operators, signs and parentheses.
#[tactic(auto, using(crate::proofs::Sole::expr_sole))]
pub fn access_in(expr: &Expr) -> Option<&Access>
    ensures { (env : Env) → (spec.value_of env expr.now).access ≡ option_map (spec.access_of env) (option_copied result) }
{
    match &expr.rest {
        None => access_of_sum(&expr.first),
        Some(_) => None,
    }
}

/// No place, where an expression is no access. Takes no memory.
pub fn no_place(alloc: Global) -> Place
    ensures { result ≡ place_or_lost None }
{
    Place {
        typing: Typing::Unknown,
        packed: false,
        notes: notes_of(alloc, CLEAN),
    }
}
