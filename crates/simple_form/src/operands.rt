//! Expressions.
ghost use Rattle.std.specs.Prelude.{◌≡◌, ◌≤◌, ◌<◌, length, Some, IfSome};
ghost use Rattle.dice_base.specs.Lexemes.{place_of};
ghost use Rattle.simple_form.specs.Simple as spec;
ghost use Rattle.pascal_semantics.specs.Valid.{IsOperand, IsSum};
ghost use Rattle.pascal_semantics.specs.declared.limits.TheConstants.{GLOBAL_WORDS};

use dice_base::Text;
use pascal_semantics::{Operand, Sum};
use pascal_tree::{Access, AddOp, Expr, Factor, Prefix, SumExpr, Term};

const MAX_INTEGER: u16 = 32_767;

/// The place of a variable among these.
pub fn number_of(variables: &[Text], ident: &[u8]) -> Option<u16>
    requires { length variables.now ≤ 64 }
    ensures value { result ≡ place_of variables.now ident.now }
    ensures within { IfSome result (λ n. n < length variables.now) }
{
    for (number, variable) in variables.iter().enumerate() {
        if variable.bytes() == ident {
            return Some(number as u16);
        }
    }
    None
}

/// The number of the variable that is accessed.
pub fn variable(variables: &[Text], access: &Access) -> Option<u16>
    requires { length variables.now ≤ 64 }
    ensures value { result ≡ spec.variable_of variables.now access.now }
    ensures small { IfSome result (λ n. n < GLOBAL_WORDS) }
{
    if !access.parts.is_empty() {
        return None;
    }
    number_of(variables, access.ident.bytes())
}

fn operand(variables: &[Text], factor: &Factor) -> Option<Operand>
    requires { length variables.now ≤ 64 }
    ensures value { result ≡ spec.operand_of variables.now factor.now }
    ensures within { IfSome result IsOperand }
{
    match factor {
        Factor::Number(number) => {
            if *number <= MAX_INTEGER {
                Some(Operand::Number(*number))
            } else {
                None
            }
        }
        Factor::Access(access) => match variable(variables, access) {
            Some(number) => Some(Operand::Global(number)),
            None => None,
        },
        _ => None,
    }
}

fn term(variables: &[Text], term: &Term) -> Option<Operand>
    requires { length variables.now ≤ 64 }
    ensures value { result ≡ spec.term_of variables.now term.now }
    ensures within { IfSome result IsOperand }
{
    if !term.rest.is_empty() {
        return None;
    }
    operand(variables, &term.first)
}

fn signless(variables: &[Text], sum: &SumExpr) -> Option<Sum>
    requires { length variables.now ≤ 64 }
    ensures value { result ≡ spec.signless_of variables.now sum.now }
    ensures within { IfSome result IsSum }
{
    let Some(first) = term(variables, &sum.first) else {
        return None;
    };
    match sum.rest.as_slice() {
        [] => Some(Sum {
            first,
            second: None,
        }),
        [part] => {
            let AddOp::Plus = part.op else {
                return None;
            };
            let Some(second) = term(variables, &part.right) else {
                return None;
            };
            Some(Sum {
                first,
                second: Some(second),
            })
        }
        _ => None,
    }
}

/// One operand, or two with `+` between.
pub fn sum(variables: &[Text], expr: &Expr) -> Option<Sum>
    requires { length variables.now ≤ 64 }
    ensures value { result ≡ spec.sum_of variables.now expr.now }
    ensures within { IfSome result IsSum }
{
    if expr.rest.is_some() {
        return None;
    }
    match expr.first.prefix {
        Prefix::Without => signless(variables, &expr.first),
        _ => None,
    }
}
