//! How many levels a tree takes.
ghost use Rattle.std.specs.Prelude.{◌≡◌, ◌+◌, max, map, IfOk};
ghost use Rattle.pascal_tree.specs.Depth as spec;

use dice_base::{NoMemory, one_more};
use pascal_tree::{
    Access, AccessPart, AddPart, Arg, Expr, Factor, MulPart, SetMember, SumExpr, Term,
};

#[cycle(expr_depth)]
#[tactic(auto, unfolding(pascal_tree::specs::Depth::expr_depth, pascal_tree::specs::Depth::rel_part_depth, pascal_tree::specs::Depth::sum_depth))]
pub fn expr_depth(expr: &Expr) -> Result<u32, NoMemory>
    ensures { IfOk result (λ n. n ≡ spec.expr_depth expr.now) }
{
    let first = sum_depth(&expr.first)?;
    match &expr.rest {
        None => Ok(first),
        Some(rel) => {
            let right = sum_depth(&rel.right)?;
            Ok(first.max(right))
        }
    }
}

#[cycle(expr_depth)]
#[tactic(auto, unfolding(pascal_tree::specs::Depth::sum_depth, pascal_tree::specs::Depth::add_part_depth, pascal_tree::specs::Depth::term_depth))]
fn sum_depth(sum: &SumExpr) -> Result<u32, NoMemory>
    ensures { IfOk result (λ n. n ≡ spec.sum_depth sum.now) }
{
    let first = term_depth(&sum.first)?;
    let rest = add_parts_depth(sum.rest.as_slice())?;
    Ok(first.max(rest))
}

#[cycle(expr_depth)]
fn add_parts_depth(parts: &[AddPart]) -> Result<u32, NoMemory>
    ensures { IfOk result (λ n. n ≡ spec.most (map spec.add_part_depth parts.now)) }
{
    let mut most = 0;
    for part in parts {
        let levels = add_part_depth(part)?;
        most = most.max(levels);
    }
    Ok(most)
}

#[cycle(expr_depth)]
#[tactic(auto, unfolding(pascal_tree::specs::Depth::add_part_depth, pascal_tree::specs::Depth::term_depth))]
fn add_part_depth(part: &AddPart) -> Result<u32, NoMemory>
    ensures { IfOk result (λ n. n ≡ spec.add_part_depth part.now) }
{
    term_depth(&part.right)
}

#[cycle(expr_depth)]
#[tactic(auto, unfolding(pascal_tree::specs::Depth::term_depth, pascal_tree::specs::Depth::mul_part_depth, pascal_tree::specs::Depth::factor_depth))]
fn term_depth(term: &Term) -> Result<u32, NoMemory>
    ensures { IfOk result (λ n. n ≡ spec.term_depth term.now) }
{
    let first = factor_depth(&term.first)?;
    let rest = mul_parts_depth(term.rest.as_slice())?;
    Ok(first.max(rest))
}

#[cycle(expr_depth)]
fn mul_parts_depth(parts: &[MulPart]) -> Result<u32, NoMemory>
    ensures { IfOk result (λ n. n ≡ spec.most (map spec.mul_part_depth parts.now)) }
{
    let mut most = 0;
    for part in parts {
        let levels = mul_part_depth(part)?;
        most = most.max(levels);
    }
    Ok(most)
}

#[cycle(expr_depth)]
#[tactic(auto, unfolding(pascal_tree::specs::Depth::mul_part_depth, pascal_tree::specs::Depth::factor_depth))]
fn mul_part_depth(part: &MulPart) -> Result<u32, NoMemory>
    ensures { IfOk result (λ n. n ≡ spec.mul_part_depth part.now) }
{
    factor_depth(&part.right)
}

#[cycle(expr_depth)]
#[tactic(auto, unfolding(pascal_tree::specs::Depth::factor_depth, pascal_tree::specs::Depth::expr_depth, pascal_tree::specs::Depth::access_depth, pascal_tree::specs::Depth::arg_depth, pascal_tree::specs::Depth::member_depth))]
fn factor_depth(factor: &Factor) -> Result<u32, NoMemory>
    ensures { IfOk result (λ n. n ≡ spec.factor_depth factor.now) }
{
    match factor {
        Factor::Number(_) => Ok(1),
        Factor::Str(_) => Ok(1),
        Factor::Nil => Ok(1),
        Factor::Access(access) => access_depth(access),
        Factor::Call(_, args) => {
            let inner = args_depth(args.as_slice())?;
            one_more(inner)
        }
        Factor::Members(members) => {
            let inner = members_depth(members.as_slice())?;
            one_more(inner)
        }
        Factor::Paren(expr) => {
            let inner = expr_depth(expr.get())?;
            one_more(inner)
        }
        Factor::Not(operand) => {
            let inner = factor_depth(operand.get())?;
            one_more(inner)
        }
    }
}

#[cycle(expr_depth)]
fn members_depth(members: &[SetMember]) -> Result<u32, NoMemory>
    ensures { IfOk result (λ n. n ≡ spec.most (map spec.member_depth members.now)) }
{
    let mut most = 0;
    for member in members {
        let levels = member_depth(member)?;
        most = most.max(levels);
    }
    Ok(most)
}

#[cycle(expr_depth)]
#[tactic(auto, unfolding(pascal_tree::specs::Depth::member_depth, pascal_tree::specs::Depth::expr_depth))]
fn member_depth(member: &SetMember) -> Result<u32, NoMemory>
    ensures { IfOk result (λ n. n ≡ spec.member_depth member.now) }
{
    let first = expr_depth(&member.first)?;
    match &member.last {
        None => Ok(first),
        Some(last) => {
            let last = expr_depth(last)?;
            Ok(first.max(last))
        }
    }
}

/// The levels that arguments take.
#[cycle(expr_depth)]
pub fn args_depth(args: &[Arg]) -> Result<u32, NoMemory>
    ensures { IfOk result (λ n. n ≡ spec.most (map spec.arg_depth args.now)) }
{
    let mut most = 0;
    for arg in args {
        let levels = arg_depth(arg)?;
        most = most.max(levels);
    }
    Ok(most)
}

#[cycle(expr_depth)]
#[tactic(auto, unfolding(pascal_tree::specs::Depth::arg_depth, pascal_tree::specs::Depth::expr_depth))]
fn arg_depth(arg: &Arg) -> Result<u32, NoMemory>
    ensures { IfOk result (λ n. n ≡ spec.arg_depth arg.now) }
{
    let value = expr_depth(&arg.value)?;
    match &arg.width {
        None => Ok(value),
        Some(width) => {
            let width = expr_depth(width)?;
            Ok(value.max(width))
        }
    }
}

#[cycle(expr_depth)]
#[tactic(auto, unfolding(pascal_tree::specs::Depth::access_depth, pascal_tree::specs::Depth::access_part_depth))]
pub fn access_depth(access: &Access) -> Result<u32, NoMemory>
    ensures { IfOk result (λ n. n ≡ spec.access_depth access.now) }
{
    let inner = access_parts_depth(access.parts.as_slice())?;
    one_more(inner)
}

#[cycle(expr_depth)]
fn access_parts_depth(parts: &[AccessPart]) -> Result<u32, NoMemory>
    ensures { IfOk result (λ n. n ≡ spec.most (map spec.access_part_depth parts.now)) }
{
    let mut most = 0;
    for part in parts {
        let levels = access_part_depth(part)?;
        most = most.max(levels);
    }
    Ok(most)
}

#[cycle(expr_depth)]
#[tactic(auto, unfolding(pascal_tree::specs::Depth::access_part_depth, pascal_tree::specs::Depth::expr_depth))]
fn access_part_depth(part: &AccessPart) -> Result<u32, NoMemory>
    ensures { IfOk result (λ n. n ≡ spec.access_part_depth part.now) }
{
    match part {
        AccessPart::Index(exprs) => exprs_depth(exprs.as_slice()),
        AccessPart::Field(_) => Ok(0),
        AccessPart::Dereference => Ok(0),
    }
}

#[cycle(expr_depth)]
fn exprs_depth(exprs: &[Expr]) -> Result<u32, NoMemory>
    ensures { IfOk result (λ n. n ≡ spec.most (map spec.expr_depth exprs.now)) }
{
    let mut most = 0;
    for expr in exprs {
        let levels = expr_depth(expr)?;
        most = most.max(levels);
    }
    Ok(most)
}
