//! Exact copies of expressions.
//!
//! Lists are copied before large values, so that no step that may fail has a large value to let go of.
ghost use Rattle.std.specs.Prelude.{◌≡◌, IfOk};

use crate::{
    Access, AccessPart, AddPart, Arg, Expr, Factor, MulPart, RelPart, SetMember, SumExpr, Term,
};
use dice_base::NoMemory;
use sqlite_items::{Boxed, Items};
use std::alloc::Global;

/// A copy of an expression.
#[cycle(copy_expr)]
pub fn copy_expr(alloc: Global, expr: &Expr) -> Result<Expr, NoMemory>
    ensures { IfOk result (λ x. x ≡ expr.now) }
{
    let first = copy_sum(alloc, &expr.first)?;
    match &expr.rest {
        None => Ok(Expr { first, rest: None }),
        Some(rel) => {
            let rel = copy_rel(alloc, rel)?;
            Ok(Expr {
                first,
                rest: Some(rel),
            })
        }
    }
}

#[cycle(copy_expr)]
fn copy_rel(alloc: Global, rel: &RelPart) -> Result<RelPart, NoMemory>
    ensures { IfOk result (λ x. x ≡ rel.now) }
{
    let right = copy_sum(alloc, &rel.right)?;
    Ok(RelPart { op: rel.op, right })
}

#[cycle(copy_expr)]
fn copy_sum(alloc: Global, sum: &SumExpr) -> Result<SumExpr, NoMemory>
    ensures { IfOk result (λ x. x ≡ sum.now) }
{
    let rest = copy_add_parts(alloc, sum.rest.as_slice())?;
    let first = copy_term(alloc, &sum.first)?;
    Ok(SumExpr {
        prefix: sum.prefix,
        first,
        rest,
    })
}

#[cycle(copy_expr)]
fn copy_add_parts(alloc: Global, parts: &[AddPart]) -> Result<Items<AddPart>, NoMemory>
    ensures { IfOk result (λ all. all ≡ parts.now) }
{
    let mut all = Items::new(alloc);
    for part in parts {
        all.push(copy_add_part(alloc, part)?)?;
    }
    Ok(all)
}

#[cycle(copy_expr)]
fn copy_add_part(alloc: Global, part: &AddPart) -> Result<AddPart, NoMemory>
    ensures { IfOk result (λ x. x ≡ part.now) }
{
    let right = copy_term(alloc, &part.right)?;
    Ok(AddPart { op: part.op, right })
}

#[cycle(copy_expr)]
fn copy_term(alloc: Global, term: &Term) -> Result<Term, NoMemory>
    ensures { IfOk result (λ x. x ≡ term.now) }
{
    let rest = copy_mul_parts(alloc, term.rest.as_slice())?;
    let first = copy_factor(alloc, &term.first)?;
    Ok(Term { first, rest })
}

#[cycle(copy_expr)]
fn copy_mul_parts(alloc: Global, parts: &[MulPart]) -> Result<Items<MulPart>, NoMemory>
    ensures { IfOk result (λ all. all ≡ parts.now) }
{
    let mut all = Items::new(alloc);
    for part in parts {
        all.push(copy_mul_part(alloc, part)?)?;
    }
    Ok(all)
}

#[cycle(copy_expr)]
fn copy_mul_part(alloc: Global, part: &MulPart) -> Result<MulPart, NoMemory>
    ensures { IfOk result (λ x. x ≡ part.now) }
{
    let right = copy_factor(alloc, &part.right)?;
    Ok(MulPart { op: part.op, right })
}

#[cycle(copy_expr)]
fn copy_factor(alloc: Global, factor: &Factor) -> Result<Factor, NoMemory>
    ensures { IfOk result (λ x. x ≡ factor.now) }
{
    match factor {
        Factor::Number(n) => Ok(Factor::Number(*n)),
        Factor::Str(text) => {
            let text = text.copy(alloc)?;
            Ok(Factor::Str(text))
        }
        Factor::Nil => Ok(Factor::Nil),
        Factor::Access(access) => {
            let access = copy_access(alloc, access)?;
            Ok(Factor::Access(access))
        }
        Factor::Call(ident, args) => {
            let ident = ident.copy(alloc)?;
            let args = copy_args(alloc, args.as_slice())?;
            Ok(Factor::Call(ident, args))
        }
        Factor::Members(members) => {
            let members = copy_members(alloc, members.as_slice())?;
            Ok(Factor::Members(members))
        }
        Factor::Paren(expr) => {
            let expr = copy_expr(alloc, expr.get())?;
            let expr = Boxed::new(alloc, expr)?;
            Ok(Factor::Paren(expr))
        }
        Factor::Not(operand) => {
            let operand = copy_factor(alloc, operand.get())?;
            let operand = Boxed::new(alloc, operand)?;
            Ok(Factor::Not(operand))
        }
    }
}

#[cycle(copy_expr)]
fn copy_members(alloc: Global, members: &[SetMember]) -> Result<Items<SetMember>, NoMemory>
    ensures { IfOk result (λ all. all ≡ members.now) }
{
    let mut all = Items::new(alloc);
    for member in members {
        all.push(copy_member(alloc, member)?)?;
    }
    Ok(all)
}

#[cycle(copy_expr)]
fn copy_member(alloc: Global, member: &SetMember) -> Result<SetMember, NoMemory>
    ensures { IfOk result (λ x. x ≡ member.now) }
{
    let first = copy_expr(alloc, &member.first)?;
    match &member.last {
        None => Ok(SetMember { first, last: None }),
        Some(last) => {
            let last = copy_expr(alloc, last)?;
            Ok(SetMember {
                first,
                last: Some(last),
            })
        }
    }
}

/// A copy of a list of arguments.
#[cycle(copy_expr)]
pub fn copy_args(alloc: Global, args: &[Arg]) -> Result<Items<Arg>, NoMemory>
    ensures { IfOk result (λ all. all ≡ args.now) }
{
    let mut all = Items::new(alloc);
    for arg in args {
        all.push(copy_arg(alloc, arg)?)?;
    }
    Ok(all)
}

/// A copy of an argument.
#[cycle(copy_expr)]
pub fn copy_arg(alloc: Global, arg: &Arg) -> Result<Arg, NoMemory>
    ensures { IfOk result (λ x. x ≡ arg.now) }
{
    let value = copy_expr(alloc, &arg.value)?;
    match &arg.width {
        None => Ok(Arg { value, width: None }),
        Some(width) => {
            let width = copy_expr(alloc, width)?;
            Ok(Arg {
                value,
                width: Some(width),
            })
        }
    }
}

/// A copy of an access.
#[cycle(copy_expr)]
pub fn copy_access(alloc: Global, access: &Access) -> Result<Access, NoMemory>
    ensures { IfOk result (λ x. x ≡ access.now) }
{
    let ident = access.ident.copy(alloc)?;
    let parts = copy_access_parts(alloc, access.parts.as_slice())?;
    Ok(Access { ident, parts })
}

#[cycle(copy_expr)]
fn copy_access_parts(alloc: Global, parts: &[AccessPart]) -> Result<Items<AccessPart>, NoMemory>
    ensures { IfOk result (λ all. all ≡ parts.now) }
{
    let mut all = Items::new(alloc);
    for part in parts {
        all.push(copy_access_part(alloc, part)?)?;
    }
    Ok(all)
}

#[cycle(copy_expr)]
fn copy_access_part(alloc: Global, part: &AccessPart) -> Result<AccessPart, NoMemory>
    ensures { IfOk result (λ x. x ≡ part.now) }
{
    match part {
        AccessPart::Index(exprs) => {
            let exprs = copy_exprs(alloc, exprs.as_slice())?;
            Ok(AccessPart::Index(exprs))
        }
        AccessPart::Field(ident) => {
            let ident = ident.copy(alloc)?;
            Ok(AccessPart::Field(ident))
        }
        AccessPart::Dereference => Ok(AccessPart::Dereference),
    }
}

#[cycle(copy_expr)]
fn copy_exprs(alloc: Global, exprs: &[Expr]) -> Result<Items<Expr>, NoMemory>
    ensures { IfOk result (λ all. all ≡ exprs.now) }
{
    let mut all = Items::new(alloc);
    for expr in exprs {
        all.push(copy_expr(alloc, expr)?)?;
    }
    Ok(all)
}

/// A copy of a list of accesses.
pub fn copy_accesses(alloc: Global, accesses: &[Access]) -> Result<Items<Access>, NoMemory>
    ensures { IfOk result (λ all. all ≡ accesses.now) }
{
    let mut all = Items::new(alloc);
    for access in accesses {
        all.push(copy_access(alloc, access)?)?;
    }
    Ok(all)
}
