//! Expressions and accesses as tokens.
ghost use Rattle.std.specs.Prelude.{◌≡◌, ◌++◌, ◌∷◌, [], map, OnOk};
ghost use Rattle.pascal_tree.specs.Joined.{flat};
ghost use Rattle.pascal_tree.specs.ExprTokens as spec;

use crate::tokens::{push_ident, push_number, push_sign, push_str, push_word, separate};
use dice_base::{NoMemory, TokenKind, signs, words};
use pascal_tree::{
    Access, AccessPart, AddOp, AddPart, Arg, Expr, Factor, MulOp, MulPart, Prefix, RelOp, RelPart,
    SetMember, SumExpr, Term,
};
use std::alloc::Global;

/// Adds the sign before a sum or a constant, if there is one.
pub fn push_prefix(prefix: Prefix, out: &mut Vec<TokenKind>) -> Result<(), NoMemory>
    ensures { OnOk result (out.new.items ≡ out.old.items ++ spec.prefix_tokens prefix) }
{
    match prefix {
        Prefix::Without => Ok(()),
        Prefix::Plus => push_sign(signs::PLUS, out),
        Prefix::Minus => push_sign(signs::MINUS, out),
    }
}

fn push_relation_op(op: RelOp, out: &mut Vec<TokenKind>) -> Result<(), NoMemory>
    ensures { OnOk result (out.new.items ≡ out.old.items ++ spec.rel_token op ∷ []) }
{
    match op {
        RelOp::Equal => push_sign(signs::EQUAL, out),
        RelOp::NotEqual => push_sign(signs::NOT_EQUAL, out),
        RelOp::Less => push_sign(signs::LESS, out),
        RelOp::Greater => push_sign(signs::GREATER, out),
        RelOp::LessEqual => push_sign(signs::AT_MOST, out),
        RelOp::GreaterEqual => push_sign(signs::AT_LEAST, out),
        RelOp::Member => push_word(words::IN, out),
    }
}

fn push_adding_op(op: AddOp, out: &mut Vec<TokenKind>) -> Result<(), NoMemory>
    ensures { OnOk result (out.new.items ≡ out.old.items ++ spec.add_token op ∷ []) }
{
    match op {
        AddOp::Plus => push_sign(signs::PLUS, out),
        AddOp::Minus => push_sign(signs::MINUS, out),
        AddOp::Or => push_word(words::OR, out),
    }
}

fn push_multiplying_op(op: MulOp, out: &mut Vec<TokenKind>) -> Result<(), NoMemory>
    ensures { OnOk result (out.new.items ≡ out.old.items ++ spec.mul_token op ∷ []) }
{
    match op {
        MulOp::Times => push_sign(signs::TIMES, out),
        MulOp::Div => push_word(words::DIV, out),
        MulOp::Mod => push_word(words::MOD, out),
        MulOp::And => push_word(words::AND, out),
    }
}

/// Adds the tokens of an expression.
#[cycle(push_expr)]
#[tactic(auto, unfolding(pascal_tree::specs::ExprTokens::expr_tokens, pascal_tree::specs::ExprTokens::sum_tokens, pascal_tree::specs::ExprTokens::relation_tokens))]
pub fn push_expr(alloc: Global, expr: &Expr, out: &mut Vec<TokenKind>) -> Result<(), NoMemory>
    ensures { OnOk result (out.new.items ≡ out.old.items ++ spec.expr_tokens expr.now) }
{
    push_sum(alloc, &expr.first, out)?;
    match &expr.rest {
        None => Ok(()),
        Some(part) => push_relation(alloc, part, out),
    }
}

#[cycle(push_expr)]
#[tactic(auto, unfolding(pascal_tree::specs::ExprTokens::relation_tokens, pascal_tree::specs::ExprTokens::sum_tokens))]
fn push_relation(alloc: Global, part: &RelPart, out: &mut Vec<TokenKind>) -> Result<(), NoMemory>
    ensures { OnOk result (out.new.items ≡ out.old.items ++ spec.relation_tokens part.now) }
{
    push_relation_op(part.op, out)?;
    push_sum(alloc, &part.right, out)
}

#[cycle(push_expr)]
#[tactic(auto, unfolding(pascal_tree::specs::ExprTokens::sum_tokens, pascal_tree::specs::ExprTokens::term_tokens, pascal_tree::specs::ExprTokens::adding_tokens))]
fn push_sum(alloc: Global, sum: &SumExpr, out: &mut Vec<TokenKind>) -> Result<(), NoMemory>
    ensures { OnOk result (out.new.items ≡ out.old.items ++ spec.sum_tokens sum.now) }
{
    push_prefix(sum.prefix, out)?;
    push_term(alloc, &sum.first, out)?;
    push_adding_parts(alloc, sum.rest.as_slice(), out)
}

#[cycle(push_expr)]
fn push_adding_parts(
    alloc: Global,
    parts: &[AddPart],
    out: &mut Vec<TokenKind>,
) -> Result<(), NoMemory>
    ensures { OnOk result (out.new.items ≡ out.old.items ++ flat (map spec.adding_tokens parts.now)) }
{
    for part in parts {
        push_adding(alloc, part, out)?;
    }
    Ok(())
}

#[cycle(push_expr)]
#[tactic(auto, unfolding(pascal_tree::specs::ExprTokens::adding_tokens, pascal_tree::specs::ExprTokens::term_tokens))]
fn push_adding(alloc: Global, part: &AddPart, out: &mut Vec<TokenKind>) -> Result<(), NoMemory>
    ensures { OnOk result (out.new.items ≡ out.old.items ++ spec.adding_tokens part.now) }
{
    push_adding_op(part.op, out)?;
    push_term(alloc, &part.right, out)
}

#[cycle(push_expr)]
#[tactic(auto, unfolding(pascal_tree::specs::ExprTokens::term_tokens, pascal_tree::specs::ExprTokens::factor_tokens, pascal_tree::specs::ExprTokens::multiplying_tokens))]
fn push_term(alloc: Global, term: &Term, out: &mut Vec<TokenKind>) -> Result<(), NoMemory>
    ensures { OnOk result (out.new.items ≡ out.old.items ++ spec.term_tokens term.now) }
{
    push_factor(alloc, &term.first, out)?;
    push_multiplying_parts(alloc, term.rest.as_slice(), out)
}

#[cycle(push_expr)]
fn push_multiplying_parts(
    alloc: Global,
    parts: &[MulPart],
    out: &mut Vec<TokenKind>,
) -> Result<(), NoMemory>
    ensures { OnOk result (out.new.items ≡ out.old.items ++ flat (map spec.multiplying_tokens parts.now)) }
{
    for part in parts {
        push_multiplying(alloc, part, out)?;
    }
    Ok(())
}

#[cycle(push_expr)]
#[tactic(auto, unfolding(pascal_tree::specs::ExprTokens::multiplying_tokens, pascal_tree::specs::ExprTokens::factor_tokens))]
fn push_multiplying(alloc: Global, part: &MulPart, out: &mut Vec<TokenKind>) -> Result<(), NoMemory>
    ensures { OnOk result (out.new.items ≡ out.old.items ++ spec.multiplying_tokens part.now) }
{
    push_multiplying_op(part.op, out)?;
    push_factor(alloc, &part.right, out)
}

#[cycle(push_expr)]
#[tactic(auto, unfolding(pascal_tree::specs::ExprTokens::factor_tokens, pascal_tree::specs::ExprTokens::access_tokens, pascal_tree::specs::ExprTokens::args_tokens, pascal_tree::specs::ExprTokens::arg_tokens, pascal_tree::specs::ExprTokens::member_tokens, pascal_tree::specs::ExprTokens::expr_tokens))]
fn push_factor(alloc: Global, factor: &Factor, out: &mut Vec<TokenKind>) -> Result<(), NoMemory>
    ensures { OnOk result (out.new.items ≡ out.old.items ++ spec.factor_tokens factor.now) }
{
    match factor {
        Factor::Number(number) => push_number(*number, out),
        Factor::Str(text) => push_str(alloc, text, out),
        Factor::Nil => push_word(words::NIL, out),
        Factor::Access(access) => push_access(alloc, access, out),
        Factor::Call(ident, args) => {
            push_ident(alloc, ident, out)?;
            push_args(alloc, args.as_slice(), out)
        }
        Factor::Members(members) => {
            push_sign(signs::LEFT, out)?;
            push_members(alloc, members.as_slice(), out)?;
            push_sign(signs::RIGHT, out)
        }
        Factor::Paren(expr) => {
            push_sign(signs::OPEN, out)?;
            push_expr(alloc, expr.get(), out)?;
            push_sign(signs::CLOSE, out)
        }
        Factor::Not(factor) => {
            push_word(words::NOT, out)?;
            push_factor(alloc, factor.get(), out)
        }
    }
}

#[cycle(push_expr)]
#[tactic(auto, using(crate::proofs::Rest::still_step, crate::proofs::Rest::still_end))]
fn push_members(
    alloc: Global,
    members: &[SetMember],
    out: &mut Vec<TokenKind>,
) -> Result<(), NoMemory>
    ensures { OnOk result (out.new.items ≡ out.old.items ++ spec.comma_list (map spec.member_tokens members.now)) }
{
    let mut first = true;
    for member in members {
        separate(signs::COMMA, first, out)?;
        push_member(alloc, member, out)?;
        first = false;
    }
    Ok(())
}

#[cycle(push_expr)]
#[tactic(auto, unfolding(pascal_tree::specs::ExprTokens::member_tokens, pascal_tree::specs::ExprTokens::expr_tokens))]
fn push_member(alloc: Global, member: &SetMember, out: &mut Vec<TokenKind>) -> Result<(), NoMemory>
    ensures { OnOk result (out.new.items ≡ out.old.items ++ spec.member_tokens member.now) }
{
    push_expr(alloc, &member.first, out)?;
    match &member.last {
        None => Ok(()),
        Some(last) => {
            push_sign(signs::RANGE, out)?;
            push_expr(alloc, last, out)
        }
    }
}

/// Adds the tokens of an argument list: none where there is no argument.
#[cycle(push_expr)]
#[tactic(auto, unfolding(pascal_tree::specs::ExprTokens::args_tokens))]
pub fn push_args(alloc: Global, args: &[Arg], out: &mut Vec<TokenKind>) -> Result<(), NoMemory>
    ensures { OnOk result (out.new.items ≡ out.old.items ++ spec.args_tokens args.now) }
{
    if args.is_empty() {
        return Ok(());
    }
    push_sign(signs::OPEN, out)?;
    push_arg_list(alloc, args, out)?;
    push_sign(signs::CLOSE, out)
}

#[cycle(push_expr)]
#[tactic(auto, using(crate::proofs::Rest::still_step, crate::proofs::Rest::still_end))]
fn push_arg_list(alloc: Global, args: &[Arg], out: &mut Vec<TokenKind>) -> Result<(), NoMemory>
    ensures { OnOk result (out.new.items ≡ out.old.items ++ spec.comma_list (map spec.arg_tokens args.now)) }
{
    let mut first = true;
    for arg in args {
        separate(signs::COMMA, first, out)?;
        push_arg(alloc, arg, out)?;
        first = false;
    }
    Ok(())
}

#[cycle(push_expr)]
#[tactic(auto, unfolding(pascal_tree::specs::ExprTokens::arg_tokens, pascal_tree::specs::ExprTokens::expr_tokens))]
fn push_arg(alloc: Global, arg: &Arg, out: &mut Vec<TokenKind>) -> Result<(), NoMemory>
    ensures { OnOk result (out.new.items ≡ out.old.items ++ spec.arg_tokens arg.now) }
{
    push_expr(alloc, &arg.value, out)?;
    match &arg.width {
        None => Ok(()),
        Some(width) => {
            push_sign(signs::COLON, out)?;
            push_expr(alloc, width, out)
        }
    }
}

/// Adds the tokens of an access.
#[cycle(push_expr)]
#[tactic(auto, unfolding(pascal_tree::specs::ExprTokens::access_tokens, pascal_tree::specs::ExprTokens::part_tokens))]
pub fn push_access(alloc: Global, access: &Access, out: &mut Vec<TokenKind>) -> Result<(), NoMemory>
    ensures { OnOk result (out.new.items ≡ out.old.items ++ spec.access_tokens access.now) }
{
    push_ident(alloc, &access.ident, out)?;
    push_access_parts(alloc, access.parts.as_slice(), out)
}

#[cycle(push_expr)]
fn push_access_parts(
    alloc: Global,
    parts: &[AccessPart],
    out: &mut Vec<TokenKind>,
) -> Result<(), NoMemory>
    ensures { OnOk result (out.new.items ≡ out.old.items ++ flat (map spec.part_tokens parts.now)) }
{
    for part in parts {
        push_access_part(alloc, part, out)?;
    }
    Ok(())
}

#[cycle(push_expr)]
#[tactic(auto, unfolding(pascal_tree::specs::ExprTokens::part_tokens, pascal_tree::specs::ExprTokens::expr_tokens))]
fn push_access_part(
    alloc: Global,
    part: &AccessPart,
    out: &mut Vec<TokenKind>,
) -> Result<(), NoMemory>
    ensures { OnOk result (out.new.items ≡ out.old.items ++ spec.part_tokens part.now) }
{
    match part {
        AccessPart::Index(exprs) => {
            push_sign(signs::LEFT, out)?;
            push_exprs(alloc, exprs.as_slice(), out)?;
            push_sign(signs::RIGHT, out)
        }
        AccessPart::Field(ident) => {
            push_sign(signs::PERIOD, out)?;
            push_ident(alloc, ident, out)
        }
        AccessPart::Dereference => push_sign(signs::ARROW, out),
    }
}

#[cycle(push_expr)]
#[tactic(auto, using(crate::proofs::Rest::still_step, crate::proofs::Rest::still_end))]
fn push_exprs(alloc: Global, exprs: &[Expr], out: &mut Vec<TokenKind>) -> Result<(), NoMemory>
    ensures { OnOk result (out.new.items ≡ out.old.items ++ spec.comma_list (map spec.expr_tokens exprs.now)) }
{
    let mut first = true;
    for expr in exprs {
        separate(signs::COMMA, first, out)?;
        push_expr(alloc, expr, out)?;
        first = false;
    }
    Ok(())
}

/// Adds the tokens of accesses, with commas between.
#[tactic(auto, using(crate::proofs::Rest::still_step, crate::proofs::Rest::still_end), unfolding(pascal_tree::specs::ExprTokens::accesses_tokens))]
pub fn push_accesses(
    alloc: Global,
    accesses: &[Access],
    out: &mut Vec<TokenKind>,
) -> Result<(), NoMemory>
    ensures { OnOk result (out.new.items ≡ out.old.items ++ spec.accesses_tokens accesses.now) }
{
    let mut first = true;
    for access in accesses {
        separate(signs::COMMA, first, out)?;
        push_access(alloc, access, out)?;
        first = false;
    }
    Ok(())
}
