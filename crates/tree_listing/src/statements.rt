//! Statements as events.
ghost use Rattle.std.specs.Prelude.{◌≡◌, ◌<◌, ◌+◌, ◌^◌, ◌++◌, [], ◌∷◌, map, OkIff, OnOk};
ghost use Rattle.dice_base.specs.declared.token.TokenKind.TheVariants as token;
ghost use Rattle.tree_listing.specs.Events as spec;
ghost use Rattle.tree_listing.specs.Events.{said, child};
ghost use Rattle.dice_base.specs.Symbols.{becomes_sign, do_word, else_word, goto_word, if_word, then_word, until_word, with_word, colon_sign};
ghost use Rattle.pascal_tree.specs.ExprTokens.{expr_tokens, access_tokens, accesses_tokens, args_tokens};
ghost use Rattle.pascal_tree.specs.DeclTokens.{constants_tokens};

use crate::event::Event;
use crate::events::Events;
use dice_base::{NoMemory, Text, TokenKind, signs, words};
use pascal_tree::{Access, Arg, Arm, Constant, Expr, Stmt, StmtKind};
use std::alloc::Global;
use tree_text::{push_access, push_accesses, push_args, push_constants, push_expr};

/// The level of what stands in an item of this level, where that has a number. Else the tree is refused as if there were
/// no memory.
pub fn deeper(level: usize) -> Result<usize, NoMemory>
    ensures { OkIff result (level + 1 < 2 ^ 64) (level + 1) }
{
    level.checked_add(1).ok_or(NoMemory)
}

fn push_label(label: Option<u16>, out: &mut Events) -> Result<(), NoMemory>
    ensures { OnOk result (out.new ≡ out.old ++ said (spec.label_tokens label)) }
{
    match label {
        None => Ok(()),
        Some(n) => {
            out.push_token(TokenKind::Number(n))?;
            out.push_token(TokenKind::Sign(signs::COLON))
        }
    }
}

// A word, an expression and a word behind it.
fn push_tested(
    alloc: Global,
    word: u8,
    test: &Expr,
    last: u8,
    out: &mut Events,
) -> Result<(), NoMemory>
    ensures { OnOk result (out.new ≡ out.old ++ spec.tested (token.Word word) test.now (token.Word last)) }
{
    let mut tokens = Vec::new(alloc);
    tokens.push(TokenKind::Word(word))?;
    push_expr(alloc, test, &mut tokens)?;
    tokens.push(TokenKind::Word(last))?;
    out.push_tokens(tokens)
}

fn push_until(alloc: Global, test: &Expr, out: &mut Events) -> Result<(), NoMemory>
    ensures { OnOk result (out.new ≡ out.old ++ said (until_word ∷ expr_tokens test.now)) }
{
    let mut tokens = Vec::new(alloc);
    tokens.push(TokenKind::Word(words::UNTIL))?;
    push_expr(alloc, test, &mut tokens)?;
    out.push_tokens(tokens)
}

fn push_assign(
    alloc: Global,
    access: &Access,
    value: &Expr,
    out: &mut Events,
) -> Result<(), NoMemory>
    ensures { OnOk result (out.new ≡ out.old ++ said (access_tokens access.now ++ becomes_sign ∷ expr_tokens value.now)) }
{
    let mut tokens = Vec::new(alloc);
    push_access(alloc, access, &mut tokens)?;
    tokens.push(TokenKind::Sign(signs::BECOMES))?;
    push_expr(alloc, value, &mut tokens)?;
    out.push_tokens(tokens)
}

fn push_call(alloc: Global, ident: &Text, args: &[Arg], out: &mut Events) -> Result<(), NoMemory>
    ensures { OnOk result (out.new ≡ out.old ++ said (token.Ident ident.now ∷ args_tokens args.now)) }
{
    let mut tokens = Vec::new(alloc);
    tokens.push(TokenKind::Ident(ident.copy(alloc)?))?;
    push_args(alloc, args, &mut tokens)?;
    out.push_tokens(tokens)
}

fn push_goto(label: u16, out: &mut Events) -> Result<(), NoMemory>
    ensures { OnOk result (out.new ≡ out.old ++ said (goto_word ∷ token.Number label ∷ [])) }
{
    out.push_token(TokenKind::Word(words::GOTO))?;
    out.push_token(TokenKind::Number(label))
}

// What a `for` statement has before its body.
fn push_range(
    alloc: Global,
    ident: &Text,
    first: &Expr,
    down: bool,
    last: &Expr,
    out: &mut Events,
) -> Result<(), NoMemory>
    ensures { OnOk result (out.new ≡ out.old ++ said (spec.range ident.now first.now down last.now)) }
{
    let mut tokens = Vec::new(alloc);
    tokens.push(TokenKind::Word(words::FOR))?;
    tokens.push(TokenKind::Ident(ident.copy(alloc)?))?;
    tokens.push(TokenKind::Sign(signs::BECOMES))?;
    push_expr(alloc, first, &mut tokens)?;
    tokens.push(TokenKind::Word(if down { words::DOWNTO } else { words::TO }))?;
    push_expr(alloc, last, &mut tokens)?;
    tokens.push(TokenKind::Word(words::DO))?;
    out.push_tokens(tokens)
}

fn push_records(alloc: Global, records: &[Access], out: &mut Events) -> Result<(), NoMemory>
    ensures { OnOk result (out.new ≡ out.old ++ said (with_word ∷ accesses_tokens records.now ++ do_word ∷ [])) }
{
    let mut tokens = Vec::new(alloc);
    tokens.push(TokenKind::Word(words::WITH))?;
    push_accesses(alloc, records, &mut tokens)?;
    tokens.push(TokenKind::Word(words::DO))?;
    out.push_tokens(tokens)
}

fn push_selectors(alloc: Global, constants: &[Constant], out: &mut Events) -> Result<(), NoMemory>
    ensures { OnOk result (out.new ≡ out.old ++ said (constants_tokens constants.now ++ colon_sign ∷ [])) }
{
    let mut tokens = Vec::new(alloc);
    push_constants(alloc, constants, &mut tokens)?;
    tokens.push(TokenKind::Sign(signs::COLON))?;
    out.push_tokens(tokens)
}

#[cycle(push_stmt)]
fn push_child(alloc: Global, stmt: &Stmt, level: usize, out: &mut Events) -> Result<(), NoMemory>
    ensures { OnOk result (out.new ≡ out.old ++ child (spec.stmt_events stmt.now) level) }
{
    let inner = deeper(level)?;
    push_stmt(alloc, stmt, inner, out)?;
    out.push(Event::Back(level))
}

#[cycle(push_stmt)]
fn push_sequence(
    alloc: Global,
    stmts: &[Stmt],
    level: usize,
    out: &mut Events,
) -> Result<(), NoMemory>
    ensures { OnOk result (out.new ≡ out.old ++ spec.sequence (map child (map spec.stmt_events stmts.now)) level) }
{
    match stmts {
        [] => Ok(()),
        [first, rest @ ..] => {
            push_child(alloc, first, level, out)?;
            for stmt in rest {
                out.push_token(TokenKind::Sign(signs::SEMICOLON))?;
                push_child(alloc, stmt, level, out)?;
            }
            Ok(())
        }
    }
}

#[cycle(push_stmt)]
#[tactic(auto, unfolding(crate::specs::Events::stmt_events, crate::specs::Events::kind_events, crate::specs::Events::arm_events))]
fn push_arm(alloc: Global, arm: &Arm, level: usize, out: &mut Events) -> Result<(), NoMemory>
    ensures { OnOk result (out.new ≡ out.old ++ spec.arm_events arm.now level) }
{
    push_selectors(alloc, arm.constants.as_slice(), out)?;
    push_child(alloc, &arm.body, level, out)
}

#[cycle(push_stmt)]
fn push_arms(alloc: Global, arms: &[Arm], level: usize, out: &mut Events) -> Result<(), NoMemory>
    ensures { OnOk result (out.new ≡ out.old ++ spec.sequence (map spec.arm_events arms.now) level) }
{
    match arms {
        [] => Ok(()),
        [first, rest @ ..] => {
            push_arm(alloc, first, level, out)?;
            for arm in rest {
                out.push_token(TokenKind::Sign(signs::SEMICOLON))?;
                push_arm(alloc, arm, level, out)?;
            }
            Ok(())
        }
    }
}

#[cycle(push_stmt)]
#[tactic(auto, unfolding(crate::specs::Events::stmt_events, crate::specs::Events::kind_events, crate::specs::Events::arm_events))]
fn push_compound(
    alloc: Global,
    stmts: &[Stmt],
    level: usize,
    out: &mut Events,
) -> Result<(), NoMemory>
    ensures { OnOk result (out.new ≡ out.old ++ spec.kind_events (StmtKind.Compound stmts.now) level) }
{
    out.push_token(TokenKind::Word(words::BEGIN))?;
    push_sequence(alloc, stmts, level, out)?;
    out.push_token(TokenKind::Word(words::END))
}

#[cycle(push_stmt)]
fn push_then(
    alloc: Global,
    yes: &Stmt,
    test: &Expr,
    level: usize,
    out: &mut Events,
) -> Result<(), NoMemory>
    ensures { OnOk result (out.new ≡ out.old ++ (spec.tested if_word test.now then_word ++ child (spec.stmt_events yes.now) level)) }
{
    push_tested(alloc, words::IF, test, words::THEN, out)?;
    push_child(alloc, yes, level, out)
}

#[cycle(push_stmt)]
fn push_else(alloc: Global, no: &Stmt, level: usize, out: &mut Events) -> Result<(), NoMemory>
    ensures { OnOk result (out.new ≡ out.old ++ Event.Token else_word ∷ child (spec.stmt_events no.now) level) }
{
    out.push_token(TokenKind::Word(words::ELSE))?;
    push_child(alloc, no, level, out)
}

#[cycle(push_stmt)]
#[tactic(auto, unfolding(crate::specs::Events::stmt_events, crate::specs::Events::kind_events, crate::specs::Events::arm_events))]
fn push_case(
    alloc: Global,
    arms: &[Arm],
    selector: &Expr,
    level: usize,
    out: &mut Events,
) -> Result<(), NoMemory>
    ensures { OnOk result (out.new ≡ out.old ++ spec.kind_events (StmtKind.Case selector.now arms.now) level) }
{
    push_tested(alloc, words::CASE, selector, words::OF, out)?;
    push_arms(alloc, arms, level, out)?;
    out.push_token(TokenKind::Word(words::END))
}

#[cycle(push_stmt)]
#[tactic(auto, unfolding(crate::specs::Events::stmt_events, crate::specs::Events::kind_events, crate::specs::Events::arm_events))]
fn push_while(
    alloc: Global,
    body: &Stmt,
    test: &Expr,
    level: usize,
    out: &mut Events,
) -> Result<(), NoMemory>
    ensures { OnOk result (out.new ≡ out.old ++ spec.kind_events (StmtKind.While test.now body.now) level) }
{
    push_tested(alloc, words::WHILE, test, words::DO, out)?;
    push_child(alloc, body, level, out)
}

#[cycle(push_stmt)]
#[tactic(auto, unfolding(crate::specs::Events::stmt_events, crate::specs::Events::kind_events, crate::specs::Events::arm_events))]
fn push_repeat(
    alloc: Global,
    stmts: &[Stmt],
    test: &Expr,
    level: usize,
    out: &mut Events,
) -> Result<(), NoMemory>
    ensures { OnOk result (out.new ≡ out.old ++ spec.kind_events (StmtKind.Repeat stmts.now test.now) level) }
{
    out.push_token(TokenKind::Word(words::REPEAT))?;
    push_sequence(alloc, stmts, level, out)?;
    push_until(alloc, test, out)
}

#[cycle(push_stmt)]
#[tactic(auto, unfolding(crate::specs::Events::stmt_events, crate::specs::Events::kind_events, crate::specs::Events::arm_events))]
fn push_for(
    alloc: Global,
    body: &Stmt,
    ident: &Text,
    first: &Expr,
    down: bool,
    last: &Expr,
    level: usize,
    out: &mut Events,
) -> Result<(), NoMemory>
    ensures { OnOk result (out.new ≡ out.old ++ spec.kind_events (StmtKind.For ident.now first.now down last.now body.now) level) }
{
    push_range(alloc, ident, first, down, last, out)?;
    push_child(alloc, body, level, out)
}

#[cycle(push_stmt)]
#[tactic(auto, unfolding(crate::specs::Events::stmt_events, crate::specs::Events::kind_events, crate::specs::Events::arm_events))]
fn push_with(
    alloc: Global,
    body: &Stmt,
    records: &[Access],
    level: usize,
    out: &mut Events,
) -> Result<(), NoMemory>
    ensures { OnOk result (out.new ≡ out.old ++ spec.kind_events (StmtKind.With records.now body.now) level) }
{
    push_records(alloc, records, out)?;
    push_child(alloc, body, level, out)
}

#[cycle(push_stmt)]
#[tactic(auto, unfolding(crate::specs::Events::stmt_events, crate::specs::Events::kind_events, crate::specs::Events::arm_events))]
fn push_kind(alloc: Global, kind: &StmtKind, level: usize, out: &mut Events) -> Result<(), NoMemory>
    ensures { OnOk result (out.new ≡ out.old ++ spec.kind_events kind.now level) }
{
    match kind {
        StmtKind::Empty => Ok(()),
        StmtKind::Assign(access, value) => push_assign(alloc, access, value, out),
        StmtKind::Call(ident, args) => push_call(alloc, ident, args.as_slice(), out),
        StmtKind::Goto(label) => push_goto(*label, out),
        StmtKind::Compound(stmts) => push_compound(alloc, stmts.as_slice(), level, out),
        StmtKind::If(test, yes, None) => push_then(alloc, yes.get(), test, level, out),
        StmtKind::If(test, yes, Some(no)) => {
            push_then(alloc, yes.get(), test, level, out)?;
            push_else(alloc, no.get(), level, out)
        }
        StmtKind::Case(selector, arms) => push_case(alloc, arms.as_slice(), selector, level, out),
        StmtKind::While(test, body) => push_while(alloc, body.get(), test, level, out),
        StmtKind::Repeat(stmts, test) => push_repeat(alloc, stmts.as_slice(), test, level, out),
        StmtKind::For(ident, first, down, last, body) => {
            push_for(alloc, body.get(), ident, first, *down, last, level, out)
        }
        StmtKind::With(records, body) => {
            push_with(alloc, body.get(), records.as_slice(), level, out)
        }
    }
}

/// Adds the events of a statement of this level.
#[cycle(push_stmt)]
#[tactic(auto, unfolding(crate::specs::Events::stmt_events, crate::specs::Events::kind_events, crate::specs::Events::arm_events))]
pub fn push_stmt(alloc: Global, stmt: &Stmt, level: usize, out: &mut Events) -> Result<(), NoMemory>
    ensures { OnOk result (out.new ≡ out.old ++ spec.stmt_events stmt.now level) }
{
    out.push(Event::Item(stmt.name, level))?;
    push_label(stmt.label, out)?;
    push_kind(alloc, &stmt.kind, level, out)
}
