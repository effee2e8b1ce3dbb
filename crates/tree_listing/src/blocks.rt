//! Blocks, routines and programs as events.
ghost use Rattle.std.specs.Prelude.{◌≡◌, ◌++◌, [], ◌∷◌, map, OnOk};
ghost use Rattle.dice_base.specs.declared.token.TokenKind.TheVariants as token;
ghost use Rattle.pascal_tree.specs.declared.decl.Block.{out-Block};
ghost use Rattle.dice_base.specs.Symbols.{comma_sign, semicolon_sign};
ghost use Rattle.pascal_tree.specs.ExprTokens.{in_parens};
ghost use Rattle.pascal_tree.specs.DeclTokens.{ident_tokens, heading_tokens};
ghost use Rattle.tree_listing.specs.Events as spec;
ghost use Rattle.tree_listing.specs.Events.{said, child};

use crate::event::Event;
use crate::events::Events;
use crate::statements::{deeper, push_stmt};
use dice_base::{Name, NoMemory, Text, TokenKind, signs, words};
use pascal_tree::{Block, Decl, Heading, Routine, Tree};
use std::alloc::Global;
use tree_text::{push_decl, push_heading, push_idents};

fn push_semicolon(out: &mut Events) -> Result<(), NoMemory>
    ensures { OnOk result (out.new ≡ out.old ++ Event.Token semicolon_sign ∷ []) }
{
    out.push_token(TokenKind::Sign(signs::SEMICOLON))
}

// A declaration as a child of the item of this level.
fn push_declaration(
    alloc: Global,
    decl: &Decl,
    level: usize,
    out: &mut Events,
) -> Result<(), NoMemory>
    ensures { OnOk result (out.new ≡ out.old ++ child (spec.decl_events decl.now) level) }
{
    let inner = deeper(level)?;
    out.push(Event::Item(decl.name, inner))?;
    let mut tokens = Vec::new(alloc);
    push_decl(alloc, &decl.kind, &mut tokens)?;
    out.push_tokens(tokens)?;
    out.push(Event::Back(level))
}

fn push_declarations(
    alloc: Global,
    decls: &[Decl],
    level: usize,
    out: &mut Events,
) -> Result<(), NoMemory>
    ensures { OnOk result (out.new ≡ out.old ++ spec.ended (map spec.declaration decls.now) level) }
{
    for decl in decls {
        push_declaration(alloc, decl, level, out)?;
        push_semicolon(out)?;
    }
    Ok(())
}

fn push_part(
    alloc: Global,
    word: u8,
    decls: &[Decl],
    level: usize,
    out: &mut Events,
) -> Result<(), NoMemory>
    ensures { OnOk result (out.new ≡ out.old ++ spec.part (token.Word word) decls.now level) }
{
    if decls.is_empty() {
        return Ok(());
    }
    out.push(Event::Part(level))?;
    out.push_token(TokenKind::Word(word))?;
    push_declarations(alloc, decls, level, out)
}

fn push_labels(
    alloc: Global,
    labels: &Option<Decl>,
    level: usize,
    out: &mut Events,
) -> Result<(), NoMemory>
    ensures { OnOk result (out.new ≡ out.old ++ spec.labels labels.now level) }
{
    match labels {
        None => Ok(()),
        Some(decl) => {
            out.push(Event::Part(level))?;
            out.push_token(TokenKind::Word(words::LABEL))?;
            push_declaration(alloc, decl, level, out)?;
            push_semicolon(out)
        }
    }
}

// The declarations of a block, but for those of its routines.
fn push_parts(alloc: Global, block: &Block, level: usize, out: &mut Events) -> Result<(), NoMemory>
    ensures { OnOk result (out.new ≡ out.old ++ spec.parts (out-Block block.now).labels (out-Block block.now).consts (out-Block block.now).types (out-Block block.now).vars level) }
{
    push_labels(alloc, &block.labels, level, out)?;
    push_part(alloc, words::CONST, block.consts.as_slice(), level, out)?;
    push_part(alloc, words::TYPE, block.types.as_slice(), level, out)?;
    push_part(alloc, words::VAR, block.vars.as_slice(), level, out)
}

fn push_body(alloc: Global, block: &Block, level: usize, out: &mut Events) -> Result<(), NoMemory>
    ensures { OnOk result (out.new ≡ out.old ++ child (spec.stmt_events (out-Block block.now).body) level) }
{
    let inner = deeper(level)?;
    push_stmt(alloc, &block.body, inner, out)?;
    out.push(Event::Back(level))
}

fn push_routine_heading(alloc: Global, heading: &Heading, out: &mut Events) -> Result<(), NoMemory>
    ensures { OnOk result (out.new ≡ out.old ++ said (heading_tokens heading.now ++ semicolon_sign ∷ [])) }
{
    let mut tokens = Vec::new(alloc);
    push_heading(alloc, heading, &mut tokens)?;
    tokens.push(TokenKind::Sign(signs::SEMICOLON))?;
    out.push_tokens(tokens)
}

#[cycle(push_block)]
fn push_block(alloc: Global, block: &Block, level: usize, out: &mut Events) -> Result<(), NoMemory>
    ensures { OnOk result (out.new ≡ out.old ++ spec.block_events block.now level) }
{
    push_parts(alloc, block, level, out)?;
    push_routines(alloc, block.routines.as_slice(), level, out)?;
    push_body(alloc, block, level, out)
}

#[cycle(push_block)]
#[tactic(auto, unfolding(crate::specs::Events::block_events, crate::specs::Events::routine_events))]
fn push_routine(
    alloc: Global,
    routine: &Routine,
    level: usize,
    out: &mut Events,
) -> Result<(), NoMemory>
    ensures { OnOk result (out.new ≡ out.old ++ spec.routine_events routine.now level) }
{
    out.push(Event::Item(routine.name, level))?;
    push_routine_heading(alloc, &routine.heading, out)?;
    match &routine.block {
        None => out.push_token(TokenKind::Ident(Text::from_slice(alloc, b"forward")?)),
        Some(block) => push_block(alloc, block, level, out),
    }
}

#[cycle(push_block)]
fn push_routines(
    alloc: Global,
    routines: &[Routine],
    level: usize,
    out: &mut Events,
) -> Result<(), NoMemory>
    ensures { OnOk result (out.new ≡ out.old ++ spec.ended (map child (map spec.routine_events routines.now)) level) }
{
    for routine in routines {
        let inner = deeper(level)?;
        push_routine(alloc, routine, inner, out)?;
        out.push(Event::Back(level))?;
        push_semicolon(out)?;
    }
    Ok(())
}

fn push_files(alloc: Global, files: &[Text], tokens: &mut Vec<TokenKind>) -> Result<(), NoMemory>
    ensures { OnOk result (tokens.new.items ≡ tokens.old.items ++ in_parens comma_sign (map ident_tokens files.now)) }
{
    if files.is_empty() {
        return Ok(());
    }
    tokens.push(TokenKind::Sign(signs::OPEN))?;
    push_idents(alloc, files, tokens)?;
    tokens.push(TokenKind::Sign(signs::CLOSE))?;
    Ok(())
}

fn push_program_heading(alloc: Global, program: &Tree, out: &mut Events) -> Result<(), NoMemory>
    ensures { OnOk result (out.new ≡ out.old ++ said (spec.heading program.now)) }
{
    let mut tokens = Vec::new(alloc);
    tokens.push(TokenKind::Word(words::PROGRAM))?;
    tokens.push(TokenKind::Ident(program.ident.copy(alloc)?))?;
    push_files(alloc, program.files.as_slice(), &mut tokens)?;
    tokens.push(TokenKind::Sign(signs::SEMICOLON))?;
    out.push_tokens(tokens)
}

/// The events of a program.
pub fn push_program(alloc: Global, program: &Tree, out: &mut Events) -> Result<(), NoMemory>
    ensures { OnOk result (out.new ≡ out.old ++ spec.program_events program.now) }
{
    out.push(Event::Item(Name(1), 0))?;
    push_program_heading(alloc, program, out)?;
    push_block(alloc, &program.block, 0, out)?;
    out.push_token(TokenKind::Sign(signs::PERIOD))
}
