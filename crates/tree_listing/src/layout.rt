//! Events as the lines of a text.
ghost use Rattle.std.specs.Prelude.{◌≡◌, [], ◌∷◌, ◌++◌, List, IfOk, OnOk};
ghost use Rattle.tree_listing.specs.Layout.{going, whole, whole_with};
ghost use Rattle.tree_listing.specs.Listing.{Rest, begins, on_line, listing_lines, text_of_lines, text_of_line, blanks, places, spellings_of, spellings_after_blanks, indented_line};
ghost use Rattle.tree_listing.specs.Listing as spec;

use crate::event::{Event, Line};
use crate::events::Events;
use dice_base::{Name, NoMemory, Text, TokenKind, push_decimal, signs};
use sqlite_items::Items;
use std::alloc::Global;
use tree_text::push_spelling;

fn closes(token: &TokenKind) -> bool
    ensures { result ≡ spec.closes token.now }
{
    match token {
        TokenKind::Sign(k) => *k == signs::PERIOD || *k == signs::SEMICOLON,
        _ => false,
    }
}

fn push_blanks(alloc: Global, count: usize, out: &mut Text) -> Result<(), NoMemory>
    ensures { OnOk result (out.new ≡ out.old ++ blanks count) }
{
    for _blank in 0..count {
        out.push(alloc, b' ')?;
    }
    Ok(())
}

fn push_places(alloc: Global, name: Option<Name>, out: &mut Text) -> Result<(), NoMemory>
    ensures { OnOk result (out.new ≡ out.old ++ places name) }
{
    match name {
        None => push_blanks(alloc, 6, out),
        Some(name) => {
            let mut digits = Text::new(alloc);
            push_decimal(alloc, &mut digits, u64::from(name.0))?;
            push_blanks(alloc, 6usize.saturating_sub(digits.bytes().len()), out)?;
            out.append(alloc, digits.bytes())
        }
    }
}

// Each token behind a blank.
fn push_behind(alloc: Global, tokens: &[TokenKind], out: &mut Text) -> Result<(), NoMemory>
    ensures { OnOk result (out.new ≡ out.old ++ spellings_after_blanks tokens.now) }
{
    for token in tokens {
        out.push(alloc, b' ')?;
        push_spelling(alloc, token, out)?;
    }
    Ok(())
}

fn push_spelled(alloc: Global, tokens: &[TokenKind], out: &mut Text) -> Result<(), NoMemory>
    ensures { OnOk result (out.new ≡ out.old ++ spellings_of tokens.now) }
{
    match tokens {
        [] => Ok(()),
        [first, rest @ ..] => {
            push_spelling(alloc, first, out)?;
            push_behind(alloc, rest, out)
        }
    }
}

// An indentation whose width has no number is refused as if there were no memory.
fn push_indented(
    alloc: Global,
    level: usize,
    tokens: &[TokenKind],
    out: &mut Text,
) -> Result<(), NoMemory>
    ensures { OnOk result (out.new ≡ out.old ++ indented_line level tokens.now) }
{
    let Some(width) = level.checked_mul(2) else {
        return Err(NoMemory);
    };
    push_blanks(alloc, width, out)?;
    push_spelled(alloc, tokens, out)
}

fn push_named_line(
    alloc: Global,
    name: Option<Name>,
    level: usize,
    tokens: &[TokenKind],
    out: &mut Text,
) -> Result<(), NoMemory>
    ensures { OnOk result (out.new ≡ out.old ++ spec.named_line name level tokens.now) }
{
    push_places(alloc, name, out)?;
    if !tokens.is_empty() {
        out.push(alloc, b' ')?;
        push_indented(alloc, level, tokens, out)?;
    }
    out.push(alloc, b'\n')
}

fn push_plain_line(
    alloc: Global,
    level: usize,
    tokens: &[TokenKind],
    out: &mut Text,
) -> Result<(), NoMemory>
    ensures { OnOk result (out.new ≡ out.old ++ spec.plain_line level tokens.now) }
{
    if tokens.is_empty() {
        return Ok(());
    }
    push_indented(alloc, level, tokens, out)?;
    out.push(alloc, b'\n')
}

fn push_line(alloc: Global, names: bool, line: &Line, out: &mut Text) -> Result<(), NoMemory>
    ensures { OnOk result (out.new ≡ out.old ++ text_of_line names line.now) }
{
    if names {
        push_named_line(alloc, line.name, line.level, line.tokens.as_slice(), out)
    } else {
        push_plain_line(alloc, line.level, line.tokens.as_slice(), out)
    }
}

// The line under way, as it stands.
fn push_ended(
    alloc: Global,
    names: bool,
    line: &Option<Line>,
    out: &mut Text,
) -> Result<(), NoMemory>
    ensures { OnOk result (out.new ≡ out.old ++ text_of_lines names (going line.now ([], []))) }
{
    match line {
        None => Ok(()),
        Some(line) => push_line(alloc, names, line, out),
    }
}

/// A listing in the making.
#[derive(Drop)]
pub struct Layout {
    names: bool,
    /// The lines that have ended.
    out: Text,
    /// The line under way.
    line: Option<Line>,
    /// The level of the item whose child has ended, where no line has begun since.
    back: Option<usize>,
}

impl Layout {
    fn new(alloc: Global, names: bool) -> Layout
        ensures { (es : List Event) → whole_with result es ≡ text_of_lines names (listing_lines es) }
    {
        Layout {
            names,
            out: Text::new(alloc),
            line: None,
            back: None,
        }
    }

    // Ends the line under way, and begins another.
    fn begin(&mut self, alloc: Global, name: Option<Name>, level: usize) -> Result<(), NoMemory>
        ensures text { OnOk result ((rest : Rest) → whole self.new rest ≡ whole self.old (begins name level rest)) }
        ensures back { OnOk result (self.new.back ≡ None) }
    {
        push_ended(alloc, self.names, &self.line, &mut self.out)?;
        self.line = Some(Line {
            name,
            level,
            tokens: Items::new(alloc),
        });
        self.back = None;
        Ok(())
    }

    // Puts a token on the line under way.
    #[tactic(auto, using(crate::proofs::Laying::put_on))]
    fn put(&mut self, token: TokenKind) -> Result<(), NoMemory>
        ensures text { OnOk result ((rest : Rest) → whole self.new rest ≡ whole self.old (on_line token rest)) }
        ensures back { OnOk result (self.new.back ≡ self.old.back) }
    {
        match &mut self.line {
            None => Ok(()),
            Some(line) => {
                line.tokens.push(token)?;
                Ok(())
            }
        }
    }

    fn place_token(&mut self, alloc: Global, token: TokenKind) -> Result<(), NoMemory>
        ensures { OnOk result ((es : List Event) → whole_with self.new es ≡ whole_with self.old (Event.Token token ∷ es)) }
    {
        match self.back {
            None => self.put(token),
            Some(level) => {
                if closes(&token) {
                    return self.put(token);
                }
                self.begin(alloc, None, level)?;
                self.put(token)
            }
        }
    }

    fn place(&mut self, alloc: Global, event: Event) -> Result<(), NoMemory>
        ensures { OnOk result ((es : List Event) → whole_with self.new es ≡ whole_with self.old (event ∷ es)) }
    {
        match event {
            Event::Item(name, level) => self.begin(alloc, Some(name), level),
            Event::Part(level) => self.begin(alloc, None, level),
            Event::Back(level) => {
                self.back = Some(level);
                Ok(())
            }
            Event::Token(token) => self.place_token(alloc, token),
        }
    }

    fn finish(self, alloc: Global) -> Result<Text, NoMemory>
        ensures { IfOk result (λ text. text ≡ whole_with self []) }
    {
        let Layout {
            names,
            mut out,
            line,
            back: _,
        } = self;
        push_ended(alloc, names, &line, &mut out)?;
        Ok(out)
    }
}

/// The lines of these events as a text, with names or without.
pub fn lay_out(alloc: Global, names: bool, events: Events) -> Result<Text, NoMemory>
    ensures { IfOk result (λ text. text ≡ text_of_lines names (listing_lines events)) }
{
    let mut events = events;
    let mut layout = Layout::new(alloc, names);
    while let Some(event) = events.pop() {
        layout.place(alloc, event)?;
    }
    layout.finish(alloc)
}
