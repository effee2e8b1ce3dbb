//! The tokens of a text.
ghost use Rattle.std.specs.Prelude.{◌≡◌, ◌≢◌, ◌≤◌, ◌<◌, ◌^◌, ◌↔◌, ◌++◌, ◌∷◌, List, length, map, [], IfOk, OnOk, IfErr, IsErrOf};
ghost use Rattle.dice_base.specs.Lexemes.{Lexes};
ghost use Rattle.dice_base.specs.declared.token.TokenKind.{TokenKind};
ghost use Rattle.pascal_scanner.specs.declared.fault.ScanFault.TheVariants.{TextTooLong, NoMemory};
ghost use Rattle.pascal_scanner.specs.Progress.{IsRead};
ghost use Rattle.pascal_scanner.specs.Spans.{Stand};
ghost use Rattle.pascal_scanner.specs.Unread.{Reports};

use crate::front::{Step, Stop, read_step};
use crate::{MAX_TEXT_BYTES, ScanFault};
use dice_base::{Span, Token, TokenKind};
use std::alloc::Global;

fn push_token(
    tokens: &mut Vec<Token>,
    kind: TokenKind,
    from: usize,
    to: usize,
) -> Result<(), ScanFault>
    requires order { from ≤ to }
    requires small { to < 2 ^ 32 }
    ensures ok { OnOk result (tokens.new.items
        ≡ tokens.old.items ++ record { kind = kind; span = record { from = from; to = to } } ∷ []) }
    ensures err { IfErr result (λ e. e ≡ NoMemory) }
{
    let span = Span {
        from: from as u32,
        to: to as u32,
    };
    match tokens.push(Token { kind, span }) {
        Ok(()) => Ok(()),
        Err(_) => Err(ScanFault::NoMemory),
    }
}

// Reads one token, or what stands between two.
fn read_on(
    alloc: Global,
    text: &[u8],
    at: usize,
    tokens: &mut Vec<Token>,
) -> Result<usize, ScanFault>
    requires short { length text.now ≤ MAX_TEXT_BYTES }
    requires some { at < length text.now }
    requires read { IsRead text.now at tokens.old.items }
    ensures moves { IfOk result (λ next. at < next) }
    ensures read { IfOk result (λ next. IsRead text.now next tokens.new.items) }
    ensures fault { IfErr result (λ e. Reports e text.now × (e ≢ TextTooLong)) }
{
    match read_step(alloc, &text[at..]) {
        Ok(Step::Gap(len)) => Ok(at + len),
        Ok(Step::Lexed(kind, len)) => {
            push_token(tokens, kind, at, at + len)?;
            Ok(at + len)
        }
        Err(Stop::Memory) => Err(ScanFault::NoMemory),
        Err(Stop::Character) => Err(ScanFault::BadCharacter(at as u32)),
        Err(Stop::Comment) => Err(ScanFault::OpenComment(at as u32)),
        Err(Stop::String) => Err(ScanFault::OpenString(at as u32)),
        Err(Stop::Number) => Err(ScanFault::NumberTooLarge(at as u32)),
    }
}

/// Cuts a text into its tokens (ISO 7185:1990, 6.1), or says where and why it cannot be cut.
pub fn scan(alloc: Global, text: &[u8]) -> Result<Vec<Token>, ScanFault>
    // The text is these tokens, and no others.
    ensures tokens { IfOk result (λ tokens. Lexes text.now (map (λ t. t.kind) tokens.items)) }
    ensures only { IfOk result (λ tokens. (list : List TokenKind) →
        Lexes text.now list → list ≡ map (λ t. t.kind) tokens.items) }
    // Each stands where its span says, with separators and comments alone between.
    ensures spans { IfOk result (λ tokens. Stand text.now tokens.items) }
    ensures few { IfOk result (λ tokens. length tokens.items ≤ MAX_TEXT_BYTES) }
    ensures long { IsErrOf result ScanFault.TextTooLong ↔ (MAX_TEXT_BYTES < length text.now) }
    // The first place that is left, and why. A text has one fault with a place at most.
    ensures fault { IfErr result (λ e. Reports e text.now) }
{
    if text.len() > MAX_TEXT_BYTES {
        return Err(ScanFault::TextTooLong);
    }
    let mut tokens = Vec::new(alloc);
    let mut at = 0;
    while at < text.len() {
        at = read_on(alloc, text, at, &mut tokens)?;
    }
    Ok(tokens)
}
