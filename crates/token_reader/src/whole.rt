//! All the tokens as one value, or why they are none.
ghost use Rattle.std.specs.Prelude.{◌≡◌, ◌≤◌, ◌<◌, ℕ, length};
ghost use denote.Ref.{MutBor};
ghost use Rattle.dice_base.specs.Tokens.{Toks};
ghost use Rattle.token_reader.specs.Answers.{kinds, Answers, Settles, ReadsAs, judged_again};
ghost use Rattle.token_reader.specs.Faults.{settled, read_whole};
ghost use Rattle.token_reader.specs.Readers.{Parser, is_deep};

use crate::{Cursor, ParseFault, Stop};
use dice_base::Token;
use std::alloc::Global;

// The answer of a reader that stopped for no want of levels, or of one that was given a level more.
#[tactic(auto, using(crate::proofs::Settled::settled_done, crate::proofs::Settled::settled_more))]
fn settle<A: Drop>(outcome: Result<A, Stop>, rest: &Cursor<'_>, all: usize) -> Result<A, ParseFault>
    requires { all ≤ 65536 }
    ensures { Settles outcome (settled outcome rest.now all) result }
{
    let left = rest.len();
    let place = all.saturating_sub(left) as u32;
    match outcome {
        Err(Stop::Memory) => Err(ParseFault::NoMemory),
        Ok(value) => {
            if left == 0 {
                Ok(value)
            } else {
                Err(ParseFault::Unexpected(place))
            }
        }
        Err(_) => {
            if left == 0 {
                Err(ParseFault::EndsEarly)
            } else {
                Err(ParseFault::Unexpected(place))
            }
        }
    }
}

// The answer with one level more, where the first, which left so many tokens, was too deep.
#[tactic(auto, using(crate::proofs::Settled::second_done, crate::proofs::Settled::second_other, crate::proofs::Settled::second_more))]
fn settle_again<A: Drop>(
    outcome: Result<A, Stop>,
    rest: &Cursor<'_>,
    left: usize,
    all: usize,
) -> Result<A, ParseFault>
    requires { all ≤ 65536 }
    ensures { Settles outcome (judged_again (outcome, rest.now) left all) result }
{
    if let Err(Stop::Memory) = outcome {
        return Err(ParseFault::NoMemory);
    }
    if rest.len() != left {
        return Err(ParseFault::TooDeep);
    }
    if left == 0 && outcome.is_ok() {
        return Err(ParseFault::TooDeep);
    }
    settle(outcome, rest, all)
}

fn is_too_deep<A: Drop>(outcome: &Result<A, Stop>) -> bool
    ensures { result ≡ is_deep outcome.now }
{
    matches!(outcome, Err(Stop::Deep))
}

/// Reads all the tokens, within so many levels.
///
/// Where that is too deep, it reads once more with one level more: if that stops at the same place, the place is at
/// fault and not the levels. So nothing nests deeper than one level above those that are allowed.
#[tactic(auto, using(crate::proofs::Settled::settle_case, crate::proofs::Settled::again_case))]
pub fn read_all<A: Drop, F: Fn(Global, &mut Cursor<'_>, usize) -> Result<A, Stop>>(
    alloc: Global,
    tokens: &[Token],
    levels: usize,
    read: F,
) -> Result<A, ParseFault>
    requires short { length tokens.now ≤ 65536 }
    requires few { levels < 65536 }
    requires callable { (alloc : Global) (old : MutBor Toks) (d : ℕ) → F.pre read alloc old d }
    ensures { (p : ℕ → Parser A) → ReadsAs p (F.pre read) (F.post read)
        → Answers (read_whole p levels (kinds tokens.now)) result }
{
    let mut cursor = Cursor::new(tokens);
    let outcome = read(alloc, &mut cursor, levels);
    if !is_too_deep(&outcome) {
        return settle(outcome, &cursor, tokens.len());
    }
    let mut deeper = Cursor::new(tokens);
    let second = read(alloc, &mut deeper, levels + 1);
    settle_again(second, &deeper, cursor.len(), tokens.len())
}
