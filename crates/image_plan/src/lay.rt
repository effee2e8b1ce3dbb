//! The words of blocks, one block behind the other, with their link words.
ghost use Rattle.std.specs.Prelude.{◌≡◌, ◌+◌, ◌≤◌, ◌<◌, ◌*◌, ◌++◌, length, IfOk, OnOk, IfSome};
ghost use Rattle.image_plan.specs.Codes.{HasOneLink, AllHaveOneLink, laid_to, next_place, statements_laid, image_words, words_in};

use console_service::{CODE_ROOM_WORDS, CODE_WORD, MEMORY_END_WORD};
use dice_base::NoMemory;
use pascal_semantics::MAX_PROGRAM_WORDS;
use statement_code::BlockCode;
use std::alloc::Global;

// The blocks of every program that is loaded have room in the code area.
const _: () = prove!(MAX_PROGRAM_WORDS <= CODE_ROOM_WORDS as u64);

/// The blocks of a program, from the begin of the code area on.
pub(crate) fn lay_program(
    alloc: Global,
    program: &BlockCode,
    codes: &[BlockCode],
) -> Result<Vec<u16>, NoMemory>
    requires link { HasOneLink program.now }
    requires links { AllHaveOneLink codes.now }
    requires room { length program.now.words.items + words_in codes.now ≤ CODE_ROOM_WORDS }
    requires end { IfSome program.now.end (λ k. k < length program.now.words.items) }
    ensures { IfOk result (λ words. words.items ≡ image_words program.now codes.now) }
{
    let begin = CODE_WORD + program.words.len() as u16;
    let finish = CODE_WORD + program.end.unwrap_or(0);
    let mut words = Vec::new(alloc);
    let first = if codes.is_empty() { finish } else { begin };
    lay(&mut words, program, first)?;
    lay_statements(&mut words, codes, begin, finish)?;
    Ok(words)
}

// The blocks of statements, of which the first will lie at the word number `place`.
fn lay_statements(
    words: &mut Vec<u16>,
    codes: &[BlockCode],
    place: u16,
    finish: u16,
) -> Result<(), NoMemory>
    requires links { AllHaveOneLink codes.now }
    requires room { place + words_in codes.now ≤ MEMORY_END_WORD }
    requires end { finish ≤ MEMORY_END_WORD }
    ensures { OnOk result (words.new.items ≡ words.old.items ++ statements_laid place finish codes.now) }
{
    let Some((code, rest)) = codes.split_first() else {
        return Ok(());
    };
    let next = place + code.words.len() as u16;
    lay(words, code, if rest.is_empty() { finish } else { next })?;
    lay_statements(words, rest, next, finish)
}

// One block, whose link leads to the word number `target`.
fn lay(words: &mut Vec<u16>, code: &BlockCode, target: u16) -> Result<(), NoMemory>
    requires link { HasOneLink code.now }
    requires small { target ≤ MEMORY_END_WORD }
    ensures { OnOk result (words.new.items ≡ words.old.items ++ laid_to code.now target) }
{
    let begin = words.len();
    words.extend_from_slice(&code.words)?;
    let link = code.links[0];
    words[begin + link.offset as usize] = 2 * target;
    Ok(())
}
