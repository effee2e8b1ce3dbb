//! The words that begin a command.
ghost use Rattle.std.specs.Prelude.{◌≡◌};
ghost use Rattle.dice_command.specs.Keyword.{keyword_of, unbuilt_keyword, takes_nothing, takes_number, takes_text};

/// What follows the first word of a command that is not built yet.
#[derive(Clone, Copy)]
pub enum Arguments {
    /// Nothing.
    Nothing,
    /// A number.
    Number,
    /// A number and a text, or any text.
    Text,
    /// `before`, `after` or `first`, and then a number and a text.
    Side,
    /// An identifier, and then a number or nothing.
    Identifier,
}

/// What the first word of a command asks for.
#[derive(Clone, Copy)]
pub enum Keyword {
    Load,
    List,
    Replace,
    Apply,
    Run,
    Quit,
    /// A command that is not built yet.
    Unbuilt(Arguments),
}

/// What a first word asks for.
#[tactic(auto, unfolding(crate::specs::Keyword::keyword_of))]
pub(crate) fn keyword_of(word: &[u8]) -> Option<Keyword>
    ensures { result ≡ keyword_of word.now }
{
    if word == b"load".as_slice() {
        Some(Keyword::Load)
    } else if word == b"list".as_slice() {
        Some(Keyword::List)
    } else if word == b"replace".as_slice() {
        Some(Keyword::Replace)
    } else if word == b"apply".as_slice() {
        Some(Keyword::Apply)
    } else if word == b"run".as_slice() {
        Some(Keyword::Run)
    } else if word == b"quit".as_slice() {
        Some(Keyword::Quit)
    } else {
        unbuilt_keyword(word)
    }
}

fn unbuilt_keyword(word: &[u8]) -> Option<Keyword>
    ensures { result ≡ unbuilt_keyword word.now }
{
    if takes_nothing(word) {
        Some(Keyword::Unbuilt(Arguments::Nothing))
    } else if takes_number(word) {
        Some(Keyword::Unbuilt(Arguments::Number))
    } else if takes_text(word) {
        Some(Keyword::Unbuilt(Arguments::Text))
    } else if word == b"insert".as_slice() {
        Some(Keyword::Unbuilt(Arguments::Side))
    } else if word == b"show".as_slice() {
        Some(Keyword::Unbuilt(Arguments::Identifier))
    } else {
        None
    }
}

// Whether the word begins a command, not built yet, that nothing follows.
#[tactic(auto, unfolding(crate::specs::Keyword::takes_nothing))]
fn takes_nothing(word: &[u8]) -> bool
    ensures { result ≡ takes_nothing word.now }
{
    word == b"discard".as_slice()
        || word == b"where".as_slice()
        || word == b"room".as_slice()
        || word == b"restart".as_slice()
        || word == b"resume".as_slice()
}

// Whether the word begins a command, not built yet, that a number follows.
#[tactic(auto, unfolding(crate::specs::Keyword::takes_number))]
fn takes_number(word: &[u8]) -> bool
    ensures { result ≡ takes_number word.now }
{
    word == b"delete".as_slice()
        || word == b"undeclare".as_slice()
        || word == b"break".as_slice()
        || word == b"unbreak".as_slice()
        || word == b"trace".as_slice()
        || word == b"untrace".as_slice()
}

// Whether the word begins a command, not built yet, that a text follows.
#[tactic(auto, unfolding(crate::specs::Keyword::takes_text))]
fn takes_text(word: &[u8]) -> bool
    ensures { result ≡ takes_text word.now }
{
    word == b"head".as_slice()
        || word == b"declare".as_slice()
        || word == b"redeclare".as_slice()
        || word == b"routine".as_slice()
        || word == b"heading".as_slice()
        || word == b"feed".as_slice()
}
