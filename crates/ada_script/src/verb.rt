//! The verbs of the statements.

ghost use Rattle.std.specs.Prelude.{◌≡◌};
ghost use Rattle.ada_script.specs.internal.Verbs.{verb_word, verb_of as found_verb};

/// What the speaker of a statement does.
#[derive(Clone, Copy, Debug, PartialEq, Eq)]
pub enum Verb {
    Open,
    Create,
    Activate,
    Up,
    Fail,
    Call,
    Try,
    Accept,
    Select,
    End,
    Raise,
    Close,
    Delay,
    Complete,
    Abort,
    Show,
}

/// The word of a verb.
pub fn word_of(verb: Verb) -> &'static [u8]
    ensures { result.now ≡ verb_word verb }
{
    match verb {
        Verb::Open => b"open",
        Verb::Create => b"create",
        Verb::Activate => b"activate",
        Verb::Up => b"up",
        Verb::Fail => b"fail",
        Verb::Call => b"call",
        Verb::Try => b"try",
        Verb::Accept => b"accept",
        Verb::Select => b"select",
        Verb::End => b"end",
        Verb::Raise => b"raise",
        Verb::Close => b"close",
        Verb::Delay => b"delay",
        Verb::Complete => b"complete",
        Verb::Abort => b"abort",
        Verb::Show => b"show",
    }
}

/// The verb of this word, if there is one.
// The commonest first: a word is compared with one after another, of which those of another length cost next to
// nothing.
#[tactic(auto, unfolding(crate::specs::internal::Verbs::verb_of))]
pub fn verb_of(word: &[u8]) -> Option<Verb>
    ensures { result ≡ found_verb word.now }
{
    if b"call".as_slice() == word {
        Some(Verb::Call)
    } else if b"accept".as_slice() == word {
        Some(Verb::Accept)
    } else if b"end".as_slice() == word {
        Some(Verb::End)
    } else if b"select".as_slice() == word {
        Some(Verb::Select)
    } else if b"delay".as_slice() == word {
        Some(Verb::Delay)
    } else if b"show".as_slice() == word {
        Some(Verb::Show)
    } else if b"up".as_slice() == word {
        Some(Verb::Up)
    } else if b"create".as_slice() == word {
        Some(Verb::Create)
    } else if b"activate".as_slice() == word {
        Some(Verb::Activate)
    } else if b"try".as_slice() == word {
        Some(Verb::Try)
    } else if b"complete".as_slice() == word {
        Some(Verb::Complete)
    } else if b"abort".as_slice() == word {
        Some(Verb::Abort)
    } else if b"open".as_slice() == word {
        Some(Verb::Open)
    } else if b"close".as_slice() == word {
        Some(Verb::Close)
    } else if b"fail".as_slice() == word {
        Some(Verb::Fail)
    } else if b"raise".as_slice() == word {
        Some(Verb::Raise)
    } else {
        None
    }
}
