//! What has to stand at a place of a line.

use crate::words::Word;

/// The verbs of the statements.
pub const VERBS: [&str; 16] = [
    "open", "create", "activate", "up", "fail", "call", "try", "accept", "select", "end", "raise",
    "close", "delay", "complete", "abort", "show",
];

/// What has to stand at a place.
#[derive(Clone, Copy, Debug, PartialEq, Eq)]
pub enum Expected<'a> {
    /// A speaker with its colon, or `tick`.
    Speaker,
    Verb,
    /// A name that isn't declared yet, of a task or a block.
    NewName,
    /// The word `under`.
    Under,
    /// The name of a task or a block.
    Master,
    /// The name of a family of entries.
    Family,
    /// The bounds of a family.
    LowBound,
    HighBound,
    /// The name of a task.
    Task,
    /// The name of an entry of this task.
    Entry(&'a str),
    Moment,
    Duration,
    Pick,
    /// An index, or the end of the line.
    Index,
    /// The word `within`, or the end of the line.
    Within,
    /// An alternative of a select.
    Alternative,
    /// A delay alternative, which follows another one.
    DelayAlternative,
    /// `or` or `else`, or the end of the line.
    Link,
    /// `callable`, `terminated` or `count`.
    Attribute,
    /// The end of the line.
    End,
}

/// Whether a word begins as a number does.
pub fn is_number_begun(word: &str) -> bool {
    match word.as_bytes() {
        [first, ..] => first.is_ascii_digit() || *first == b'-',
        [] => false,
    }
}

fn text_at<'a>(words: &[Word<'a>], place: usize) -> &'a str {
    match words.get(place) {
        Some(word) => word.text,
        None => "",
    }
}

/// The speaker of a line's words, without its colon.
pub fn speaker_of<'a>(words: &[Word<'a>]) -> &'a str {
    let first = text_at(words, 0);
    first.strip_suffix(':').unwrap_or(first)
}

/// What has to stand at a place of a line's words, where those before it are as they have to be.
pub fn expected_at<'a>(words: &[Word<'a>], place: usize) -> Expected<'a> {
    match place {
        0 => Expected::Speaker,
        1 if text_at(words, 0) == "tick" => Expected::Moment,
        _ if text_at(words, 0) == "tick" => Expected::End,
        1 => Expected::Verb,
        _ => expected_after(words, place),
    }
}

// What has to stand at a place after the verb.
fn expected_after<'a>(words: &[Word<'a>], place: usize) -> Expected<'a> {
    match text_at(words, 1) {
        "open" if place == 2 => Expected::NewName,
        "create" => expected_in_create(words, place),
        "activate" | "abort" => Expected::Task,
        "call" => expected_in_call(words, place, Expected::Within),
        "try" => expected_in_call(words, place, Expected::End),
        "accept" => expected_entry(words, place, 2, speaker_of(words), Expected::End),
        "delay" if place == 2 => Expected::Duration,
        "select" if place == 2 => Expected::Pick,
        "select" => expected_in_select(words, place),
        "show" => expected_in_show(words, place),
        _ => Expected::End,
    }
}

fn expected_in_create<'a>(words: &[Word<'a>], place: usize) -> Expected<'a> {
    match place {
        2 => Expected::NewName,
        3 => Expected::Under,
        4 => Expected::Master,
        5 => Expected::Family,
        _ => expected_of_family(words, place),
    }
}

// A family's name, or a bound, by the two words before it.
fn expected_of_family<'a>(words: &[Word<'a>], place: usize) -> Expected<'a> {
    let is_bound = is_number_begun(text_at(words, place));
    let is_after_bound = is_number_begun(text_at(words, place.saturating_sub(1)));
    let is_after_two = place > 6 && is_number_begun(text_at(words, place.saturating_sub(2)));
    if is_after_bound && !is_after_two {
        Expected::HighBound
    } else if is_bound && !is_after_bound {
        Expected::LowBound
    } else {
        Expected::Family
    }
}

// What stands at a place where an entry of a task stands at another one, perhaps with an index, and then this.
fn expected_entry<'a>(
    words: &[Word<'a>],
    place: usize,
    entry: usize,
    task: &'a str,
    then: Expected<'a>,
) -> Expected<'a> {
    if place <= entry {
        return Expected::Entry(task);
    }
    if place == entry + 1 && is_number_begun(text_at(words, place)) {
        return Expected::Index;
    }
    then
}

fn expected_in_call<'a>(words: &[Word<'a>], place: usize, then: Expected<'a>) -> Expected<'a> {
    if place == 2 {
        return Expected::Task;
    }
    if text_at(words, place.saturating_sub(1)) == "within" && place > 4 {
        return Expected::Duration;
    }
    if place > 4 && text_at(words, place.saturating_sub(2)) == "within" {
        return Expected::End;
    }
    expected_entry(words, place, 3, text_at(words, 2), then)
}

fn expected_in_show<'a>(words: &[Word<'a>], place: usize) -> Expected<'a> {
    match (text_at(words, 2), place) {
        (_, 2) => Expected::Attribute,
        ("count", _) => expected_entry(words, place, 3, speaker_of(words), Expected::End),
        (_, 3) => Expected::Task,
        _ => Expected::End,
    }
}

// Whether a delay alternative stands before a place.
fn is_after_delay(words: &[Word<'_>], place: usize) -> bool {
    words
        .iter()
        .take(place)
        .skip(3)
        .any(|word| word.text == "delay")
}

// What stands at a place of a select, by the word before it.
fn expected_in_select<'a>(words: &[Word<'a>], place: usize) -> Expected<'a> {
    let before = text_at(words, place.saturating_sub(1));
    let is_number = is_number_begun(text_at(words, place));
    match before {
        _ if place == 3 => Expected::Alternative,
        "or" | "closed" if is_after_delay(words, place) => Expected::DelayAlternative,
        "or" | "closed" => Expected::Alternative,
        "accept" => Expected::Entry(speaker_of(words)),
        "delay" => Expected::Duration,
        "else" | "terminate" => Expected::End,
        _ if is_number && !is_number_begun(before) => Expected::Index,
        _ if text_at(words, place) == "else" && is_after_delay(words, place) => {
            Expected::DelayAlternative
        }
        _ => Expected::Link,
    }
}
