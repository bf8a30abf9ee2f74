//! What is wrong with a word, and what to write instead.

use crate::declared::Declarations;
use crate::expected::{Expected, VERBS, is_number_begun};
use crate::nearest::nearest_of;
use crate::words::Word;
use ada_script::{Cause, Name, is_name};
use std::alloc::{AllocError, Global};

/// What to write in place of a faulty word, for the sake of the lines after it.
#[derive(Drop)]
pub enum Repair {
    /// These words.
    Words(String),
    /// Nothing, and nothing of what follows.
    Cut,
    /// The word and the next one, as one word.
    Joined,
    /// It isn't known.
    Unknown,
}

/// A faulty word of a line: the words, the place among them, what had to stand there, and why it doesn't.
#[derive(Clone, Copy)]
pub struct Faulty<'a> {
    pub words: &'a [Word<'a>],
    pub place: usize,
    pub expected: Expected<'a>,
    pub cause: Cause,
}

impl<'a> Faulty<'a> {
    /// The faulty word, empty where the line ends too early.
    pub fn word(self) -> &'a str {
        match self.words.get(self.place) {
            Some(word) => word.text,
            None => "",
        }
    }
}

// How what has to stand at a place is called.
fn expected_text(expected: Expected<'_>) -> &'static str {
    match expected {
        Expected::Speaker => "a speaker with a colon, as `main:`",
        Expected::Verb => "a verb",
        Expected::NewName => "a new name",
        Expected::Under => "`under`",
        Expected::Master => "the task or the block that it depends on",
        Expected::Family | Expected::Entry(_) => "the name of an entry",
        Expected::LowBound => "the low bound",
        Expected::HighBound => "the high bound",
        Expected::Task => "the name of a task",
        Expected::Moment => "a moment in milliseconds",
        Expected::Duration => "a duration in milliseconds",
        Expected::Pick => "the pick, a number such as 0",
        Expected::Index => "an index",
        Expected::Within => "`within` and a duration",
        Expected::Alternative => "an alternative: `accept`, `delay` or `terminate`",
        Expected::DelayAlternative => "`delay`",
        Expected::Link => "`or` or `else`",
        Expected::Attribute => "`callable`, `terminated` or `count`",
        Expected::End => "the end of the line",
    }
}

/// Appends how what has to stand at a place is called.
fn write_expected(message: &mut String, expected: Expected<'_>) -> Result<(), AllocError> {
    message.push_str(expected_text(expected))?;
    match expected {
        Expected::Entry(task) => write!(message, " of `{task}`"),
        _ => Ok(()),
    }
}

/// Appends what is wrong with a faulty word.
pub fn write_fault(
    message: &mut String,
    faulty: Faulty<'_>,
    declared: &Declarations,
) -> Result<Repair, AllocError> {
    if faulty.place >= faulty.words.len() {
        write!(message, "the line ends too early: expected ")?;
        write_expected(message, faulty.expected)?;
        return Ok(Repair::Unknown);
    }
    if let Some(repair) = write_slip(message, faulty)? {
        return Ok(repair);
    }
    match faulty.cause {
        Cause::BadNumber => write_number(message, faulty),
        Cause::UnknownName => write_unknown(message, faulty, declared),
        Cause::DoubleName => write_double(message, faulty, declared),
        _ => write_statement(message, faulty, declared),
    }
}

// The word with spaces in place of what separates elsewhere.
fn separated(alloc: Global, word: &str) -> Result<String, AllocError> {
    let mut text = String::new(alloc);
    for character in word.chars() {
        if !matches!(character, '(' | ')' | ',' | '.') {
            text.push(character)?;
        } else if !text.ends_with(' ') {
            text.push(' ')?;
        }
    }
    Ok(text)
}

// What is wrong with a word whatever has to stand at its place, if it is one of the usual slips.
fn write_slip(message: &mut String, faulty: Faulty<'_>) -> Result<Option<Repair>, AllocError> {
    let word = faulty.word();
    let alloc = *message.allocator();
    let is_comment = word.starts_with('#') || word.starts_with("--");
    if is_comment && faulty.cause == Cause::BadStatement {
        write!(
            message,
            "a comment begins with `#`, and stands on a line of its own"
        )?;
        return Ok(Some(Repair::Cut));
    }
    if let Some(rest) = word.strip_suffix(';') {
        write!(message, "no semicolon ends a statement: leave it out")?;
        return Ok(Some(Repair::Words(rest.to_string(alloc)?)));
    }
    if let Some((name, verb)) = word.split_once('.')
        && faulty.expected == Expected::Speaker
        && is_name(name.as_bytes())
        && VERBS.contains(&verb)
    {
        write!(
            message,
            "a speaker ends with a colon: write `{name}: {verb}`"
        )?;
        return Ok(Some(Repair::Words(format!(in alloc; "{name}: {verb}")?)));
    }
    let is_joined = word.contains('(') || word.contains(',') || word.contains('.');
    if is_number_begun(word) || !is_joined {
        return Ok(None);
    }
    let instead = separated(alloc, word)?;
    write!(
        message,
        "words are separated by spaces alone: write `{}`",
        instead.trim()
    )?;
    Ok(Some(Repair::Words(instead)))
}

// The largest range of numbers at a place.
fn range_of(expected: Expected<'_>) -> &'static str {
    match expected {
        Expected::Pick => "0 to 4294967295",
        Expected::Moment | Expected::Duration => "-9223372036854775808 to 9223372036854775807",
        _ => "-2147483648 to 2147483647",
    }
}

// A number without what it may not begin with.
fn plain_number(word: &str) -> &str {
    let unsigned = word.strip_prefix('+').unwrap_or(word);
    let digits = unsigned.strip_prefix('-').unwrap_or(unsigned);
    match digits.trim_start_matches('0') {
        "" => "0",
        plain => plain,
    }
}

fn write_number(message: &mut String, faulty: Faulty<'_>) -> Result<Repair, AllocError> {
    let alloc = *message.allocator();
    let word = faulty.word();
    let unsigned = word.strip_prefix('+').unwrap_or(word);
    let digits = unsigned.strip_prefix('-').unwrap_or(unsigned);
    let is_whole = !digits.is_empty() && digits.bytes().all(|byte| byte.is_ascii_digit());
    if faulty.expected == Expected::Pick && is_name(word.as_bytes()) {
        write!(message, "the pick comes first, a number: write `0 {word}`")?;
        return Ok(Repair::Words(format!(in alloc; "0 {word}")?));
    }
    if is_whole && (digits.starts_with('0') || word.starts_with('+')) {
        let plain = plain_number(word);
        let is_negative = word.starts_with('-') && plain != "0";
        let sign = if is_negative { "-" } else { "" };
        write!(
            message,
            "a number has no plus sign and no zero in front: write `{sign}{plain}`"
        )?;
        return Ok(Repair::Words(format!(in alloc; "{sign}{plain}")?));
    }
    if is_whole {
        write!(
            message,
            "`{word}` is out of range: {}",
            range_of(faulty.expected)
        )?;
    } else {
        write!(message, "expected ")?;
        write_expected(message, faulty.expected)?;
        write!(message, ", a whole number, not `{word}`")?;
    }
    Ok(Repair::Unknown)
}

// Appends what was meant perhaps.
fn write_meant(message: &mut String, meant: Option<&str>) -> Result<Repair, AllocError> {
    match meant {
        Some(word) => {
            write!(message, ": did you mean `{word}`?")?;
            Ok(Repair::Words(word.to_string(*message.allocator())?))
        }
        None => Ok(Repair::Unknown),
    }
}

// The entries that a task has.
fn write_entries(message: &mut String, entries: &[Name]) -> Result<(), AllocError> {
    let mut before = ": it has ";
    for entry in entries {
        write!(message, "{before}`{}`", entry.as_str())?;
        before = ", ";
    }
    if entries.is_empty() {
        write!(message, ": it has none")?;
    }
    Ok(())
}

fn write_unknown(
    message: &mut String,
    faulty: Faulty<'_>,
    declared: &Declarations,
) -> Result<Repair, AllocError> {
    let alloc = *message.allocator();
    let word = faulty.word();
    if let Expected::Entry(task) = faulty.expected {
        write!(message, "`{task}` has no entry `{word}`")?;
        let meant = declared.nearest_entry(alloc, task, word)?;
        if meant.is_none() {
            write_entries(message, declared.entries(task))?;
        }
        return write_meant(message, meant);
    }
    let name = word.strip_suffix(':').unwrap_or(word);
    if word == "tick:" {
        write!(
            message,
            "a tick has no speaker: write `tick` without a colon"
        )?;
        return Ok(Repair::Words("tick".to_string(alloc)?));
    }
    let is_task = faulty.expected != Expected::Master;
    if declared.get(name).is_some() {
        write!(message, "`{name}` is a block, and a task has to stand here")?;
        return Ok(Repair::Unknown);
    }
    let kind = if is_task { "task" } else { "task and no block" };
    write!(message, "no {kind} `{name}` is declared above")?;
    match declared.nearest(alloc, name, is_task)? {
        Some(meant) if faulty.expected == Expected::Speaker => {
            let speaker = format!(in alloc; "{meant}:")?;
            write_meant(message, Some(speaker.as_str()))
        }
        meant => write_meant(message, meant),
    }
}

fn write_double(
    message: &mut String,
    faulty: Faulty<'_>,
    declared: &Declarations,
) -> Result<Repair, AllocError> {
    let word = faulty.word();
    match declared.get(word) {
        _ if faulty.expected == Expected::Family => {
            write!(message, "the entry `{word}` is declared twice")?;
        }
        Some(other) => {
            write!(
                message,
                "`{word}` is declared at line {} already",
                other.line
            )?;
        }
        None => write!(message, "`{word}` is the main program")?,
    }
    Ok(Repair::Unknown)
}

// What is wrong with a word that can't be what has to stand at its place.
fn write_statement(
    message: &mut String,
    faulty: Faulty<'_>,
    declared: &Declarations,
) -> Result<Repair, AllocError> {
    match faulty.expected {
        Expected::Speaker => write_speaker(message, faulty),
        Expected::Verb => write_verb(message, faulty, declared),
        Expected::Attribute => {
            write_keyword(
                message,
                faulty,
                ["callable", "terminated", "count"].as_slice(),
            )
        }
        Expected::Alternative => write_alternative(message, faulty),
        Expected::DelayAlternative => {
            write!(
                message,
                "after a delay alternative only delay alternatives may follow"
            )?;
            Ok(Repair::Cut)
        }
        Expected::Under => write_under(message, faulty, declared),
        Expected::Within => write_keyword(message, faulty, ["within"].as_slice()),
        Expected::Link => write_link(message, faulty),
        Expected::End => {
            write!(message, "nothing may follow here")?;
            Ok(Repair::Cut)
        }
        _ => write_name(message, faulty),
    }
}

// A verb and what follows it, if they stand in one word: a verb that declares or accepts with any name, another one
// with a name that is declared.
fn grown<'a>(word: &'a str, declared: &Declarations) -> Option<(&'static str, &'a str)> {
    for verb in VERBS {
        if let Some(name) = word.strip_prefix(verb)
            && is_name(name.as_bytes())
            && (matches!(verb, "create" | "open" | "accept") || declared.get(name).is_some())
        {
            return Some((verb, name));
        }
    }
    None
}

fn write_verb(
    message: &mut String,
    faulty: Faulty<'_>,
    declared: &Declarations,
) -> Result<Repair, AllocError> {
    let alloc = *message.allocator();
    let word = faulty.word();
    let follows = match faulty.words.get(faulty.place.saturating_add(1)) {
        Some(next) => next.text,
        None => "",
    };
    if let Some((verb, name)) = grown(word, declared) {
        write!(message, "a space is missing: write `{verb} {name}`")?;
        Ok(Repair::Words(format!(in alloc; "{verb} {name}")?))
    } else if follows == "under" && is_name(word.as_bytes()) {
        write!(message, "the verb is missing: write `create {word}`")?;
        Ok(Repair::Words(format!(in alloc; "create {word}")?))
    } else {
        write_keyword(message, faulty, VERBS.as_slice())
    }
}

fn write_keyword(
    message: &mut String,
    faulty: Faulty<'_>,
    keywords: &[&str],
) -> Result<Repair, AllocError> {
    let word = faulty.word();
    write!(message, "expected ")?;
    write_expected(message, faulty.expected)?;
    write!(message, ", not `{word}`")?;
    let meant = nearest_of(*message.allocator(), word, keywords)?;
    write_meant(message, meant)
}

fn write_alternative(message: &mut String, faulty: Faulty<'_>) -> Result<Repair, AllocError> {
    let is_after_or = match faulty.words.get(faulty.place.saturating_sub(1)) {
        Some(before) => before.text == "or",
        None => false,
    };
    if faulty.word() == "else" && is_after_or {
        write!(message, "`else` stands without `or` before it")?;
        return Ok(Repair::Unknown);
    }
    let keywords = ["accept", "delay", "terminate", "closed", "else"];
    write_keyword(message, faulty, keywords.as_slice())
}

fn write_link(message: &mut String, faulty: Faulty<'_>) -> Result<Repair, AllocError> {
    let word = faulty.word();
    if word == "or" {
        write!(
            message,
            "a select has at most 16 accept and 8 delay alternatives"
        )?;
        return Ok(Repair::Cut);
    }
    write_keyword(message, faulty, ["or", "else"].as_slice())
}

fn write_under(
    message: &mut String,
    faulty: Faulty<'_>,
    declared: &Declarations,
) -> Result<Repair, AllocError> {
    let alloc = *message.allocator();
    let word = faulty.word();
    if let Some(master) = word.strip_prefix("under")
        && (master == "main" || declared.get(master).is_some())
    {
        write!(message, "a space is missing: write `under {master}`")?;
        return Ok(Repair::Words(format!(in alloc; "under {master}")?));
    }
    write!(message, "`under` is missing, as in `create S under main`")?;
    if nearest_of(alloc, word, ["under"].as_slice())?.is_some() {
        return Ok(Repair::Words("under".to_string(alloc)?));
    }
    let master = if word == "main" || declared.get(word).is_some() {
        format!(in alloc; "under {word}")?
    } else {
        format!(in alloc; "under main {word}")?
    };
    Ok(Repair::Words(master))
}

fn write_speaker(message: &mut String, faulty: Faulty<'_>) -> Result<Repair, AllocError> {
    let alloc = *message.allocator();
    let word = faulty.word();
    let follows = match faulty.words.get(1) {
        Some(next) => next.text == ":",
        None => false,
    };
    if follows {
        write!(message, "the colon belongs to the name: write `{word}:`")?;
        return Ok(Repair::Joined);
    }
    if word.ends_with("::") {
        let name = word.trim_end_matches(':');
        write!(message, "one colon is enough: write `{name}:`")?;
        return Ok(Repair::Words(format!(in alloc; "{name}:")?));
    }
    if word.ends_with(':') {
        return write_name(message, faulty);
    }
    match word.split_once(':') {
        Some((name, rest)) => write_split(message, name, rest.trim_start_matches(':')),
        None => write_without_colon(message, word),
    }
}

// A speaker and what follows it, in one word.
fn write_split(message: &mut String, name: &str, rest: &str) -> Result<Repair, AllocError> {
    let alloc = *message.allocator();
    if name == "tick" {
        write!(message, "a tick has no speaker: write `tick {rest}`")?;
        return Ok(Repair::Words(format!(in alloc; "tick {rest}")?));
    }
    write!(
        message,
        "a space has to follow the colon: write `{name}: {rest}`"
    )?;
    Ok(Repair::Words(format!(in alloc; "{name}: {rest}")?))
}

// Words that begin a line of an Ada text, and are no verbs here.
const OF_ADA: [&str; 14] = [
    "task",
    "entry",
    "procedure",
    "function",
    "package",
    "with",
    "use",
    "begin",
    "declare",
    "loop",
    "if",
    "case",
    "null",
    "pragma",
];

// What is wrong with a word that begins a line without a colon.
fn write_without_colon(message: &mut String, word: &str) -> Result<Repair, AllocError> {
    let alloc = *message.allocator();
    if OF_ADA.iter().any(|other| word.eq_ignore_ascii_case(other)) {
        write!(message, "`{word}` is of an Ada text; ")?;
        write!(
            message,
            "here `main: create T under main E` makes a task, and `T: accept E` is what it does"
        )?;
        Ok(Repair::Unknown)
    } else if word.eq_ignore_ascii_case("tick") {
        write!(message, "case counts: write `tick`")?;
        Ok(Repair::Words("tick".to_string(alloc)?))
    } else if VERBS.contains(&word) {
        write!(message, "the speaker is missing, as in `main: {word}`")?;
        Ok(Repair::Words(format!(in alloc; "main: {word}")?))
    } else if is_name(word.as_bytes()) {
        write!(
            message,
            "a line begins with its speaker and a colon: write `{word}:`"
        )?;
        Ok(Repair::Words(format!(in alloc; "{word}:")?))
    } else {
        write!(
            message,
            "a line begins with its speaker and a colon, as `main:`"
        )?;
        Ok(Repair::Unknown)
    }
}

fn write_name(message: &mut String, faulty: Faulty<'_>) -> Result<Repair, AllocError> {
    let alloc = *message.allocator();
    let word = faulty.word();
    let name = if faulty.place == 0 {
        word.strip_suffix(':').unwrap_or(word)
    } else {
        word
    };
    if faulty.expected == Expected::Family && is_name(name.as_bytes()) {
        write!(message, "a task has at most 16 families of entries")?;
        return Ok(Repair::Cut);
    }
    if name.is_empty() {
        write!(message, "the speaker's name is missing before the colon")?;
        return Ok(Repair::Unknown);
    }
    if name.len() > 16 {
        write!(
            message,
            "a name has at most 16 characters, and this one {}",
            name.len()
        )?;
        let short = name.get(..16).unwrap_or(name);
        return Ok(Repair::Words(short.to_string(alloc)?));
    }
    write!(
        message,
        "`{name}` can't be a name: that is a letter, and then letters, digits and underscores"
    )?;
    Ok(Repair::Unknown)
}
