//! Checking a script line by line, on beyond its faults.

use crate::declared::Declarations;
use crate::expected::{Expected, expected_at, is_number_begun};
use crate::faults::{Faulty, Repair, write_fault};
use crate::finding::{Finding, Kind};
use crate::outside::write_outside;
use crate::words::{Word, words_of};
use ada_script::cursor::{Lines, Words};
use ada_script::{
    Cause, MOST_LINES, Names, Statement, check_line, is_name, is_skipped, read_words,
};
use std::alloc::{AllocError, Global};

/// How often a line is repaired before it is given up.
const MOST_REPAIRS: u32 = 4;

/// Finds each faulty line of a text.
pub fn faults_of(alloc: Global, text: &[u8]) -> Result<Vec<Finding>, Cause> {
    let mut checker = Checker {
        alloc,
        names: Names::new(alloc)?,
        declared: Declarations::new(alloc),
        findings: Vec::new(alloc),
    };
    let mut number = 1u32;
    let mut rest = Lines::new(text);
    while let Some(line) = rest.next() {
        checker.check(number, line)?;
        if number > 4096 {
            break;
        }
        number += 1;
    }
    Ok(checker.findings)
}

/// Why the words of a line are no statement: the cause, and the place of the faulty word.
#[derive(Clone, Copy)]
struct Fault {
    cause: Cause,
    place: usize,
}

/// What was read so far, and found.
#[derive(Drop)]
struct Checker {
    alloc: Global,
    names: Names,
    declared: Declarations,
    findings: Vec<Finding>,
}

impl Checker {
    // Checks a line.
    fn check(&mut self, number: u32, line: &[u8]) -> Result<(), Cause> {
        if let Err(cause) = check_line(MOST_LINES, number, line) {
            self.find_outside(number, line, cause)?;
            return self.take_plain(number, line);
        }
        if is_skipped(&Words::new(line)) {
            return Ok(());
        }
        match read_words(self.alloc, &self.names, &mut Words::new(line)) {
            Ok(statement) => self.take(number, statement),
            Err(Cause::OutOfMemory) => Err(Cause::OutOfMemory),
            Err(cause) => self.find(number, line, cause),
        }
    }

    // Keeps a statement.
    fn take(&mut self, number: u32, statement: Statement) -> Result<(), Cause> {
        self.names.declare(&statement)?;
        self.declared.note(self.alloc, number, &statement)?;
        Ok(())
    }

    // A line that is refused before its words are read.
    fn find_outside(&mut self, number: u32, line: &[u8], cause: Cause) -> Result<(), Cause> {
        let mut message = String::new(self.alloc);
        let outside = write_outside(&mut message, line, cause)?;
        let repair = match outside.repair {
            Some(repair) => Some(repair.to_string(self.alloc)?),
            None => None,
        };
        self.findings.push(Finding {
            kind: Kind::Fault(cause),
            line: number,
            place: outside.place,
            length: outside.length,
            message,
            repair,
        })?;
        Ok(())
    }

    // Takes what a line says if each byte outside of printable ASCII is a space, for the sake of the lines after it.
    fn take_plain(&mut self, number: u32, line: &[u8]) -> Result<(), Cause> {
        let mut plain = Vec::new(self.alloc);
        for byte in line {
            let is_plain = 32 <= *byte && *byte <= 126;
            plain.push(if is_plain { *byte } else { b' ' })?;
        }
        match read_words(self.alloc, &self.names, &mut Words::new(&plain)) {
            Ok(statement) => self.take(number, statement),
            Err(Cause::OutOfMemory) => Err(Cause::OutOfMemory),
            Err(_) => Ok(()),
        }
    }

    // A line whose words are no statement, for this cause.
    fn find(&mut self, number: u32, line: &[u8], cause: Cause) -> Result<(), Cause> {
        let words = words_of(self.alloc, line)?;
        let fault = Fault {
            cause,
            place: self.faulty_place(line, &words, cause)?,
        };
        let mut message = String::new(self.alloc);
        let repair = self.write_fault(&mut message, &words, fault)?;
        let (place, length) = extent_of(&words, fault.place);
        self.findings.push(Finding {
            kind: Kind::Fault(cause),
            line: number,
            place,
            length,
            message,
            repair: instead_of(self.alloc, &repair)?,
        })?;
        self.repair(number, &words, fault, repair)
    }

    fn write_fault(
        &self,
        message: &mut String,
        words: &[Word<'_>],
        fault: Fault,
    ) -> Result<Repair, Cause> {
        let faulty = Faulty {
            words,
            place: fault.place,
            expected: expected_at(words, fault.place),
            cause: fault.cause,
        };
        let repair = write_fault(message, faulty, &self.declared)?;
        Ok(repair)
    }

    // The place of the word at which reading a line's words fails. With a further word that can stand nowhere it fails
    // at that one where the line ends too early, and it is the last that was taken.
    fn faulty_place(&self, line: &[u8], words: &[Word<'_>], cause: Cause) -> Result<usize, Cause> {
        let mut longer = Vec::new(self.alloc);
        longer.extend_from_slice(line)?;
        longer.extend_from_slice(b" ?")?;
        let mut rest = Words::new(&longer);
        if let Err(Cause::OutOfMemory) = read_words(self.alloc, &self.names, &mut rest) {
            return Err(Cause::OutOfMemory);
        }
        let place = words.len().saturating_sub(count_of(&mut rest));
        Ok(if is_full(words, place, cause) {
            place + 1
        } else {
            place
        })
    }

    // Reads the line with the faulty word repaired, and repairs it further, for the sake of the lines after it.
    fn repair(
        &mut self,
        number: u32,
        words: &[Word<'_>],
        fault: Fault,
        repair: Repair,
    ) -> Result<(), Cause> {
        let mut line = repaired(self.alloc, words, fault.place, &repair)?;
        for _ in 0..MOST_REPAIRS {
            match read_words(self.alloc, &self.names, &mut Words::new(&line)) {
                Ok(statement) => return self.take(number, statement),
                Err(Cause::OutOfMemory) => return Err(Cause::OutOfMemory),
                Err(cause) => line = self.repaired_again(&line, cause)?,
            }
        }
        self.take_name(number, words)
    }

    // A line with one more word repaired.
    fn repaired_again(&self, line: &[u8], cause: Cause) -> Result<Vec<u8>, Cause> {
        let words = words_of(self.alloc, line)?;
        let fault = Fault {
            cause,
            place: self.faulty_place(line, &words, cause)?,
        };
        let mut message = String::new(self.alloc);
        let repair = self.write_fault(&mut message, &words, fault)?;
        let line = repaired(self.alloc, &words, fault.place, &repair)?;
        Ok(line)
    }

    // Takes the name that a line declares which can't be repaired, for the sake of the lines after it.
    fn take_name(&mut self, number: u32, words: &[Word<'_>]) -> Result<(), Cause> {
        let [_, verb, name, ..] = words else {
            return Ok(());
        };
        if !is_name(name.text.as_bytes()) || self.names.is_declared(name.text.as_bytes()) {
            return Ok(());
        }
        let mut line = match verb.text {
            "create" => format!(in self.alloc; "main: create {} under main", name.text)?,
            "open" => format!(in self.alloc; "main: open {}", name.text)?,
            _ => return Ok(()),
        };
        if verb.text == "create" {
            write_families(&mut line, words)?;
        }
        match read_words(self.alloc, &self.names, &mut Words::new(line.as_bytes())) {
            Ok(statement) => self.take(number, statement),
            Err(Cause::OutOfMemory) => Err(Cause::OutOfMemory),
            Err(_) => Ok(()),
        }
    }
}

// Appends the words of a create that may be its families, each once and 16 at most: all names but those of the task and
// of what it depends on.
fn write_families(line: &mut String, words: &[Word<'_>]) -> Result<(), AllocError> {
    let mut count = 0u32;
    for (i, word) in words.iter().enumerate().skip(3) {
        let is_master = i == 4 || word.text == "under";
        let is_double = words
            .iter()
            .take(i)
            .skip(3)
            .any(|other| other.text == word.text);
        if is_name(word.text.as_bytes()) && !is_master && !is_double && count < 16 {
            write!(line, " {}", word.text)?;
            count += 1;
        }
    }
    Ok(())
}

// How many words are left.
fn count_of(words: &mut Words<'_>) -> usize {
    let mut count = 0usize;
    while let Some(_) = words.next() {
        count = count.saturating_add(1);
    }
    count
}

// How many families a create has up to a place.
fn families_to(words: &[Word<'_>], place: usize) -> usize {
    words
        .iter()
        .take(place.saturating_add(1))
        .skip(5)
        .filter(|word| is_name(word.text.as_bytes()))
        .count()
}

// Whether the word at a place is as it has to be, and the list that it ends may have no further element.
fn is_full(words: &[Word<'_>], place: usize, cause: Cause) -> bool {
    let Some(word) = words.get(place) else {
        return false;
    };
    let is_number = is_number_begun(word.text);
    cause == Cause::BadStatement
        && match expected_at(words, place) {
            Expected::Family => is_name(word.text.as_bytes()),
            Expected::HighBound => is_number && families_to(words, place) == 16,
            Expected::Duration => is_number,
            _ => false,
        }
}

// What to write in place of a faulty word, if it is known.
fn instead_of(alloc: Global, repair: &Repair) -> Result<Option<String>, AllocError> {
    match repair {
        Repair::Words(instead) => Ok(Some(instead.trim().to_string(alloc)?)),
        Repair::Cut | Repair::Joined | Repair::Unknown => Ok(None),
    }
}

// Where a word begins, and how long it is; where the line ends too early, the place after its last word.
fn extent_of(words: &[Word<'_>], place: usize) -> (usize, usize) {
    match words.get(place) {
        Some(word) => (word.place, word.text.len()),
        None => match words.last() {
            Some(word) => (
                word.place.saturating_add(word.text.len()).saturating_add(1),
                1,
            ),
            None => (0, 1),
        },
    }
}

// The line of some words, one of which is repaired.
fn repaired(
    alloc: Global,
    words: &[Word<'_>],
    place: usize,
    repair: &Repair,
) -> Result<Vec<u8>, AllocError> {
    let mut line = Vec::new(alloc);
    for (i, word) in words.iter().enumerate() {
        match repair {
            Repair::Cut if i >= place => break,
            Repair::Words(instead) if i == place => line.extend_from_slice(instead.as_bytes())?,
            Repair::Joined if i == place => {
                line.extend_from_slice(word.text.as_bytes())?;
                continue;
            }
            _ => line.extend_from_slice(word.text.as_bytes())?,
        }
        line.push(b' ')?;
    }
    Ok(line)
}
