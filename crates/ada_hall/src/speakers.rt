//! Who speaks the lines of a script.
ghost use Rattle.std.specs.Prelude.{◌≡◌, ◌-◌, ◌^◌, min, length, option_map, slice_get};
ghost use Rattle.ada_hall.specs.Speakers.{speaker_in, created_in, created, speaker_count, speaker_name, is_spoken_by};

use ada_script::{Line, Name, Statement};

/// The name of the task that speaks a statement; none for a tick, which is the main program's.
pub fn speaker(statement: &Statement) -> Option<&Name>
    ensures { option_map (λ name. name.now) result ≡ speaker_in statement.now }
{
    match statement {
        Statement::Tick { .. } => None,
        Statement::Open { by, .. }
        | Statement::Create { by, .. }
        | Statement::Activate { by, .. }
        | Statement::Up { by }
        | Statement::Fail { by }
        | Statement::Call { by, .. }
        | Statement::CallWithin { by, .. }
        | Statement::Try { by, .. }
        | Statement::Accept { by, .. }
        | Statement::Select { by, .. }
        | Statement::End { by }
        | Statement::Raise { by }
        | Statement::Close { by }
        | Statement::Delay { by, .. }
        | Statement::Complete { by }
        | Statement::Abort { by, .. }
        | Statement::ShowCallable { by, .. }
        | Statement::ShowTerminated { by, .. }
        | Statement::ShowCount { by, .. } => Some(by),
    }
}

/// How many tasks the lines create.
pub fn creations(lines: &[Line]) -> usize
    ensures { result ≡ length (created lines.now) }
{
    let mut count = 0;
    for line in lines {
        if created(&line.statement).is_some() {
            count += 1;
        }
    }
    count
}

/// How many tasks speak: the main program, and each task that a line creates.
pub fn speakers(lines: &[Line]) -> u32
    ensures { result ≡ min (speaker_count lines.now) (2 ^ 32 - 1) }
{
    u32::try_from(creations(lines))
        .unwrap_or(u32::MAX)
        .saturating_add(1)
}

/// The name of the task that a statement creates, if it creates one.
fn created(statement: &Statement) -> Option<&Name>
    ensures { option_map (λ name. name.now) result ≡ created_in statement.now }
{
    match statement {
        Statement::Create { task, .. } => Some(task),
        _ => None,
    }
}

// The name of the task that the lines create behind so many others.
fn created_name(lines: &[Line], number: u32) -> Option<Name>
    ensures { result ≡ slice_get (created lines.now) number }
{
    let mut left = number;
    for line in lines {
        if let Some(name) = created(&line.statement) {
            if left == 0 {
                return Some(name.copy());
            }
            left -= 1;
        }
    }
    None
}

/// The name of a speaker: of the main program for 0, and of the task of the k-th creation for k. None where
/// there is no such speaker.
pub fn speaker_name(lines: &[Line], speaker: u32) -> Option<Name>
    ensures { result ≡ speaker_name lines.now speaker }
{
    if speaker == 0 {
        return Some(Name::from_bytes(b"main"));
    }
    created_name(lines, speaker - 1)
}

/// Whether a statement is that of the task of this name; ticks are the main program's.
pub fn is_spoken_by(name: &Name, statement: &Statement) -> bool
    ensures { result ≡ is_spoken_by name.now statement.now }
{
    match speaker(statement) {
        Some(by) => by == name,
        None => *name == Name::from_bytes(b"main"),
    }
}
