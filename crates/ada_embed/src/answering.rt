//! Answers in numbers.
ghost use Rattle.std.specs.Prelude.{◌≡◌};
ghost use Rattle.ada_border.specs.Answers.{IsCounted, IsTold, or_bad as found_or};
ghost use Rattle.ada_embed.specs.Lasting.{IsToldOr};

use ada_border::Bad;
use ada_border::codes::{ACCEPTED, bad_code, refusal_code};
use ada_events::Refusal;

/// Writes the answer to a question, if it has one.
pub fn tell<T: Copy>(told: Result<T, Bad>, out: &mut T) -> i32
    ensures { IsTold told result out.old out.new }
{
    match told {
        Ok(told) => {
            *out = told;
            ACCEPTED
        }
        Err(bad) => bad_code(bad),
    }
}

/// Writes the answer to a question, if it has one, and else answers the code of why it hasn't.
pub fn tell_or<T: Copy>(told: Result<T, i32>, out: &mut T) -> i32
    ensures { IsToldOr told result out.old out.new }
{
    match told {
        Ok(told) => {
            *out = told;
            ACCEPTED
        }
        Err(code) => code,
    }
}

/// Writes how many calls there are, if they were counted.
pub fn tell_count(counted: Result<Result<u16, Refusal>, Bad>, out: &mut u32) -> i32
    ensures { IsCounted counted result out.old out.new }
{
    match counted {
        Ok(Ok(count)) => {
            *out = u32::from(count);
            ACCEPTED
        }
        Ok(Err(cause)) => refusal_code(cause),
        Err(bad) => bad_code(bad),
    }
}

/// What was found, or what is wrong if nothing was.
pub fn or_bad<T: Copy>(found: Option<T>, bad: Bad) -> Result<T, Bad>
    ensures { result ≡ found_or found bad }
{
    match found {
        Some(told) => Ok(told),
        None => Err(bad),
    }
}
