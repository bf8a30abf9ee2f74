//! Codes of what a kernel that lives on doesn't do, and of what only the other kind of kernel does.
ghost use Rattle.std.specs.Prelude.{◌≡◌};
ghost use Rattle.ada_embed.specs.Codes as spec;

use ada_border::codes::refusal_code;
use ada_compact::NotCompacted;
use ada_lasting::NotDone;

/// What the number names was given up.
pub const GIVEN_UP: i32 = 108;
/// Only a kernel that keeps everything does this.
pub const LIVES_ON: i32 = 113;
/// Only a kernel that lives on does this.
pub const KEEPS_ALL: i32 = 114;

fn shortening_code(why: NotCompacted) -> i32
    ensures { result ≡ spec.shortening_code why }
{
    match why {
        NotCompacted::OutOfMemory => 111,
        _ => 110,
    }
}

/// The code of what wasn't done.
pub fn lasting_code(cause: NotDone) -> i32
    ensures { result ≡ spec.lasting_code cause }
{
    match cause {
        NotDone::Refused(cause) => refusal_code(cause),
        NotDone::GivenUp(_) => GIVEN_UP,
        NotDone::NotTerminated(_) => 109,
        NotDone::NotCompacted(why) => shortening_code(why),
        NotDone::NoMoreNames => 112,
    }
}
