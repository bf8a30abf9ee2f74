//! Writing an output whole.
ghost use Rattle.std.specs.Prelude.{◌≡◌, ◌<◌, ℕ, ◌++◌, List, IfErr, OnOk, length, take};
ghost use Rattle.std.specs.Io.KnownBytes.{Appends};

use crate::RunFault;
use std::io::Write;

/// How many bytes of text are gathered before they are written.
pub(crate) const PIECE: usize = 65_536;

/// Writes some bytes, in as many writes as it takes. An error of the writer, or a write that takes
/// nothing, is `Write`, and then a beginning of the bytes was written.
pub fn write_output<W: Write>(writer: &mut W, bytes: &[u8]) -> Result<(), RunFault>
    ensures ok { OnOk result (Appends (W.contents writer.old) (W.contents writer.new) bytes.now) }
    ensures err { IfErr result (λ fault. (fault ≡ RunFault.Write) × (n : ℕ)
        × Appends (W.contents writer.old) (W.contents writer.new) (take n bytes.now)) }
{
    let mut written = 0;
    while written < bytes.len() {
        match writer.write(&bytes[written..]) {
            Ok(0) => return Err(RunFault::Write),
            Ok(count) => written += count,
            Err(_) => return Err(RunFault::Write),
        }
    }
    Ok(())
}

/// Writes a text if it is a piece of 65,536 bytes or more, and leaves in it what isn't written yet. Where
/// the writer refuses, a beginning of the text was written.
pub fn write_piece<W: Write>(writer: &mut W, text: &mut Vec<u8>) -> Result<(), RunFault>
    ensures ok { OnOk result ((written : List ℕ)
        × Appends (W.contents writer.old) (W.contents writer.new) written
        × (text.old.items ≡ written ++ text.new.items)) }
    ensures short { OnOk result (length text.new.items < 65536) }
    ensures err { IfErr result (λ fault. (fault ≡ RunFault.Write) × (n : ℕ)
        × Appends (W.contents writer.old) (W.contents writer.new) (take n text.old.items)) }
{
    if text.len() >= PIECE {
        write_output(writer, text)?;
        text.clear();
    }
    Ok(())
}
