//! Reading an input whole.
ghost use Rattle.std.specs.Prelude.{◌≡◌, ℕ, ◌+◌, ◌-◌, ◌<◌, ◌≤◌, ◌++◌, List, IfOk, IfErr, IfSome, vec_len, length};
ghost use Rattle.std.specs.Io.KnownBytes.{Consumes, IsAtEnd};
ghost use Rattle.ada_replay.specs.Input.{text_of, IsInputFault, TakesAtMost};

use crate::RunFault;
use std::alloc::Global;
use std::io::Read;

/// The most bytes that are read: a longer input is no script.
pub const MOST_BYTES: usize = 823_297;

/// How many bytes are asked for at a time.
const PIECE: usize = 65_536;

// So many zeros.
fn zeros(alloc: Global, count: usize) -> Result<Vec<u8>, RunFault>
    ensures ok { IfOk result (λ zeros. vec_len zeros ≡ count) }
    ensures err { IfErr result IsInputFault }
{
    vec![in alloc; 0u8; count].map_err(|_| RunFault::Memory)
}

// Reads once, at most a piece, and appends what was read; 0 at the end of the input.
fn read_piece<R: Read>(
    reader: &mut R,
    piece: &mut [u8],
    text: &mut Vec<u8>,
) -> Result<usize, RunFault>
    requires room { 0 < length piece.old }
    requires below { vec_len text.old < 823297 }
    ensures bytes { IfOk result (λ n. (bytes : List ℕ)
        × Consumes (R.remaining reader.old) (R.remaining reader.new) bytes
        × (text.new.items ≡ text.old.items ++ bytes) × (length bytes ≡ n)) }
    ensures bound { IfOk result (λ n. (vec_len text.new ≡ vec_len text.old + n)
        × (vec_len text.new ≤ 823297)) }
    ensures end { IfOk result (λ n. n ≡ 0 → IsAtEnd (R.remaining reader.new)) }
    ensures err { IfErr result IsInputFault }
    ensures taken { TakesAtMost (823297 - vec_len text.old) (R.remaining reader.old)
        (R.remaining reader.new) }
{
    let room = piece.len().min(MOST_BYTES - text.len());
    let read = reader.read(&mut piece[..room]).map_err(|_| RunFault::Read)?;
    text.extend_from_slice(&piece[..read])
        .map_err(|_| RunFault::Memory)?;
    Ok(read)
}

/// Reads an input to its end, or its first 823,297 bytes. Any error of the reader is `Read`.
pub fn read_input<R: Read>(alloc: Global, reader: &mut R) -> Result<Vec<u8>, RunFault>
    ensures ok { IfOk result (λ text.
        IfSome (R.remaining reader.old) (λ bytes. text.items ≡ text_of bytes)) }
    ensures err { IfErr result IsInputFault }
    ensures taken { TakesAtMost 823297 (R.remaining reader.old) (R.remaining reader.new) }
{
    let mut piece = zeros(alloc, PIECE)?;
    let mut text = Vec::new(alloc);
    let mut more = true;
    while more && text.len() < MOST_BYTES {
        let read = read_piece(reader, &mut piece, &mut text)?;
        more = read > 0;
    }
    Ok(text)
}
