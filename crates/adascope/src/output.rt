//! The standard output, and standard error.

use ada_findings::ScopeFault;
use ada_replay::RunFault;
use std::io::{Eprint, Error, ErrorKind, Print};

/// Writes a text whole.
pub(crate) fn write_text<R: Print>(rt: &R, text: &str) -> Result<(), ScopeFault> {
    write_bytes(rt, text.as_bytes())
}

/// Writes bytes whole.
pub(crate) fn write_bytes<R: Print>(rt: &R, bytes: &[u8]) -> Result<(), ScopeFault> {
    rt.write_all(bytes).map_err(|fault| refused(&fault))
}

/// Writes a text to standard error; if this can't be written, it is lost.
pub(crate) fn write_aside<R: Eprint>(rt: &R, text: &str) {
    let _ = eprint!(rt; "{text}");
}

/// Why a text wasn't written. That its reader went away is nobody's fault.
pub(crate) fn refused(fault: &Error) -> ScopeFault {
    match fault.kind() {
        ErrorKind::BrokenPipe => ScopeFault::Closed,
        _ => ScopeFault::Run(RunFault::Write),
    }
}
