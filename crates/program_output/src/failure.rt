// Telling a failure of the system on standard error.
ghost use Rattle.program_output.specs.Written.{Grows};

use crate::write;
use std::io::{Error, Write};
use std::str;

// The system's text for an error, without its number.
fn system_text(told: &[u8]) -> &str {
    let text = str::from_utf8(told).unwrap_or("");
    text.rsplit_once(" (os error ")
        .map_or(text, |(words, _)| words)
}

// How the error is told, at the start of told, and the room that is left after it.
fn put_error(error: Error, told: &mut [u8]) -> usize {
    let mut rest: &mut [u8] = told;
    let _ = write!(rest, "{error}");
    rest.len()
}

// Writes a line to standard error: what failed, as the caller names it, a colon and the system's text. What standard error does not take is not told.
pub fn fail<E: Write>(errors: &mut E, what: &[u8], error: Error)
    ensures { Grows (E.contents errors.old) (E.contents errors.new) }
{
    let mut told = [0u8; 256];
    let left = put_error(error, &mut told);
    let text = system_text(&told[..told.len().saturating_sub(left)]);
    for part in [what, b": ", text.as_bytes(), b"\n"] {
        let _ = write(errors, part);
    }
}
