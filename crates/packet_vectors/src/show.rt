// The parts that the lines of several tables share.

use refusal::Refusal;
use std::io;

// How the line of a case starts: what is done, the row's number, and the sum word that the library is told.
pub(crate) fn head(rt: &impl Print, name: &str, i: usize, word: usize) -> io::Result<()> {
    print!(rt; "{name} {i} word {word}")
}

pub(crate) fn refused(rt: &impl Print, refusal: Refusal) -> io::Result<()> {
    print!(rt; ": refused {}", u8::from(refusal))
}

// Says so where an answer is not the one that is due.
pub(crate) fn check(rt: &impl Print, answer: u8, due: u64) -> io::Result<()> {
    if answer as u64 != due {
        print!(rt; " BUT DUE IS {due}")?;
    }
    Ok(())
}

pub(crate) fn list(rt: &impl Print, bytes: &[u8]) -> io::Result<()> {
    for byte in bytes {
        print!(rt; " {byte}")?;
    }
    Ok(())
}

// A digest that is easy to work out again: it starts at 1, and each byte in turn makes (257 × digest + byte) mod 65,521 of it.
pub(crate) fn digest(bytes: &[u8]) -> u64 {
    let mut made = 1;
    for byte in bytes {
        made = (made * 257 + *byte as u64) % 65521;
    }
    made
}
