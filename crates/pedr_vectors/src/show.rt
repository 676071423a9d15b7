// The parts that several lines share, and digests.

use std::{fmt, io};

// As many entries as there are numbers.
pub(crate) fn entries<T: fmt::Display>(rt: &impl Print, numbers: &[T]) -> io::Result<()> {
    for number in numbers {
        print!(rt; " {number}")?;
    }
    Ok(())
}

// Says so where an answer is not the one that is due.
pub(crate) fn check(rt: &impl Print, answer: u8, due: u64) -> io::Result<()> {
    if answer as u64 != due {
        print!(rt; " BUT DUE IS {due}")?;
    }
    Ok(())
}

// A digest taken on by more numbers. It starts at 1, and each number makes (257 × digest + number) mod 65,521 of it.
pub(crate) fn digested(digest: u64, numbers: &[u64]) -> u64 {
    let mut made = digest;
    for number in numbers {
        made = (made % 65521 * 257 + number % 65521) % 65521;
    }
    made
}

pub(crate) fn digest(bytes: &[u8]) -> u64 {
    let mut made = 1;
    for byte in bytes {
        made = digested(made, &[u64::from(*byte)]);
    }
    made
}
