// The parts that several lines share, and digests.

use refusal::Refusal;
use std::io;

pub(crate) fn refused(rt: &impl Print, refusal: Refusal) -> io::Result<()> {
    print!(rt; " refused {}", u8::from(refusal))
}

// Says so where an answer is not the one that is due.
pub(crate) fn check(rt: &impl Print, answer: u8, due: u64) -> io::Result<()> {
    if u64::from(answer) != due {
        print!(rt; " BUT DUE IS {due}")?;
    }
    Ok(())
}

// A line for each 20 bytes, with the number of its first record byte.
pub(crate) fn lines(rt: &impl Print, bytes: &[u8]) -> io::Result<()> {
    for (k, byte) in bytes.iter().enumerate() {
        if k % 20 == 0 {
            print!(rt; "\n  byte {}:", k + 1)?;
        }
        print!(rt; " {byte}")?;
    }
    Ok(())
}

// A digest taken on by more numbers; it is easy to work out again. It starts at 1, and each number in turn makes (257 × digest + number) mod 4,294,967,291 of it.
pub(crate) fn digested<T: Copy>(digest: u64, numbers: &[T]) -> u64
where
    u64: From<T>,
{
    let mut made = digest;
    for number in numbers {
        made = (made % 4_294_967_291 * 257 + u64::from(*number) % 4_294_967_291) % 4_294_967_291;
    }
    made
}
