// Text, numbers and digests on standard output. A write that fails leaves its text out.
use reorder_session::Session;
use std::io::Stdout;

pub(crate) fn text(stdout: Stdout, text: &str) {
    let _ = stdout.write_all(text.as_bytes());
}

// A space and a number.
pub(crate) fn entry(stdout: Stdout, n: u64) {
    text(stdout, " ");
    let _ = stdout.print(n);
}

// A name and a number.
pub(crate) fn named(stdout: Stdout, name: &str, n: u64) {
    text(stdout, name);
    entry(stdout, n);
}

pub(crate) fn session(stdout: Stdout, s: Session) {
    named(stdout, ", session", u64::from(s.anchor.count));
    for n in [
        s.anchor.time,
        s.sum_word,
        s.threshold,
        s.window.start,
        s.window.marks,
    ] {
        entry(stdout, u64::from(n));
    }
}

// A digest taken on by one more number.
pub(crate) fn digested(digest: u64, number: u64) -> u64 {
    (digest % 4294967291 * 257 + number % 4294967291) % 4294967291
}

// A digest that is easy to work out again: it starts at 1, and each byte in turn makes (257 × digest + byte) mod 4,294,967,291 of it.
pub(crate) fn digest(bytes: &[u8]) -> u64 {
    bytes
        .iter()
        .fold(1, |made, byte| digested(made, u64::from(*byte)))
}
