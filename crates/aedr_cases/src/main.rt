// Checks files of data/, one after the other, and last an input that cannot be read. After each name stands what the check prints, then what
// it answers. The files, and what is to be printed for them, were worked out apart from this program and the library.
#![tactic(auto)]

use aedr_io::Checked;
use std::fs::File;
use std::io;
use std::io::{Error, Read};

// An input whose every read fails, as a descriptor's that is not open.
#[derive(Drop)]
struct Closed;

impl Read for Closed {
    fn read(&mut self, _buf: &mut [u8]) -> io::Result<usize> {
        Err(Error::from_raw_os_error(9))
    }
}

// The files of data/.
const FILES: [&str; 10] = [
    "empty",
    "short_1",
    "short_149",
    "short_150",
    "short_151",
    "short_1229",
    "exact",
    "mixed",
    "buffer",
    "many",
];

fn check<R: Read>(rt: HostRuntime, input: &mut R) {
    let Checked {
        records,
        complete,
        ..
    } = aedr_io::check_file(input, &mut rt.stdout(), &mut rt.stderr());
    let word = if complete { "complete" } else { "incomplete" };
    let _ = println!(rt; "{word} {records}");
}

fn check_named(rt: HostRuntime, name: &str) {
    let _ = println!(rt; "{name}");
    match File::open(&rt, name) {
        Ok(mut input) => check(rt, &mut input),
        Err(error) => program_output::fail(&mut rt.stderr(), name.as_bytes(), error),
    }
}

fn main(rt: HostRuntime) {
    for name in FILES {
        check_named(rt, name);
    }
    let _ = println!(rt; "no file");
    check(rt, &mut Closed);
}
