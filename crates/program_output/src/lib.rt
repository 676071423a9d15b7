// Writing the text of a program. The call stands in `write_once` alone, and what its answer means and makes of a text in functions with an equation: the loop in
// `write` only passes values on. A failure is told on standard error by the name of the call and the system's text, as `write: Broken pipe`.
//
// `print` and `print_error` promise that the bytes which a writer got are the first of the text, as many as its writes took; behind them `print_error` tells a
// failure. Standard output is a writer of which no contract can say what it got. So this stays unproved, and tests/program.rs runs a program on outputs that fail:
// - that the bytes which standard output took are those that come out of the program;
// - that a failure is told on standard error.
#![tactic(auto)]

ghost use Rattle.std.specs.Prelude.{◌≡◌, ◌+◌, ◌≤◌, length, take};
ghost use Rattle.std.specs.Result.{result_ok};
ghost use Rattle.std.specs.Io.KnownBytes.{Appends};
ghost use Rattle.program_output.specs.Written.{write_meaning, WroteWithin, bytes_taken, after_write, TextWritten, text_taken, AppendsText};

mod failure;

pub use failure::fail;
use std::io;
use std::io::Write;
use std::ops::ControlFlow;

// A text that was not written whole: how many of its bytes were taken, and how the write after them failed.
#[derive(Clone, Copy)]
pub struct Unwritten {
    pub taken: usize,
    pub error: io::Error,
}

// How many bytes a write took. That it took none is a failure, and left no error number.
fn write_meaning(got: io::Result<usize>, rest: &[u8]) -> io::Result<usize>
    ensures value { result_ok result ≡ write_meaning got (length rest.now) }
    ensures within { WroteWithin (length rest.now) result }
{
    let taken = got?.min(rest.len());
    if taken == 0 {
        return Err(io::Error::from_raw_os_error(0));
    }
    Ok(taken)
}

// Writes once, from the first byte on.
fn write_once<W: Write>(out: &mut W, rest: &[u8]) -> io::Result<usize>
    ensures within { WroteWithin (length rest.now) result }
    ensures bytes { Appends (W.contents out.old) (W.contents out.new) (take (bytes_taken result) rest.now) }
{
    let got = out.write(rest);
    write_meaning(got, rest)
}

// What follows a write after `taken` bytes, of a text of `size` bytes: another, after so many bytes, or none.
fn after_write(
    taken: usize,
    wrote: io::Result<usize>,
    size: usize,
) -> ControlFlow<Result<(), Unwritten>, usize>
    requires { taken + bytes_taken wrote ≤ size }
    ensures { result ≡ after_write taken wrote size }
{
    match wrote {
        Err(error) => ControlFlow::Break(Err(Unwritten { taken, error })),
        Ok(more) if taken + more < size => ControlFlow::Continue(taken + more),
        Ok(_) => ControlFlow::Break(Ok(())),
    }
}

// Writes until all of the text is taken or a write fails. An empty text needs no write.
fn write<W: Write>(out: &mut W, text: &[u8]) -> Result<(), Unwritten>
    ensures written { TextWritten result (length text.now) }
    ensures bytes { Appends (W.contents out.old) (W.contents out.new) (text_taken result text.now) }
{
    let mut taken = 0;
    // No `write_all`: after a failure it says nothing of the bytes that were taken. No `for`: how many writes a text needs shows only as they answer.
    while taken < text.len() {
        let wrote = write_once(out, &text[taken..]);
        match after_write(taken, wrote, text.len()) {
            ControlFlow::Continue(count) => taken = count,
            ControlFlow::Break(written) => return written,
        }
    }
    Ok(())
}

// Writes the text to standard output. A failure is told on standard error.
pub fn print<W: Write, E: Write>(out: &mut W, errors: &mut E, text: &[u8]) -> Result<(), Unwritten>
    ensures written { TextWritten result (length text.now) }
    ensures bytes { Appends (W.contents out.old) (W.contents out.new) (text_taken result text.now) }
{
    let printed = write(out, text);
    if let Err(unwritten) = printed {
        fail(errors, b"write", unwritten.error);
    }
    printed
}

// Writes the text to standard error. A failure is told there too.
pub fn print_error<E: Write>(errors: &mut E, text: &[u8]) -> Result<(), Unwritten>
    ensures written { TextWritten result (length text.now) }
    ensures bytes { AppendsText (E.contents errors.old) (E.contents errors.new) result text.now }
{
    let printed = write(errors, text);
    if let Err(unwritten) = printed {
        fail(errors, b"write", unwritten.error);
    }
    printed
}
