// Reading the input of a program in chunks. The call stands in `read_once` alone, and what its answer makes of a chunk in a function with an equation: the loop in
// `fill` only passes values on. A failure is told on standard error by the name of the call and the system's text, as `read: Is a directory`.
//
// `fill` promises that a chunk's bytes are the next that the reader had, in their order. Standard input is a reader of which no contract can say what it has. So
// this stays unproved, and tests/program.rs runs a program on inputs that fail:
// - that the bytes which standard input gives are those that were put in;
// - that a failure is told on standard error.
#![tactic(auto)]

ghost use Rattle.std.specs.Prelude.{◌≡◌, ◌+◌, ◌≤◌, length, IfOk};
ghost use Rattle.std.specs.Io.{ReadsAtMost};
ghost use Rattle.std.specs.Io.KnownBytes.{ReadConsumes};
ghost use Rattle.program_input.specs.Chunk.{after_read, ChunkWithin, chunk_bytes, ChunkTakes};

use std::io;
use std::ops::ControlFlow;

// What the reads of a chunk came to, where none failed: they filled the buffer, by so many bytes; or the input ended after so many.
#[derive(Clone, Copy)]
pub enum Chunk {
    Full(usize),
    Last(usize),
}

// Reads once, to the start of rest. A failure is told at once.
fn read_once<R: io::Read, E: io::Write>(
    input: &mut R,
    errors: &mut E,
    rest: &mut [u8],
) -> io::Result<usize>
    ensures within { ReadsAtMost result rest.new }
    ensures bytes { ReadConsumes (R.remaining input.old) (R.remaining input.new) result rest.new }
{
    let got = input.read(rest);
    if let Err(error) = got {
        program_output::fail(errors, b"read", error);
    }
    got
}

// What follows a read after `count` bytes, in a buffer of `room` bytes: another, after so many bytes, or none.
fn after_read(
    count: usize,
    got: io::Result<usize>,
    room: usize,
) -> ControlFlow<io::Result<Chunk>, usize>
    requires { IfOk got (λ more. count + more ≤ room) }
    ensures { result ≡ after_read count got room }
{
    match got {
        Err(error) => ControlFlow::Break(Err(error)),
        Ok(0) => ControlFlow::Break(Ok(Chunk::Last(count))),
        Ok(more) if count + more < room => ControlFlow::Continue(count + more),
        Ok(more) => ControlFlow::Break(Ok(Chunk::Full(count + more))),
    }
}

// Reads a chunk to the start of buf. A read may be short, as from a pipe. A buffer with no room needs no read.
pub fn fill<R: io::Read, E: io::Write>(
    input: &mut R,
    errors: &mut E,
    buf: &mut [u8],
) -> io::Result<Chunk>
    ensures chunk_within { ChunkWithin (length buf.new) result }
    ensures bytes { ChunkTakes (R.remaining input.old) (R.remaining input.new) result buf.new }
{
    let mut count = 0;
    // No `read_exact`: it says nothing of an input that ends before buf does. No `for`: how many reads a chunk needs shows only as they answer.
    while count < buf.len() {
        let got = read_once(input, errors, &mut buf[count..]);
        match after_read(count, got, buf.len()) {
            ControlFlow::Continue(taken) => count = taken,
            ControlFlow::Break(chunk) => return chunk,
        }
    }
    Ok(Chunk::Full(count))
}

// How many bytes of a buffer are the chunk's, from the first on. After a failed read none is.
pub fn count(chunk: io::Result<Chunk>) -> usize
    ensures { result ≡ chunk_bytes chunk }
{
    match chunk {
        Err(_) => 0,
        Ok(Chunk::Full(count) | Chunk::Last(count)) => count,
    }
}
