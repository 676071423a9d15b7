// What follows a chunk of the input, by how its reads ended and how its text was written, for the programs that users run.
//
// What stays unproved of reading and writing stands at the head of the crates `program_input` and `program_output`. That an input which is too long is told on
// standard error is unproved too, and not run: it has more than 2^40 chunks.
#![tactic(auto)]

ghost use Rattle.std.specs.Prelude.{◌≡◌};
ghost use Rattle.program_output.specs.Written.{is_whole};
ghost use Rattle.program_io.specs.Next.{after_chunk, is_continue, is_close};

use program_input::Chunk;
use program_output::Unwritten;
use std::io;
use std::io::Write;

// The most chunks that are read: a loop has to end, and nothing says that the input does.
pub const CHUNKS: u64 = 1 << 40;

// What follows a chunk: another chunk; the closing text, for the input has ended; nothing, for a read or a write failed; or nothing, for CHUNKS were
// read.
#[derive(Clone, Copy)]
pub enum Next {
    Continue,
    Close,
    Stop,
    TooLong,
}

// What follows a chunk after `full` others, by how its reads ended and how its text was written.
fn next_after(full: u64, chunk: io::Result<Chunk>, printed: Result<(), Unwritten>) -> Next
    ensures { result ≡ after_chunk full (is_whole printed) chunk }
{
    match (printed, chunk) {
        (Err(_), _) | (_, Err(_)) => Next::Stop,
        (Ok(()), Ok(Chunk::Last(_))) => Next::Close,
        (Ok(()), Ok(Chunk::Full(_))) if full < CHUNKS - 1 => Next::Continue,
        (Ok(()), Ok(Chunk::Full(_))) => Next::TooLong,
    }
}

// What follows a chunk after `full` others, once its text was printed. An input that is too long is told on standard error.
pub fn after_chunk<E: Write>(
    errors: &mut E,
    full: u64,
    chunk: io::Result<Chunk>,
    printed: Result<(), Unwritten>,
) -> Next
    ensures { result ≡ after_chunk full (is_whole printed) chunk }
{
    let next = next_after(full, chunk, printed);
    if let Next::TooLong = next {
        let _ = program_output::print_error(errors, b"input too long\n");
    }
    next
}

// Whether another chunk follows.
pub fn continues(next: Next) -> bool
    ensures { result ≡ is_continue next }
{
    matches!(next, Next::Continue)
}

// Whether the closing text follows.
pub fn closes(next: Next) -> bool
    ensures { result ≡ is_close next }
{
    matches!(next, Next::Close)
}
