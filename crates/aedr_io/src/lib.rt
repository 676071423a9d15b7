// Checks an AEDR file that is open: reads it in chunks of 213 pieces, writes the lines of each chunk, and then the total. The contracts say which
// text is written for the bytes that were read; how the count of pieces goes on from chunk to chunk; and what follows a chunk by how its reads ended
// and whether its text was written. What is written is the start of what is to be printed for the bytes that were read, and in a complete check all
// of that, for all of the input.
//
// Standard input and output are a reader and a writer of which no contract can say what they have and got. So this stays unproved, and tests/program.rs
// runs the program:
// - that the bytes which are read are those of standard input, and the bytes which are written reach standard output;
// - that a failure is told.
#![tactic(auto)]

ghost use Rattle.std.specs.Prelude.{◌*◌, ◌≡◌, ◌≤◌};
ghost use Rattle.program_io.specs.Next.{chunks_most};
ghost use Rattle.program_input.specs.Chunk.{ChunkTakes};
ghost use Rattle.program_output.specs.Written.{text_taken};
ghost use Rattle.std.specs.Io.KnownBytes.{Appends};
ghost use Rattle.aedr.specs.Printed.{all_lines};
ghost use Rattle.aedr.specs.Chunks.{chunk_pieces};
ghost use Rattle.aedr_io.specs.Check.{records_after, bytes_of, ChunkPrinted, ChunksPrinted, ChunksMoved, Ran, FileChecked, WholePrinted};

use program_input::Chunk;
use program_io::Next;
use program_output::Unwritten;
use std::io;

// The bytes of a chunk, and the text of its lines.
type ChunkBytes = [u8; aedr::CHUNK];

type ChunkText = [u8; aedr::CHUNK_ROOM];

// The pieces whose lines are written, with `records` before a chunk of `read` bytes.
fn records_after(next: Next, records: u64, read: usize) -> u64
    requires { records ≤ chunk_pieces * chunks_most }
    ensures { result ≡ records_after next records read }
{
    match next {
        Next::Stop => records,
        Next::Continue | Next::Close | Next::TooLong => records + aedr::count_pieces(read) as u64,
    }
}

// What a chunk came to: its bytes, the printing of its text, what follows, and the pieces whose lines were written so far.
#[derive(Clone, Copy)]
struct Progress {
    chunk: io::Result<Chunk>,
    printed: Result<(), Unwritten>,
    next: Next,
    records: u64,
}

// Prints the chunk after `full` others of `records` pieces.
// No struct of the streams and buffers that the functions hand on: a contract would have to follow what each of them borrows through its fields.
fn print_chunk<R: io::Read, W: io::Write, E: io::Write>(
    input: &mut R,
    output: &mut W,
    errors: &mut E,
    full: u64,
    records: u64,
    buf: &mut ChunkBytes,
    out: &mut ChunkText,
) -> Progress
    requires { records ≤ chunk_pieces * chunks_most }
    ensures printed { ChunkPrinted result full records buf.new out.new }
    ensures reads { ChunkTakes (R.remaining input.old) (R.remaining input.new) result.chunk buf.new }
    ensures writes { Appends (W.contents output.old) (W.contents output.new)
        (text_taken result.printed (all_lines (bytes_of result.chunk buf.new) records)) }
{
    let chunk = program_input::fill(input, errors, buf);
    let read = program_input::count(chunk);
    let text = aedr::report(&buf[..read], records, out);
    let printed = program_output::print(output, errors, &out[..text]);
    let next = program_io::after_chunk(errors, full, chunk, printed);
    let records = records_after(next, records, read);
    Progress {
        chunk,
        printed,
        next,
        records,
    }
}

// What the chunks came to: how many filled the buffer and were written, and the one after them.
#[derive(Clone, Copy)]
struct Chunks {
    full: u64,
    last: Progress,
}

// Prints chunk after chunk, each numbered on from those before it.
fn print_chunks<R: io::Read, W: io::Write, E: io::Write>(
    input: &mut R,
    output: &mut W,
    errors: &mut E,
    buf: &mut ChunkBytes,
    out: &mut ChunkText,
) -> Chunks
    ensures printed { ChunksPrinted result buf.new out.new }
    ensures moved { ChunksMoved result buf.new (R.remaining input.old) (R.remaining input.new)
        (W.contents output.old) (W.contents output.new) }
{
    let mut records = 0;
    let mut full = 0;
    // No `for` over 0..CHUNKS: what follows the last of them is told by `after_chunk`, and the code after that loop would never run.
    loop {
        let last = print_chunk(input, output, errors, full, records, buf, out);
        if !program_io::continues(last.next) {
            return Chunks { full, last };
        }
        records = last.records;
        full += 1;
    }
}

// How many pieces had their lines written, and whether the input ended and all was written, the closing line too. For the contracts: how many
// chunks filled the buffer and were written, the one after them, and the printing of the last text.
// No `Result`: the pieces are told of a check that is not complete too, so both sides would hold the same.
#[derive(Clone, Copy)]
pub struct Checked {
    pub records: u64,
    pub complete: bool,
    full: u64,
    chunk: io::Result<Chunk>,
    printed: Result<(), Unwritten>,
}

// Prints the chunks, and where the input ended the closing line.
fn run<R: io::Read, W: io::Write, E: io::Write>(
    input: &mut R,
    output: &mut W,
    errors: &mut E,
    buf: &mut ChunkBytes,
    out: &mut ChunkText,
) -> Checked
    ensures ran { Ran result out.new }
    ensures printed { WholePrinted result (R.remaining input.old) (R.remaining input.new)
        (W.contents output.old) (W.contents output.new) }
{
    let Chunks { full, last } = print_chunks(input, output, errors, buf, out);
    let Progress {
        chunk,
        printed,
        next,
        records,
    } = last;
    if !program_io::closes(next) {
        return Checked {
            records,
            complete: false,
            full,
            chunk,
            printed,
        };
    }
    let closing = aedr::close(records, out);
    let printed = program_output::print(output, errors, &out[..closing]);
    let next = program_io::after_chunk(errors, full, chunk, printed);
    let complete = program_io::closes(next);
    Checked {
        records,
        complete,
        full,
        chunk,
        printed,
    }
}

// Checks the file that input reads. It ends, the count of pieces does not wrap, and a complete check has printed all that is to be printed for the whole
// input, and counted its pieces. A failed read or write is told on errors, and then nothing more is written to output.
pub fn check_file<R: io::Read, W: io::Write, E: io::Write>(
    input: &mut R,
    output: &mut W,
    errors: &mut E,
) -> Checked
    ensures checked { FileChecked result }
    ensures printed { WholePrinted result (R.remaining input.old) (R.remaining input.new)
        (W.contents output.old) (W.contents output.new) }
{
    let mut buf: ChunkBytes = [0; _];
    let mut out: ChunkText = [0; _];
    run(input, output, errors, &mut buf, &mut out)
}
