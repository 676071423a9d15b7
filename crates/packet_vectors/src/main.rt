// Vectors of the science packet: reads, refusals, writes and sums at each boundary of its rules. The cases stand in tables.rt, and each prints one
// line with its row's number, from 0. What they have to print, in the file stdout, was worked out apart from this program and the library.
#![tactic(auto)]

mod build;
mod reads;
mod show;
mod sums;
mod tables;
mod writes;

use packet_layout::PUBLISHED_SUM_WORD;
use std::io;
use vectors_output::LeavesOut;

// A heading, and a line for each row of a table.
fn run<T: Copy, F: Fn(usize, T) -> io::Result<()>>(
    rt: &impl Print,
    heading: &str,
    rows: &[T],
    line: F,
) -> io::Result<()>
    requires { F.IsAlwaysCallable line }
{
    rt.println(heading)?;
    for (i, row) in rows.iter().enumerate() {
        line(i, *row)?;
    }
    Ok(())
}

// A word outside 53 to 539, told to the reader and to the writer.
fn refused_word(rt: &impl Print, i: usize, word: usize) -> io::Result<()> {
    let row = 2 * tables::DUE;
    reads::read_at(rt, i, row, PUBLISHED_SUM_WORD, word)?;
    writes::write_at(rt, i, row, word)
}

fn main(rt: HostRuntime) -> io::Result<()> {
    let out = LeavesOut { output: rt };
    reads::legend(&out)?;
    run(
        &out,
        "reads",
        &tables::READS,
        |i, row| reads::read(&out, i, row),
    )?;
    run(
        &out,
        "reads at words 53, 70 and 539",
        &tables::CHECKS,
        |i, row| reads::read_at_three_words(&out, i, row),
    )?;
    run(
        &out,
        "words outside 53 to 539",
        &tables::WORDS,
        |i, word| refused_word(&out, i, word),
    )?;
    run(
        &out,
        "writes",
        &tables::WRITES,
        |i, row| writes::write(&out, i, row),
    )?;
    run(
        &out,
        "HSTART, first bin, starts of bins 0, 1, 47",
        &tables::HSTARTS,
        |_, h| reads::hstart(&out, h),
    )?;
    run(
        &out,
        "sums of words: the whole, and its parts before and from a word on",
        &tables::SUMS,
        |i, row| sums::sum(&out, i, row),
    )
}
