// Vectors of the PEDR record: whole records and single shots, on both sides of every boundary that decides about them. cases.rt has the rows;
// each that reads prints its number, from 0, and the answer. The file stdout was made from the rules alone, by a program that shares only the
// rows with this one.
#![tactic(auto)]

mod cases;
mod fields;
mod frames;
mod reads;
mod record;
mod rows;
mod shots;
mod show;

use std::io;
use vectors_output::LeavesOut;

// The rows in turn; each finds the record as the last one left it.
fn run_all(rt: &impl Print) -> io::Result<()> {
    let mut room = [0; 800];
    let mut length = pedr_layout::RECORD_SIZE;
    for (i, row) in cases::CASES.iter().enumerate() {
        let fill = rows::fill(*row);
        if fill != 0 {
            room = record::filled(fill);
        }
        record::change(*row, &mut room);
        length = record::length_after(*row, length);
        if let Some(bytes) = room.get(..length) {
            reads::ask(rt, i, *row, bytes)?;
        }
    }
    Ok(())
}

fn main(rt: HostRuntime) -> io::Result<()> {
    let out = LeavesOut { output: rt };
    fields::legend(&out)?;
    run_all(&out)
}
