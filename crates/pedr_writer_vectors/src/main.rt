// Vectors of the record writer: fields on both sides of every boundary that decides about them. cases.rt has the rows; each that writes prints its
// number, from 0, and the answer. The file stdout was made from the rules alone, by a program that shares only the rows with this one.
#![tactic(auto)]

mod cases;
mod changes;
mod given;
mod rows;
mod show;
mod writes;

use std::io;
use vectors_output::LeavesOut;

// The rows in turn; each finds the fields as the last one left them.
fn run_all(rt: &impl Print) -> io::Result<()> {
    let mut filled = given::filled_record(cases::ZEROS, 1);
    for (i, row) in cases::CASES.iter().enumerate() {
        let fill = rows::fill(*row);
        if fill != 0 {
            filled = given::filled_record(fill, rows::frame(*row));
        }
        match &mut filled {
            Ok(given) => {
                changes::change(given, *row);
                writes::write(rt, i, *row, given)?;
            }
            Err(refusal) => println!(rt; "fill refused {}", u8::from(*refusal))?,
        }
    }
    Ok(())
}

fn main(rt: HostRuntime) -> io::Result<()> {
    let out = LeavesOut { output: rt };
    println!(out;
        "write: the answer; of a record that is written the counter as it is read, digests of the block's runs and carried bytes, \
        and what was read is written again; digests of both outputs, each with the bytes after it"
    )?;
    run_all(&out)
}
