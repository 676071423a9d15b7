// Records and shots that are read, one line each.
use crate::{cases, fields, frames, rows, shots, show};
use pedr::Record;
use pedr_arrays::RecordArrays;
use pedr_layout::UNINTERPRETED;
use pedr_shot::ShotFields;
use refusal::Refusal;
use std::io;

fn refused(rt: &impl Print, refusal: Refusal) -> io::Result<()> {
    print!(rt; ": refused {}", u8::from(refusal))
}

// X, Y, Z, the source header, and the digests of the longer arrays, after those of shots and channels where they are asked for in full.
fn show_arrays(
    rt: &impl Print,
    arrays: &RecordArrays,
    uninterpreted: &[u8; UNINTERPRETED],
    full: bool,
) -> io::Result<()> {
    rt.print(", xyz")?;
    show::entries(rt, &arrays.xyz)?;
    rt.print(", header")?;
    show::entries(rt, &arrays.source_header)?;
    let of_shots = shots::show_shots(rt, &arrays.shots, full)?;
    let of_channels = shots::show_channels(rt, &arrays.channels, full)?;
    rt.print(if full { "\n  digests" } else { ", digests" })?;
    print!(rt; " {of_shots} {of_channels} {}", show::digest(uninterpreted))
}

fn accepted(rt: &impl Print, record: &Record, full: bool) -> io::Result<()> {
    fields::show_fields(rt, &record.fields)?;
    frames::show_block(rt, record.block)?;
    frames::show_runs(rt, &record.runs, &record.carried)?;
    show_arrays(rt, &record.arrays, &record.uninterpreted, full)
}

// What the reader says of bytes, and the runs, arrays and bytes that the one for C gives beside a refusal.
fn read(rt: &impl Print, row: u64, bytes: &[u8]) -> io::Result<()> {
    let full = rows::show(row) == cases::FULL;
    let answer = pedr::read_record(bytes);
    match answer {
        Ok(record) => accepted(rt, &record, full)?,
        Err(refusal) => {
            refused(rt, refusal)?;
            let beside = pedr_c::read_record(bytes);
            frames::show_runs(rt, &beside.runs, &beside.carried)?;
            let arrays = pedr_c::arrays_of(beside.arrays);
            show_arrays(rt, &arrays, &beside.uninterpreted, full)?;
        }
    }
    show::check(rt, refusal::number_of(answer), row / cases::DUE)
}

fn show_shot(rt: &impl Print, f: &ShotFields) -> io::Result<()> {
    rt.print(":")?;
    show::entries(rt, &shots::numbers(f))?;
    print!(rt; ", good {}", u8::from(f.good))
}

fn read_shot(rt: &impl Print, row: u64, bytes: &[u8]) -> io::Result<()> {
    let shot = row % cases::BYTE;
    print!(rt; " shot {shot}")?;
    let answer = pedr_shot::read_shot(bytes, shot as usize);
    match answer {
        Ok(f) => show_shot(rt, &f)?,
        Err(refusal) => refused(rt, refusal)?,
    }
    show::check(rt, refusal::number_of(answer), row / cases::DUE)
}

// Has the bytes that the library is given read as a row asks. A line starts with what is read, the row's number, and how many bytes these are.
pub(crate) fn ask(rt: &impl Print, i: usize, row: u64, bytes: &[u8]) -> io::Result<()> {
    if rows::step(row) == cases::SHOT {
        print!(rt; "shot {i} len {}", bytes.len())?;
        read_shot(rt, row, bytes)?;
        println!(rt)?;
    }
    if rows::show(row) != 0 {
        print!(rt; "record {i} len {}", bytes.len())?;
        read(rt, row, bytes)?;
        println!(rt)?;
    }
    Ok(())
}
