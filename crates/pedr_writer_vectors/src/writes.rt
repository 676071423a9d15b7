// Records that are written, one line each. Every output is the first bytes of a room, whose bytes are all 165.
use crate::given::Given;
use crate::show::{check, digested, lines, refused};
use crate::{cases, rows};
use pedr::Record;
use pedr_block_runs::BlockRuns;
use pedr_layout::RECORD_SIZE;
use pedr_write_refusal::GivenRecord;
use std::io;

fn runs_digest(runs: &BlockRuns) -> u64 {
    let flags = digested(1, &runs.status_flags);
    let tracker = digested(flags, &runs.range_gate_tracker_array);
    let dump = digested(tracker, &runs.memory_dump_segment);
    digested(dump, &runs.command_echo)
}

// The counter of a record that was read, and digests of the block's runs and carried bytes.
fn show_read(rt: &impl Print, record: &Record) -> io::Result<()> {
    let counter = record.fields.quality.counter;
    let runs = runs_digest(&record.runs);
    let carried = digested(1, &record.carried);
    print!(rt; " counter {counter} runs {runs} carried {carried}")
}

// What the reader made of an output, written into a room of its own.
fn write_again(rt: &impl Print, record: &Record) -> io::Result<()> {
    let mut room = [165; 800];
    let count = pedr_block::carried_count(record.block);
    if let Some(carried) = record.carried.get(..count) {
        let given = GivenRecord {
            fields: &record.fields,
            block: &record.block,
            arrays: &record.arrays,
            runs: &record.runs,
            carried,
            uninterpreted: &record.uninterpreted,
        };
        if let Err(refusal) = pedr_writer::write_record(&given, &mut room[..RECORD_SIZE]) {
            refused(rt, refusal)?;
        }
    }
    print!(rt; ", again {}", digested(1, &room))
}

fn read_back(rt: &impl Print, out: &[u8]) -> io::Result<()> {
    rt.print(" written, read back")?;
    match pedr::read_record(out) {
        Ok(record) => {
            show_read(rt, &record)?;
            write_again(rt, &record)
        }
        Err(refusal) => refused(rt, refusal),
    }
}

fn judge(rt: &impl Print, row: u64, given: &GivenRecord, out: &mut [u8]) -> io::Result<()> {
    let due = row / cases::DUE;
    match pedr_writer::write_record(given, out) {
        Ok(()) => {
            read_back(rt, out)?;
            check(rt, 0, due)
        }
        Err(refusal) => {
            refused(rt, refusal)?;
            check(rt, u8::from(refusal), due)
        }
    }
}

// The same with as many carried and uninterpreted bytes as are lent.
fn lend(rt: &impl Print, row: u64, g: &Given, out: &mut [u8]) -> io::Result<()> {
    if let (Some(carried), Some(uninterpreted)) = (
        g.carried.get(..g.carried_size),
        g.uninterpreted.get(..g.uninterpreted_size),
    ) {
        let given = GivenRecord {
            fields: &g.fields,
            block: &g.block,
            arrays: &g.arrays,
            runs: &g.runs,
            carried,
            uninterpreted,
        };
        judge(rt, row, &given, out)?;
    }
    Ok(())
}

// A row that is written.
pub(crate) fn write(rt: &impl Print, i: usize, row: u64, given: &Given) -> io::Result<()> {
    if rows::show(row) == 0 {
        return Ok(());
    }
    let mut room = [165; 800];
    print!(rt; "write {i}:")?;
    if let Some(out) = room.get_mut(..given.output_size) {
        lend(rt, row, given, out)?;
    }
    print!(rt; ", room {}", digested(1, &room))?;
    if rows::show(row) == cases::FULL {
        lines(rt, &room)?;
    }
    println!(rt)
}
