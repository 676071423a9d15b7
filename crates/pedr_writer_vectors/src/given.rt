// What the writer is given: the fields of a record that a rule fills, and the sizes of what is lent.
use crate::cases;
use pedr::Record;
use pedr_arrays::RecordArrays;
use pedr_block::Block;
use pedr_block_runs::BlockRuns;
use pedr_fields::RecordFields;
use pedr_layout::{RECORD_SIZE, UNINTERPRETED};
use refusal::Refusal;

// The carried bytes that are lent are the first of 16, the uninterpreted ones the first of 256.
#[derive(Clone, Copy)]
pub(crate) struct Given {
    pub fields: RecordFields,
    pub block: Block,
    pub arrays: RecordArrays,
    pub runs: BlockRuns,
    pub carried: [u8; 16],
    pub carried_size: usize,
    pub uninterpreted: [u8; 256],
    pub uninterpreted_size: usize,
    pub output_size: usize,
}

// Byte b by a fill's rule alone.
fn plain_byte(fill: u64, b: usize) -> u8 {
    let k = b % 1000;
    match fill {
        cases::ONES => 255,
        cases::SPREAD => ((37 * k + k / 4) % 256) as u8,
        _ => 0,
    }
}

// How many shots are good in a fill.
fn counter(fill: u64) -> u8 {
    match fill {
        cases::ONES => 20,
        cases::SPREAD => 8,
        _ => 0,
    }
}

fn fill_byte(fill: u64, frame: u64, b: usize) -> u8 {
    match b {
        5 | 6 | 13 | 491 => 0,
        32 => counter(fill),
        492 => (frame % 256) as u8,
        _ => plain_byte(fill, b),
    }
}

fn filled(fill: u64, frame: u64) -> [u8; RECORD_SIZE] {
    let mut bytes = [0; RECORD_SIZE];
    for (k, byte) in bytes.iter_mut().enumerate() {
        *byte = fill_byte(fill, frame, k + 1);
    }
    bytes
}

pub(crate) fn filled_record(fill: u64, frame: u64) -> Result<Given, Refusal> {
    let record = pedr::read_record(&filled(fill, frame))?;
    let mut carried = [0; 16];
    octets::write_into(&record.carried, 0, &mut carried);
    let mut uninterpreted = [0; 256];
    octets::write_into(&record.uninterpreted, 0, &mut uninterpreted);
    let Record {
        fields,
        block,
        arrays,
        runs,
        ..
    } = record;
    Ok(Given {
        fields,
        block,
        arrays,
        runs,
        carried,
        carried_size: pedr_block::carried_count(block),
        uninterpreted,
        uninterpreted_size: UNINTERPRETED,
        output_size: RECORD_SIZE,
    })
}
