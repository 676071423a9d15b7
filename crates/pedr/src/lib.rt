// The 776-byte PEDR record read.
#![tactic(auto)]

ghost use Rattle.std.specs.Prelude.{◌≡◌};
ghost use Rattle.refusal.specs.Number.{said};
ghost use Rattle.pedr.specs.Read.{fields_in, arrays_in, runs_in, carried_in, uninterpreted_in, read_due, read_arrays, read_runs, read_carried, read_uninterpreted};

use pedr_arrays::RecordArrays;
use pedr_block::Block;
use pedr_block_runs::BlockRuns;
use pedr_fields::RecordFields;
use pedr_layout::{CARRIED_MOST, UNINTERPRETED};
use refusal::Refusal;

// What an accepted record holds: its fields, the engineering block of its frame with the block's runs of items and carried bytes, its arrays, and the bytes that
// are not interpreted (record bytes 537 to 620, and then 641 to 776).
#[derive(Clone, Copy)]
pub struct Record {
    pub fields: RecordFields,
    pub block: Block,
    pub arrays: RecordArrays,
    pub runs: BlockRuns,
    pub carried: [u8; CARRIED_MOST],
    pub uninterpreted: [u8; UNINTERPRETED],
}

// Reads a record. Any bytes.
pub fn read_record(bytes: &[u8]) -> Result<Record, Refusal>
    ensures fields { fields_in (said result) ≡ read_due bytes.now }
    ensures arrays { arrays_in (said result) ≡ read_arrays bytes.now }
    ensures runs { runs_in (said result) ≡ read_runs bytes.now }
    ensures carried { carried_in (said result) ≡ read_carried bytes.now }
    ensures uninterpreted { uninterpreted_in (said result) ≡ read_uninterpreted bytes.now }
{
    pedr_check::check_record(bytes)?;
    Ok(Record {
        fields: pedr_fields::read_fields(bytes),
        block: pedr_block::read_block(bytes),
        arrays: pedr_arrays::read_arrays(bytes),
        runs: pedr_block_runs::read_runs(bytes),
        carried: pedr_block_runs::read_carried(bytes),
        uninterpreted: pedr_arrays::read_uninterpreted(bytes),
    })
}
