// The refusals of a PEDR record to be written.
#![tactic(auto)]

ghost use Rattle.std.specs.Prelude.{◌≡◌};
ghost use Rattle.octets.specs.Refusal.{refusal_in};
ghost use Rattle.refusal.specs.Number.{said};
ghost use Rattle.pedr_write_refusal.specs.Refusal.{write_refusal};

use pedr_arrays::RecordArrays;
use pedr_block::Block;
use pedr_block_runs::BlockRuns;
use pedr_fields::RecordFields;
use pedr_layout::{RECORD_SIZE, UNINTERPRETED};
use refusal::Refusal;

// What is given of a record to be written: its fields and arrays, the engineering block with its runs, the block's carried bytes, and the uninterpreted
// bytes (record bytes 537 to 620, and then 641 to 776).
#[derive(Clone, Copy)]
pub struct GivenRecord<'a> {
    pub fields: &'a RecordFields,
    pub block: &'a Block,
    pub arrays: &'a RecordArrays,
    pub runs: &'a BlockRuns,
    pub carried: &'a [u8],
    pub uninterpreted: &'a [u8],
}

// Refusals 13 to 15, 40, 49, 41 and 42. The runs are not looked at.
pub fn check_write(given: &GivenRecord, out: &[u8]) -> Result<(), Refusal>
    ensures { let g = given.now in refusal_in (said result) ≡ write_refusal g.fields.now g.block.now g.arrays.now g.carried.now g.uninterpreted.now out.now }
{
    pedr_write_check::check_given(given.fields, given.arrays)?;
    if given.carried.len() != pedr_block::carried_count(*given.block) {
        return Err(Refusal::RecordField);
    }
    if given.uninterpreted.len() != UNINTERPRETED {
        return Err(Refusal::RecordField);
    }
    if out.len() != RECORD_SIZE {
        return Err(Refusal::RecordOutput);
    }
    if pedr_block::frame_number(*given.block) != given.fields.receiver.frame_index {
        return Err(Refusal::FrameDiffers);
    }
    Ok(())
}
