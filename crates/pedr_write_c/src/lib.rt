// The PEDR record written from structs of numbers, for callers in languages that have no such enums.
#![tactic(auto)]

ghost use Rattle.std.specs.Prelude.{◌≡◌};
ghost use Rattle.pedr_block_c.specs.Numbers.{block_of_numbers};
ghost use Rattle.pedr_c.specs.Back.{arrays_of_numbers};
ghost use Rattle.pedr_write_refusal.specs.Refusal.{write_refusal};
ghost use Rattle.pedr_writer.specs.Write.{write_bytes};

use pedr_block_c::BlockNumbers;
use pedr_block_runs::BlockRuns;
use pedr_c::ArrayNumbers;
use pedr_fields::RecordFields;
use pedr_write_refusal::GivenRecord;

// Writes a record of the block and the arrays that the numbers stand for: the refusal number, or 0. A refusal leaves the output as it was.
pub fn write_record(
    fields: RecordFields,
    block: BlockNumbers,
    arrays: ArrayNumbers,
    runs: BlockRuns,
    carried: &[u8],
    uninterpreted: &[u8],
    out: &mut [u8],
) -> u8
    ensures { (result ≡ write_refusal fields (block_of_numbers block fields.receiver.frame_index) (arrays_of_numbers arrays)
        carried.now uninterpreted.now out.old)
        × (out.new ≡ write_bytes fields (block_of_numbers block fields.receiver.frame_index) (arrays_of_numbers arrays) runs
        carried.now uninterpreted.now out.old) }
{
    let given = GivenRecord {
        fields: &fields,
        block: &pedr_block_c::block_of(block, fields.receiver.frame_index),
        arrays: &pedr_c::arrays_of(arrays),
        runs: &runs,
        carried,
        uninterpreted,
    };
    refusal::number_of(pedr_writer::write_record(&given, out))
}
