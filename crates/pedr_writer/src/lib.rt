// The writer of the 776-byte PEDR record.
#![tactic(auto)]

ghost use Rattle.std.specs.Prelude.{◌≡◌, length};
ghost use Rattle.octets.specs.Bytes.{put};
ghost use Rattle.refusal.specs.Number.{said};
ghost use Rattle.layout.specs.Column.{join};
ghost use Rattle.pedr_writer.specs.Record.{tail_parts, record_of};
ghost use Rattle.pedr_writer.specs.Write.{write_due, write_bytes};

use octets::write_into;
use octets_runs_writer::write_u8s;
use pedr_flags::Encoder;
use pedr_layout::{
    ENCODER_AT, SHOTS, UNINTERPRETED_537_AT, UNINTERPRETED_641_AT, UNINTERPRETED_BEFORE,
};
use pedr_write_refusal::GivenRecord;
use refusal::Refusal;

// Bytes 537 to 776: the encoder bytes between the uninterpreted ones.
fn put_tail(encoders: &[Encoder; SHOTS], uninterpreted: &[u8], out: &mut [u8])
    requires { length uninterpreted.now ≡ 220 }
    ensures stored { out.new ≡ put out.old 536 (join (tail_parts encoders.now uninterpreted.now)) }
    ensures size { length (join (tail_parts encoders.now uninterpreted.now)) ≡ 240 }
{
    let (before, after) = uninterpreted.split_at(UNINTERPRETED_BEFORE);
    write_into(before, UNINTERPRETED_537_AT, out);
    write_u8s(&pedr_codes::encoder_bytes(encoders), ENCODER_AT, out);
    write_into(after, UNINTERPRETED_641_AT, out);
}

// The record's 776 bytes.
fn put_record(given: &GivenRecord, out: &mut [u8])
    requires { (length given.now.uninterpreted.now ≡ 220) × (length out.old ≡ 776) }
    ensures { let g = given.now in out.new ≡ record_of g.fields.now g.block.now g.arrays.now g.runs.now g.carried.now g.uninterpreted.now }
{
    let fields = given.fields;
    let arrays = given.arrays;
    pedr_segments::put_head(fields, out);
    pedr_segments::put_radii(fields, &arrays.shots, out);
    pedr_segments::put_pulses(&arrays.shots, out);
    pedr_segments::put_ground(fields, arrays, out);
    pedr_segments::put_gate(fields, &arrays.channels, out);
    pedr_segments::put_receiver(fields, out);
    pedr_segments::put_link(fields, &arrays.source_header, out);
    pedr_block_writer::put_block(given.block, given.runs, given.carried, out);
    put_tail(&arrays.shots.encoder, given.uninterpreted, out);
}

// Writes a record. Any fields, block, arrays and runs, any carried bytes of the block and uninterpreted bytes, any output; the quality counter is worked out, not
// taken from the fields. On a refusal the output stays.
pub fn write_record(given: &GivenRecord, out: &mut [u8]) -> Result<(), Refusal>
    ensures answer { let g = given.now in said result ≡ write_due g.fields.now g.block.now g.arrays.now g.carried.now g.uninterpreted.now out.old }
    ensures bytes { let g = given.now in out.new ≡ write_bytes g.fields.now g.block.now g.arrays.now g.runs.now g.carried.now g.uninterpreted.now out.old }
{
    pedr_write_refusal::check_write(given, out)?;
    put_record(given, out);
    Ok(())
}
