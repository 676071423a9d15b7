// The PEDR record's two round trips, of the definitions and of the code.
#![tactic(auto)]

ghost use Rattle.std.specs.Prelude.{◌≡◌, map, take};
ghost use Rattle.refusal.specs.Number.{said};
ghost use Rattle.layout.specs.Column.{unsigned, complement, HoldsAll};
ghost use Rattle.pedr.specs.Read.{fields_in, arrays_in, runs_in, carried_in, uninterpreted_in};
ghost use Rattle.pedr_flags.specs.Class.{class_number};
ghost use Rattle.pedr_block.specs.Block.{carried_count};
ghost use Rattle.pedr_writer.specs.Write.{write_due, write_bytes};
ghost use Rattle.pedr_round_trip.specs.Typed.{TypedFields, TypedArrays};
ghost use Rattle.pedr_round_trip.specs.RoundTrip as back;

use pedr::Record;
use pedr_arrays::RecordArrays;
use pedr_fields::RecordFields;
use pedr_flags::Class;
use pedr_layout::SHOTS;
use pedr_write_refusal::GivenRecord;
use refusal::Refusal;

// Writing what was read gives the bytes back.
pub fn writes_back()
    ensures { back.WritesBack }
{}

// Reading what was written gives back what was given, but for runs that the frame lacks.
pub fn reads_back()
    ensures { back.ReadsBack }
{}

// Writes what was read of a record, with as many carried bytes as its block's layout leaves.
fn write_again(read: &Record, out: &mut [u8]) -> Result<(), Refusal>
    ensures answer { let r = read.now in said result ≡ write_due r.fields r.block r.arrays (take (carried_count r.block) r.carried) r.uninterpreted out.old }
    ensures bytes { let r = read.now in out.new ≡ write_bytes r.fields r.block r.arrays r.runs (take (carried_count r.block) r.carried) r.uninterpreted out.old }
{
    let count = pedr_block::carried_count(read.block);
    let given = GivenRecord {
        fields: &read.fields,
        block: &read.block,
        arrays: &read.arrays,
        runs: &read.runs,
        carried: &read.carried[..count],
        uninterpreted: &read.uninterpreted,
    };
    pedr_writer::write_record(&given, out)
}

// Reads a record and writes it again: an accepted record's own bytes stand in the output.
pub fn copy_record(bytes: &[u8], out: &mut [u8]) -> Result<(), Refusal>
    ensures answer { said result ≡ back.copy_due bytes.now out.old }
    ensures bytes { out.new ≡ back.copy_bytes bytes.now out.old }
{
    let read = pedr::read_record(bytes)?;
    write_again(&read, out)
}

// The bounds that the types of the fields give.
fn type_fields(fields: RecordFields)
    ensures { TypedFields fields }
{}

// The numbers of classes have 16 bits.
fn type_classes(classes: &[Class; SHOTS])
    ensures { HoldsAll unsigned 2 (map class_number classes.now) }
{
    let _ = pedr_codes::class_numbers(classes);
}

// Three signed numbers of 32 bits.
fn type_xyz(xyz: [i32; 3])
    ensures { HoldsAll complement 4 xyz }
{
    let [_x, _y, _z] = xyz;
}

// The bounds that the types of the arrays give.
fn type_arrays(arrays: RecordArrays)
    ensures { TypedArrays arrays }
{
    type_classes(&arrays.shots.class);
    type_xyz(arrays.xyz);
}

// Writes a record and reads it again: what was given, its counter worked out and zeros for runs that the frame lacks, or the writer's refusal.
pub fn write_and_read(given: &GivenRecord, out: &mut [u8]) -> Result<Record, Refusal>
    ensures fields { let g = given.now in
        fields_in (said result) ≡ back.echo_due g.fields.now g.block.now g.arrays.now g.runs.now g.carried.now g.uninterpreted.now out.old }
    ensures arrays { let g = given.now in
        arrays_in (said result) ≡ back.echo_arrays g.fields.now g.block.now g.arrays.now g.runs.now g.carried.now g.uninterpreted.now out.old }
    ensures runs { let g = given.now in
        runs_in (said result) ≡ back.echo_runs g.fields.now g.block.now g.arrays.now g.runs.now g.carried.now g.uninterpreted.now out.old }
    ensures carried { let g = given.now in
        carried_in (said result) ≡ back.echo_carried g.fields.now g.block.now g.arrays.now g.runs.now g.carried.now g.uninterpreted.now out.old }
    ensures uninterpreted { let g = given.now in
        uninterpreted_in (said result) ≡ back.echo_uninterpreted g.fields.now g.block.now g.arrays.now g.runs.now g.carried.now g.uninterpreted.now out.old }
    ensures bytes { let g = given.now in
        out.new ≡ write_bytes g.fields.now g.block.now g.arrays.now g.runs.now g.carried.now g.uninterpreted.now out.old }
{
    type_fields(*given.fields);
    pedr_block_round_trip::type_block(*given.block, *given.runs, given.carried);
    type_arrays(*given.arrays);
    pedr_writer::write_record(given, out)?;
    pedr::read_record(out)
}
