// The functions for C and Rust (include/mola.h), which mola_c exports. Each answers in numbers: a refusal is its number, which is never 0.
#![tactic(auto)]

ghost use Rattle.std.specs.Prelude.{◌≡◌, ◌%◌};
ghost use Rattle.checksum.specs.Sum.{word_sum, packet_sum};
ghost use Rattle.packet_check.specs.Refusal.{read_refusal};
ghost use Rattle.packet.specs.Read.{read_due, read_arrays};
ghost use Rattle.packet_bins.specs.Bins.{first_bin, bin_starts};
ghost use Rattle.packet_writer.specs.Write.{write_refusal, write_bytes};
ghost use Rattle.pedr_check.specs.Refusal.{record_refusal};
ghost use Rattle.pedr.specs.Read as pedr;
ghost use Rattle.pedr_shot.specs.Shot.{shot_due};
ghost use Rattle.pedr_c.specs.Numbers.{record_numbers};
ghost use Rattle.pedr_c.specs.Back.{arrays_of_numbers};
ghost use Rattle.pedr_shot_c.specs.Shot.{shot_read};
ghost use Rattle.pedr_block_c.specs.Numbers.{block_of_numbers};
ghost use Rattle.pedr_write_refusal.specs.Refusal as pedr_write_refusal;
ghost use Rattle.pedr_writer.specs.Write as pedr_writer;
ghost use Rattle.reorder_c.specs.Calls.{OpensAs, OffersAs, ServesAs, DrainsAs, PassesAs};
ghost use Rattle.mola.specs.Read.{as_read};

use packet::{Packet, PacketArrays, PacketFields};
use packet_layout::{BINS, READINGS, TEMPERATURES};
use pedr_block_c::BlockNumbers;
use pedr_block_runs::BlockRuns;
use pedr_c::{ArrayNumbers, RecordNumbers};
use pedr_fields::RecordFields;
use pedr_shot_c::ShotRead;
use reorder_c_answers::{Answer, Count, DESCRIPTION_NUMBERS};
use reorder_session::Session;

// A packet's refusal number and zeros; or 0 and its fields and arrays.
#[repr(C)]
#[derive(Clone, Copy, Default)]
pub struct FieldsAnswer {
    pub refusal: u32,
    pub fields: PacketFields,
    pub arrays: PacketArrays,
}

// The refusal number of a packet whose sum stands at word sum_word, or 0.
pub fn mola_check_packet(packet: &[u8], sum_word: usize) -> u8
    ensures { result ≡ read_refusal packet.now sum_word }
{
    refusal::number_of(packet_check::check_packet(packet, sum_word))
}

// The refusal number of a packet whose sum stands at word sum_word, or 0, and its fields and arrays.
pub fn mola_read_packet(packet: &[u8], sum_word: usize) -> FieldsAnswer
    ensures { result ≡ as_read (read_due packet.now sum_word) (read_arrays packet.now sum_word) }
{
    match packet::read_packet(packet, sum_word) {
        Ok(read) => FieldsAnswer {
            refusal: 0,
            fields: read.fields,
            arrays: read.arrays,
        },
        Err(refusal) => FieldsAnswer {
            refusal: u8::from(refusal) as u32,
            ..FieldsAnswer::default()
        },
    }
}

// The sum of the words of any bytes, carries out of 16 bits dropped. A last odd byte is the upper half of a word.
pub fn mola_word_sum(bytes: &[u8]) -> u16
    ensures { result ≡ word_sum bytes.now % 65536 }
{
    checksum::word_sum(bytes)
}

// The packet sum of any bytes, with the word sum_word taken as zero.
pub fn mola_packet_sum(bytes: &[u8], sum_word: usize) -> u16
    ensures { result ≡ packet_sum bytes.now sum_word }
{
    checksum::packet_sum(bytes, sum_word)
}

// The number of the first bin of a packet with this HSTART.
pub fn mola_first_bin(hstart: u16) -> u16
    ensures { result ≡ first_bin hstart }
{
    packet_bins::first_bin(hstart)
}

// Where each bin of a packet with this HSTART starts, in metres.
pub fn mola_bin_starts(hstart: u16, starts: &mut [u32; BINS])
    ensures { starts.new ≡ bin_starts hstart }
{
    *starts = packet_bins::bin_starts(hstart);
}

// Writes a packet into out, with its sum at word sum_word: the refusal number, or 0. A refusal leaves out as it was.
pub fn mola_write_packet(
    fields: PacketFields,
    temperatures: &[u8; TEMPERATURES],
    readings: &[u8; READINGS],
    bins: &[u8; BINS],
    carried: &[u8],
    sum_word: usize,
    out: &mut [u8],
) -> u8
    ensures { (result ≡ write_refusal fields carried.now sum_word out.old)
        × (out.new ≡ write_bytes fields
        (record { temperatures = temperatures.now; readings = readings.now; bins = bins.now })
        carried.now sum_word out.old) }
{
    let packet = Packet {
        fields,
        arrays: PacketArrays {
            temperatures: *temperatures,
            readings: *readings,
            bins: *bins,
        },
    };
    refusal::number_of(packet_writer::write_packet(&packet, carried, sum_word, out))
}

// The refusal number of a PEDR record, or 0.
pub fn mola_check_record(bytes: &[u8]) -> u8
    ensures { result ≡ record_refusal bytes.now }
{
    refusal::number_of(pedr_check::check_record(bytes))
}

// Reads a PEDR record: its refusal number, or 0, and what it holds.
pub fn mola_read_record(bytes: &[u8]) -> RecordNumbers
    ensures { result ≡ record_numbers (pedr.read_due bytes.now) (pedr.read_arrays bytes.now)
        (pedr.read_runs bytes.now) (pedr.read_carried bytes.now) (pedr.read_uninterpreted bytes.now) }
{
    pedr_c::read_record(bytes)
}

// Reads one shot of a PEDR record: the refusal number, or 0, and the shot.
pub fn mola_read_shot(bytes: &[u8], shot: usize) -> ShotRead
    ensures { result ≡ shot_read (shot_due bytes.now shot) }
{
    pedr_shot_c::read_shot(bytes, shot)
}

// Writes a record of these fields, engineering block (by its frame), arrays (a class by its number), runs, carried bytes of the block and uninterpreted bytes
// into out: the refusal number, or 0. A block whose frame is none of 1 to 7 is of no record's frame, and has no carried bytes. A refusal leaves out as it was.
pub fn mola_write_record(
    fields: RecordFields,
    block: BlockNumbers,
    arrays: ArrayNumbers,
    runs: BlockRuns,
    carried: &[u8],
    uninterpreted: &[u8],
    out: &mut [u8],
) -> u8
    ensures { (result ≡ pedr_write_refusal.write_refusal fields (block_of_numbers block fields.receiver.frame_index) (arrays_of_numbers arrays)
        carried.now uninterpreted.now out.old)
        × (out.new ≡ pedr_writer.write_bytes fields (block_of_numbers block fields.receiver.frame_index) (arrays_of_numbers arrays) runs
        carried.now uninterpreted.now out.old) }
{
    pedr_write_c::write_record(fields, block, arrays, runs, carried, uninterpreted, out)
}

// Opens the session with this packet at position 0. A refused opening leaves the session as it came.
pub fn mola_open(
    session: &mut Session,
    store: &mut [u8],
    packet: &[u8],
    threshold: u32,
    sum_word: u32,
) -> Answer
    ensures { OpensAs session.old store.old packet.now threshold sum_word
        result session.new store.new }
{
    let opened = reorder_c::open(*session, store, packet, threshold, sum_word);
    *session = opened.session;
    opened.answer
}

// Holds the packet at its position, in the position's 1,080 bytes of the store.
pub fn mola_offer(session: &mut Session, store: &mut [u8], packet: &[u8]) -> Answer
    ensures { OffersAs session.old store.old packet.now result session.new store.new }
{
    let offered = reorder_c::offer(*session, store, packet);
    *session = offered.session;
    offered.answer
}

// Serves the next position.
pub fn mola_serve(session: &mut Session, out: &mut [u8], store: &[u8]) -> Answer
    ensures { ServesAs session.old out.old store.now result session.new out.new }
{
    let served = reorder_c::serve(*session, out, store);
    *session = served.session;
    served.answer
}

// Serves until a serve waits or the budget is spent, and describes the answers in the lent numbers. Only the window is stored back: with the whole
// session, which stays the same but for it, the run keeps the rest at hand too, and takes longer.
pub fn mola_drain(
    session: &mut Session,
    out: &mut [u8],
    store: &[u8],
    budget: u32,
    descriptions: &mut [u32; DESCRIPTION_NUMBERS],
) -> Count
    ensures { DrainsAs session.old out.old store.now budget descriptions.old
        result session.new out.new descriptions.new }
{
    let drained = reorder_c::drain(*session, out, store, budget, descriptions);
    session.window = drained.session.window;
    drained.answer
}

// Passes next over, by hand.
pub fn mola_pass(session: &mut Session) -> Answer
    ensures { PassesAs session.old result session.new }
{
    let passed = reorder_c::pass(*session);
    *session = passed.session;
    passed.answer
}
