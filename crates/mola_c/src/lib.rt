// The functions of mola under the names that C and Rust link to. Each has the promise of the function that it calls.
#![tactic(auto)]

ghost use Rattle.std.specs.Prelude.{◌≡◌, ◌%◌};
ghost use Rattle.checksum.specs.Sum.{word_sum, packet_sum};
ghost use Rattle.packet_check.specs.Refusal.{read_refusal};
ghost use Rattle.packet.specs.Read.{read_due, read_arrays};
ghost use Rattle.packet_bins.specs.Bins.{first_bin, bin_starts};
ghost use Rattle.packet_writer.specs.Write.{write_refusal, write_bytes};
ghost use Rattle.pedr_check.specs.Refusal.{record_refusal};
ghost use Rattle.pedr.specs.Read as pedr;
ghost use Rattle.pedr_shot.specs.Shot.{shot_due};
ghost use Rattle.pedr_c.specs.Numbers.{record_numbers};
ghost use Rattle.pedr_c.specs.Back.{arrays_of_numbers};
ghost use Rattle.pedr_shot_c.specs.Shot.{shot_read};
ghost use Rattle.pedr_block_c.specs.Numbers.{block_of_numbers};
ghost use Rattle.pedr_write_refusal.specs.Refusal as pedr_write_refusal;
ghost use Rattle.pedr_writer.specs.Write as pedr_writer;
ghost use Rattle.reorder_c.specs.Calls.{OpensAs, OffersAs, ServesAs, DrainsAs, PassesAs};
ghost use Rattle.mola.specs.Read.{as_read};

use mola::FieldsAnswer;
use packet::PacketFields;
use packet_layout::{BINS, READINGS, TEMPERATURES};
use pedr_block_c::BlockNumbers;
use pedr_block_runs::BlockRuns;
use pedr_c::{ArrayNumbers, RecordNumbers};
use pedr_fields::RecordFields;
use pedr_shot_c::ShotRead;
use reorder_c_answers::{Answer, Count, DESCRIPTION_NUMBERS};
use reorder_session::Session;

// The refusal number of a packet whose sum stands at word sum_word, or 0.
#[unsafe(no_mangle)]
pub extern "C" fn mola_check_packet(packet: &[u8], sum_word: usize) -> u8
    ensures { result ≡ read_refusal packet.now sum_word }
{
    mola::mola_check_packet(packet, sum_word)
}

// The refusal number of a packet whose sum stands at word sum_word, or 0, and its fields and arrays.
#[unsafe(no_mangle)]
pub extern "C" fn mola_read_packet(packet: &[u8], sum_word: usize) -> FieldsAnswer
    ensures { result ≡ as_read (read_due packet.now sum_word) (read_arrays packet.now sum_word) }
{
    mola::mola_read_packet(packet, sum_word)
}

// The sum of the words of any bytes, carries out of 16 bits dropped. A last odd byte is the upper half of a word.
#[unsafe(no_mangle)]
pub extern "C" fn mola_word_sum(bytes: &[u8]) -> u16
    ensures { result ≡ word_sum bytes.now % 65536 }
{
    mola::mola_word_sum(bytes)
}

// The packet sum of any bytes, with the word sum_word taken as zero.
#[unsafe(no_mangle)]
pub extern "C" fn mola_packet_sum(bytes: &[u8], sum_word: usize) -> u16
    ensures { result ≡ packet_sum bytes.now sum_word }
{
    mola::mola_packet_sum(bytes, sum_word)
}

// The number of the first bin of a packet with this HSTART.
#[unsafe(no_mangle)]
pub extern "C" fn mola_first_bin(hstart: u16) -> u16
    ensures { result ≡ first_bin hstart }
{
    mola::mola_first_bin(hstart)
}

// Where each bin of a packet with this HSTART starts, in metres.
#[unsafe(no_mangle)]
pub extern "C" fn mola_bin_starts(hstart: u16, starts: &mut [u32; BINS])
    ensures { starts.new ≡ bin_starts hstart }
{
    mola::mola_bin_starts(hstart, starts)
}

// Writes a packet into out, with its sum at word sum_word: the refusal number, or 0. A refusal leaves out as it was.
#[unsafe(no_mangle)]
pub extern "C" fn mola_write_packet(
    fields: PacketFields,
    temperatures: &[u8; TEMPERATURES],
    readings: &[u8; READINGS],
    bins: &[u8; BINS],
    carried: &[u8],
    sum_word: usize,
    out: &mut [u8],
) -> u8
    ensures { (result ≡ write_refusal fields carried.now sum_word out.old)
        × (out.new ≡ write_bytes fields
        (record { temperatures = temperatures.now; readings = readings.now; bins = bins.now })
        carried.now sum_word out.old) }
{
    mola::mola_write_packet(fields, temperatures, readings, bins, carried, sum_word, out)
}

// The refusal number of a PEDR record, or 0.
#[unsafe(no_mangle)]
pub extern "C" fn mola_check_record(bytes: &[u8]) -> u8
    ensures { result ≡ record_refusal bytes.now }
{
    mola::mola_check_record(bytes)
}

// Reads a PEDR record: its refusal number, or 0, and what it holds.
#[unsafe(no_mangle)]
pub extern "C" fn mola_read_record(bytes: &[u8]) -> RecordNumbers
    ensures { result ≡ record_numbers (pedr.read_due bytes.now) (pedr.read_arrays bytes.now)
        (pedr.read_runs bytes.now) (pedr.read_carried bytes.now) (pedr.read_uninterpreted bytes.now) }
{
    mola::mola_read_record(bytes)
}

// Reads one shot of a PEDR record: the refusal number, or 0, and the shot.
#[unsafe(no_mangle)]
pub extern "C" fn mola_read_shot(bytes: &[u8], shot: usize) -> ShotRead
    ensures { result ≡ shot_read (shot_due bytes.now shot) }
{
    mola::mola_read_shot(bytes, shot)
}

// Writes a record of these fields, engineering block (by its frame), arrays (a class by its number), runs, carried bytes of the block and uninterpreted bytes
// into out: the refusal number, or 0. A block whose frame is none of 1 to 7 is of no record's frame, and has no carried bytes. A refusal leaves out as it was.
#[unsafe(no_mangle)]
pub extern "C" fn mola_write_record(
    fields: RecordFields,
    block: BlockNumbers,
    arrays: ArrayNumbers,
    runs: BlockRuns,
    carried: &[u8],
    uninterpreted: &[u8],
    out: &mut [u8],
) -> u8
    ensures { (result ≡ pedr_write_refusal.write_refusal fields (block_of_numbers block fields.receiver.frame_index) (arrays_of_numbers arrays)
        carried.now uninterpreted.now out.old)
        × (out.new ≡ pedr_writer.write_bytes fields (block_of_numbers block fields.receiver.frame_index) (arrays_of_numbers arrays) runs
        carried.now uninterpreted.now out.old) }
{
    mola::mola_write_record(fields, block, arrays, runs, carried, uninterpreted, out)
}

// Opens the session with this packet at position 0. A refused opening leaves the session as it came.
#[unsafe(no_mangle)]
pub extern "C" fn mola_open(
    session: &mut Session,
    store: &mut [u8],
    packet: &[u8],
    threshold: u32,
    sum_word: u32,
) -> Answer
    ensures { OpensAs session.old store.old packet.now threshold sum_word
        result session.new store.new }
{
    mola::mola_open(session, store, packet, threshold, sum_word)
}

// Holds the packet at its position, in the position's 1,080 bytes of the store.
#[unsafe(no_mangle)]
pub extern "C" fn mola_offer(session: &mut Session, store: &mut [u8], packet: &[u8]) -> Answer
    ensures { OffersAs session.old store.old packet.now result session.new store.new }
{
    mola::mola_offer(session, store, packet)
}

// Serves the next position.
#[unsafe(no_mangle)]
pub extern "C" fn mola_serve(session: &mut Session, out: &mut [u8], store: &[u8]) -> Answer
    ensures { ServesAs session.old out.old store.now result session.new out.new }
{
    mola::mola_serve(session, out, store)
}

// Serves until a serve waits or the budget is spent, and describes the answers in the lent numbers.
#[unsafe(no_mangle)]
pub extern "C" fn mola_drain(
    session: &mut Session,
    out: &mut [u8],
    store: &[u8],
    budget: u32,
    descriptions: &mut [u32; DESCRIPTION_NUMBERS],
) -> Count
    ensures { DrainsAs session.old out.old store.now budget descriptions.old
        result session.new out.new descriptions.new }
{
    mola::mola_drain(session, out, store, budget, descriptions)
}

// Passes next over, by hand.
#[unsafe(no_mangle)]
pub extern "C" fn mola_pass(session: &mut Session) -> Answer
    ensures { PassesAs session.old result session.new }
{
    mola::mola_pass(session)
}
