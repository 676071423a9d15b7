// The writer of the 1,080-byte science packet.
#![tactic(auto)]

ghost use Rattle.std.specs.Prelude.{◌≡◌, ◌≤◌, length};
ghost use Rattle.octets.specs.Bytes.{put};
ghost use Rattle.octets.specs.Refusal.{refusal_in};
ghost use Rattle.refusal.specs.Number.{said};
ghost use Rattle.layout.specs.Column.{join};
ghost use Rattle.packet_layout.specs.Layout as columns;
ghost use Rattle.packet_layout.specs.Header.{most_count};
ghost use Rattle.packet_writer.specs.Write.{head_parts, status_parts, histogram_of, unsummed, write_refusal, write_due, write_bytes};

use octets_writer::{write_u16, write_u32};
use packet::{Packet, PacketFields};
use packet_layout::{
    BINS, CARRIED_AT, CARRIED_SIZE, COUNTS, HISTOGRAM_AT, HSTART_AT, INSTRUMENT, LENGTH,
    MOST_COUNT, MOST_ERROR_STATUS, PACKET_SIZE, READINGS_AT, SEGMENTATION, STATUS_AT,
    TEMPERATURES_AT,
};
use refusal::Refusal;

// Refusals 2, 17 and 18.
#[tactic(auto, using(octets::proofs::Ladder::rungs), unfolding(crate::specs::Write::write_refusal))]
fn check_write(
    fields: &PacketFields,
    carried: &[u8],
    sum_word: usize,
    out: &[u8],
) -> Result<(), Refusal>
    ensures { refusal_in (said result) ≡ write_refusal fields.now carried.now sum_word out.now }
{
    if !packet_layout::is_sum_word(sum_word) {
        return Err(Refusal::SumPlace);
    }
    if MOST_COUNT < fields.count {
        return Err(Refusal::FreeField);
    }
    if MOST_ERROR_STATUS < fields.error_status {
        return Err(Refusal::FreeField);
    }
    if carried.len() != CARRIED_SIZE {
        return Err(Refusal::FreeField);
    }
    if out.len() != PACKET_SIZE {
        return Err(Refusal::PacketOutput);
    }
    Ok(())
}

// Stores bytes 0 to 11.
fn write_head(f: &PacketFields, out: &mut [u8])
    requires { f.now.count ≤ most_count }
    ensures { out.new ≡ put out.old 0 (join (head_parts f.now)) }
{
    write_u16(f.error_status as u16 * 256 + INSTRUMENT, 0, out);
    write_u16(SEGMENTATION * COUNTS + f.count, 2, out);
    write_u16(LENGTH, 4, out);
    write_u32(f.coarse_time, 6, out);
    octets::write_into(&[f.fine_time, 0], 10, out);
}

// Stores bytes 42 to 55.
fn write_status(f: &PacketFields, out: &mut [u8])
    ensures { out.new ≡ put out.old 42 (join (status_parts f.now)) }
{
    octets::write_into(&[f.status_register, f.software_version], STATUS_AT, out);
    write_u16(f.ram_flag_word, 44, out);
    write_u16(f.status_word_1, 46, out);
    write_u16(f.status_word_2, 48, out);
    write_u16(f.software_checksum, 50, out);
    let last = [
        f.commands_received,
        f.command_errors,
        f.transmitter_threshold,
        f.tracking_status,
    ];
    octets::write_into(&last, 52, out);
}

// Bytes 56 to 103.
fn histogram_bytes(bins: &[u8; BINS]) -> [u8; BINS]
    ensures { result ≡ histogram_of bins.now }
{
    std::array::from_fn(|k| bins[packet_bins::partner(k)])
}

// Stores the packet but for its sum: at the sum's word the carried bytes stand as given.
fn write_unsummed(packet: &Packet, carried: &[u8], out: &mut [u8])
    requires { (packet.now.fields.count ≤ most_count) × (length carried.now ≡ (columns.carried).items) × (length out.old ≡ columns.packet_size) }
    ensures { out.new ≡ unsummed packet.now.fields packet.now.arrays carried.now }
{
    let Packet { fields, arrays } = packet;
    write_head(fields, out);
    octets::write_into(&arrays.temperatures, TEMPERATURES_AT, out);
    octets::write_into(&arrays.readings, READINGS_AT, out);
    write_status(fields, out);
    octets::write_into(&histogram_bytes(&arrays.bins), HISTOGRAM_AT, out);
    write_u16(fields.hstart, HSTART_AT, out);
    octets::write_into(carried, CARRIED_AT, out);
}

// Writes a packet whose sum stands at word sum_word. Any fields, any carried bytes, any word, any output; on a refusal the output stays.
pub fn write_packet(
    packet: &Packet,
    carried: &[u8],
    sum_word: usize,
    out: &mut [u8],
) -> Result<(), Refusal>
    ensures { (said result ≡ write_due packet.now.fields carried.now sum_word out.old)
        × (out.new ≡ write_bytes packet.now.fields packet.now.arrays carried.now sum_word out.old) }
{
    check_write(&packet.fields, carried, sum_word, out)?;
    write_unsummed(packet, carried, out);
    write_u16(checksum::packet_sum(out, sum_word), sum_word * 2, out);
    Ok(())
}
