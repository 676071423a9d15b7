// The 1,080-byte science packet: its fields and the reader.
#![tactic(auto)]

ghost use Rattle.std.specs.Prelude.{◌≡◌};
ghost use Rattle.refusal.specs.Number.{said};
ghost use Rattle.packet.specs.Fields.{fields_of, arrays_of, carried_of};
ghost use Rattle.packet.specs.Read.{read_due, packet_due};

use packet_layout::{
    BINS, CARRIED_AT, CARRIED_SIZE, COUNTS, HSTART_AT, READINGS, READINGS_AT, STATUS_AT,
    TEMPERATURES, TEMPERATURES_AT,
};
use refusal::Refusal;

// The free fields that are single numbers, laid out as C does.
#[repr(C)]
#[derive(Clone, Copy, Default)]
pub struct PacketFields {
    pub error_status: u8,
    pub count: u16,
    pub coarse_time: u32,
    pub fine_time: u8,
    pub status_register: u8,
    pub software_version: u8,
    pub ram_flag_word: u16,
    pub status_word_1: u16,
    pub status_word_2: u16,
    pub software_checksum: u16,
    pub commands_received: u8,
    pub command_errors: u8,
    pub transmitter_threshold: u8,
    pub tracking_status: u8,
    pub hstart: u16,
}

// The free fields that are arrays; the bins in bin order.
#[repr(C)]
#[derive(Clone, Copy, Default)]
pub struct PacketArrays {
    pub temperatures: [u8; TEMPERATURES],
    pub readings: [u8; READINGS],
    pub bins: [u8; BINS],
}

// The free fields of an accepted packet.
#[derive(Clone, Copy)]
pub struct Packet {
    pub fields: PacketFields,
    pub arrays: PacketArrays,
}

#[tactic(auto, unfolding(crate::specs::Fields::fields_of))]
fn read_fields(bytes: &[u8]) -> PacketFields
    ensures { result ≡ fields_of bytes.now }
{
    PacketFields {
        error_status: ((octets::u16_at(bytes, 0) >> 8) % 8) as u8,
        count: octets::u16_at(bytes, 2) % COUNTS,
        coarse_time: octets::u32_at(bytes, 6),
        fine_time: octets::u8_at(bytes, 10),
        status_register: octets::u8_at(bytes, STATUS_AT),
        software_version: octets::u8_at(bytes, 43),
        ram_flag_word: octets::u16_at(bytes, 44),
        status_word_1: octets::u16_at(bytes, 46),
        status_word_2: octets::u16_at(bytes, 48),
        software_checksum: octets::u16_at(bytes, 50),
        commands_received: octets::u8_at(bytes, 52),
        command_errors: octets::u8_at(bytes, 53),
        transmitter_threshold: octets::u8_at(bytes, 54),
        tracking_status: octets::u8_at(bytes, 55),
        hstart: octets::u16_at(bytes, HSTART_AT),
    }
}

#[tactic(auto, unfolding(crate::specs::Fields::arrays_of))]
fn read_arrays(bytes: &[u8]) -> PacketArrays
    ensures { result ≡ arrays_of bytes.now }
{
    let mut temperatures = [0u8; TEMPERATURES];
    octets::read_into(bytes, TEMPERATURES_AT, &mut temperatures);
    let mut readings = [0u8; READINGS];
    octets::read_into(bytes, READINGS_AT, &mut readings);
    PacketArrays {
        temperatures,
        readings,
        bins: packet_bins::read_bins(bytes),
    }
}

// Reads the single fields of a packet whose sum stands at word sum_word. Any bytes, any word.
pub fn read_answer(bytes: &[u8], sum_word: usize) -> Result<PacketFields, Refusal>
    ensures { said result ≡ read_due bytes.now sum_word }
{
    packet_check::check_packet(bytes, sum_word)?;
    Ok(read_fields(bytes))
}

// Reads a packet, the arrays too.
pub fn read_packet(bytes: &[u8], sum_word: usize) -> Result<Packet, Refusal>
    ensures { said result ≡ packet_due bytes.now sum_word }
{
    let fields = read_answer(bytes, sum_word)?;
    Ok(Packet {
        fields,
        arrays: read_arrays(bytes),
    })
}

// The carried bytes of a packet, as a part of its own slice.
pub fn carried(bytes: &[u8]) -> &[u8]
    ensures { result.now ≡ carried_of bytes.now }
{
    let rest = octets::bytes_from(bytes, CARRIED_AT);
    &rest[..CARRIED_SIZE.min(rest.len())]
}
