// The packet's two round trips, of the definitions and of the code.
#![tactic(auto)]

ghost use Rattle.std.specs.Prelude.{◌≡◌};
ghost use Rattle.refusal.specs.Number.{said};
ghost use Rattle.packet_writer.specs.Write.{write_bytes};
ghost use Rattle.packet_laws.specs.RoundTrip.{ReadsBack, WritesBack, copy_due, copy_bytes, echo_due};

use packet::Packet;
use refusal::Refusal;

// Reading what was written gives the fields back.
pub fn reads_back()
    ensures { ReadsBack }
{}

// Writing what was read gives the bytes back.
pub fn writes_back()
    ensures { WritesBack }
{}

// Reads a packet and writes it again: an accepted packet's own bytes stand in the output.
pub fn copy_packet(bytes: &[u8], sum_word: usize, out: &mut [u8]) -> Result<(), Refusal>
    ensures { (said result ≡ copy_due bytes.now sum_word out.old)
        × (out.new ≡ copy_bytes bytes.now sum_word out.old) }
{
    let packet = packet::read_packet(bytes, sum_word)?;
    packet_writer::write_packet(&packet, packet::carried(bytes), sum_word, out)
}

// Writes a packet and reads it again: the packet that was given, or the writer's refusal.
pub fn write_and_read(
    packet: Packet,
    carried: &[u8],
    sum_word: usize,
    out: &mut [u8],
) -> Result<Packet, Refusal>
    ensures { (said result ≡ echo_due packet carried.now sum_word out.old)
        × (out.new ≡ write_bytes packet.fields packet.arrays carried.now sum_word out.old) }
{
    packet_writer::write_packet(&packet, carried, sum_word, out)?;
    packet::read_packet(out, sum_word)
}
