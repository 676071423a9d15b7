// The check of the science packet: refusals 1 to 10, without its fields.
#![tactic(auto)]

ghost use Rattle.std.specs.Prelude.{◌≡◌};
ghost use Rattle.octets.specs.Refusal.{refusal_in};
ghost use Rattle.refusal.specs.Number.{said};
ghost use Rattle.packet_check.specs.Header.{header_refusal};
ghost use Rattle.packet_check.specs.Refusal.{read_refusal};

use packet_layout::{INSTRUMENT, LENGTH, PACKET_SIZE, SEGMENTATION};
use refusal::Refusal;

// Refusals 3 to 8.
#[tactic(auto, using(octets::proofs::Ladder::rungs), unfolding(crate::specs::Header::header_refusal))]
fn check_header(bytes: &[u8]) -> Result<(), Refusal>
    ensures { refusal_in (said result) ≡ header_refusal bytes.now }
{
    let id = octets::u16_at(bytes, 0);
    if (id >> 13) % 8 != 0 {
        return Err(Refusal::Version);
    }
    if (id >> 12) % 2 != 0 {
        return Err(Refusal::Spare);
    }
    if (id >> 11) % 2 != 0 {
        return Err(Refusal::Flag);
    }
    if id % 256 != INSTRUMENT {
        return Err(Refusal::Instrument);
    }
    if (octets::u16_at(bytes, 2) >> 14) % 4 != SEGMENTATION {
        return Err(Refusal::Segmentation);
    }
    if octets::u16_at(bytes, 4) != LENGTH {
        return Err(Refusal::Length);
    }
    Ok(())
}

// Refusals 1 to 10: the check of a packet without its fields. Any bytes, any word.
#[tactic(auto, using(octets::proofs::Ladder::rungs, refusal::proofs::Said::then_handed_on), unfolding(crate::specs::Refusal::read_refusal))]
pub fn check_packet(bytes: &[u8], sum_word: usize) -> Result<(), Refusal>
    ensures { refusal_in (said result) ≡ read_refusal bytes.now sum_word }
{
    if bytes.len() != PACKET_SIZE {
        return Err(Refusal::PacketSize);
    }
    if !packet_layout::is_sum_word(sum_word) {
        return Err(Refusal::SumPlace);
    }
    check_header(bytes)?;
    if octets::u8_at(bytes, 11) != 0 {
        return Err(Refusal::PacketType);
    }
    if checksum::packet_sum(bytes, sum_word) != octets::u16_at(bytes, sum_word * 2) {
        return Err(Refusal::Sum);
    }
    Ok(())
}
