// The histogram of the science packet: its 48 bins, and where they start.
#![tactic(auto)]

ghost use Rattle.std.specs.Prelude.{◌≡◌, ◌-◌, ◌<◌};
ghost use Rattle.packet_layout.specs.Layout.{histogram};
ghost use Rattle.packet_bins.specs.Bins.{bin_byte, bins_of, first_bin, bin_starts};

use packet_layout::{BINS, HISTOGRAM_AT};

// The other index of j's pair: byte j of the histogram holds that bin.
pub fn partner(j: usize) -> usize
    ensures other { result ≡ bin_byte j - histogram.start }
    ensures within { j < histogram.items → result < histogram.items }
{
    if j % 2 == 0 { j + 1 } else { j - 1 }
}

// The bins of a packet, in bin order. Any bytes.
pub fn read_bins(bytes: &[u8]) -> [u8; BINS]
    ensures { result ≡ bins_of bytes.now }
{
    std::array::from_fn(|j| octets::u8_at(bytes, HISTOGRAM_AT + partner(j)))
}

// The number of the first bin of a packet with this HSTART.
#[tactic(auto, unfolding(crate::specs::Bins::first_bin))]
pub fn first_bin(hstart: u16) -> u16
    ensures { result ≡ first_bin hstart }
{
    let moved = hstart.wrapping_add(0xFFFE);
    moved - moved % 2
}

// Where each bin starts, in metres.
pub fn bin_starts(hstart: u16) -> [u32; BINS]
    ensures { result ≡ bin_starts hstart }
{
    let first = first_bin(hstart) as u32;
    std::array::from_fn(|j| (first + j as u32) * 1536)
}
