// The published layout of the 1,080-byte science packet: its table of columns, which covers it, and its numbers for callers.
#![tactic(auto)]

ghost use Rattle.std.specs.Prelude.{◌≡◌};
ghost use Rattle.packet_layout.specs.SumWord.{is_sum_word};
ghost use Rattle.packet_layout.specs.Cover.{LayoutCovers};

// The packet's bytes.
pub const PACKET_SIZE: usize = 1080;

// The words at which its sum may stand, and the published one (docs/LAYOUTS.md has the working).
pub const FIRST_SUM_WORD: usize = 53;

pub const LAST_SUM_WORD: usize = 539;

pub const PUBLISHED_SUM_WORD: usize = 70;

// The fixed fields that are not 0.
pub const INSTRUMENT: u16 = 35;

pub const SEGMENTATION: u16 = 3;

pub const LENGTH: u16 = 1073;

// The count has 14 bits, below the segmentation.
pub const COUNTS: u16 = 16384;

// The largest values of the free fields that have no whole bytes of their own.
pub const MOST_COUNT: u16 = COUNTS - 1;

pub const MOST_ERROR_STATUS: u8 = 7;

// How many bytes the columns of several bytes have.
pub const TEMPERATURES: usize = 16;

pub const READINGS: usize = 14;

pub const BINS: usize = 48;

pub const CARRIED_SIZE: usize = 974;

// The packet bytes, from 0, where columns start; the status columns lie one after the other from STATUS_AT on.
pub const TEMPERATURES_AT: usize = 12;

pub const READINGS_AT: usize = 28;

pub const STATUS_AT: usize = 42;

pub const HISTOGRAM_AT: usize = 56;

pub const HSTART_AT: usize = 104;

pub const CARRIED_AT: usize = 106;

// Whether a packet's sum may stand at this word.
pub fn is_sum_word(word: usize) -> bool
    ensures { result ≡ is_sum_word word }
{
    (FIRST_SUM_WORD..=LAST_SUM_WORD).contains(&word)
}

// Each byte of the packet stands in exactly one column.
pub fn layout_covers()
    ensures { LayoutCovers }
{}
