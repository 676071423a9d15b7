// The engineering block of a PEDR record: the columns of its frame that are runs of items, and the bytes that its layout leaves unnamed.
#![tactic(auto)]

ghost use Rattle.std.specs.Prelude.{◌≡◌};
ghost use Rattle.pedr_block_runs.specs.Runs.{no_runs, runs_in3, runs_in4, runs_in5, runs_in6, runs_of};
ghost use Rattle.pedr_block_runs.specs.Carried.{carried_of};

use pedr_layout::{CARRIED_MOST, FRAME_INDEX_AT};

// The runs of items, each number as it stands in the record. What the frame lacks, whole runs and the items behind its own, is zeros.
#[repr(C)]
#[derive(Clone, Copy, Default)]
pub struct BlockRuns {
    pub status_flags: [u16; 2],
    pub range_gate_tracker_array: [u16; 14],
    pub memory_dump_segment: [u16; 5],
    pub command_echo: [u16; 8],
}

// The runs of a frame that has none, and of a refusal: all zeros.
#[tactic(auto, unfolding(crate::specs::Runs::no_runs))]
pub fn no_runs() -> BlockRuns
    ensures { result ≡ no_runs }
{
    BlockRuns {
        status_flags: [0; 2],
        range_gate_tracker_array: [0; 14],
        memory_dump_segment: [0; 5],
        command_echo: [0; 8],
    }
}

#[tactic(auto, unfolding(crate::specs::Runs::runs_in3, crate::specs::Runs::no_runs))]
fn read_runs_3(bytes: &[u8]) -> BlockRuns
    ensures { result ≡ runs_in3 bytes.now }
{
    let mut range_gate_tracker_array = [0; 14];
    octets_runs::read_run(bytes, 528, &mut range_gate_tracker_array[..4]);
    BlockRuns {
        status_flags: octets_runs::run(bytes, 516),
        range_gate_tracker_array,
        ..no_runs()
    }
}

#[tactic(auto, unfolding(crate::specs::Runs::runs_in4, crate::specs::Runs::no_runs))]
fn read_runs_4(bytes: &[u8]) -> BlockRuns
    ensures { result ≡ runs_in4 bytes.now }
{
    BlockRuns {
        range_gate_tracker_array: octets_runs::run(bytes, 508),
        ..no_runs()
    }
}

#[tactic(auto, unfolding(crate::specs::Runs::runs_in5, crate::specs::Runs::no_runs))]
fn read_runs_5(bytes: &[u8]) -> BlockRuns
    ensures { result ≡ runs_in5 bytes.now }
{
    let mut range_gate_tracker_array = [0; 14];
    octets_runs::read_run(bytes, 508, &mut range_gate_tracker_array[..6]);
    let mut memory_dump_segment = [0; 5];
    octets_runs::read_run(bytes, 530, &mut memory_dump_segment[..3]);
    BlockRuns {
        range_gate_tracker_array,
        memory_dump_segment,
        ..no_runs()
    }
}

#[tactic(auto, unfolding(crate::specs::Runs::runs_in6, crate::specs::Runs::no_runs))]
fn read_runs_6(bytes: &[u8]) -> BlockRuns
    ensures { result ≡ runs_in6 bytes.now }
{
    BlockRuns {
        memory_dump_segment: octets_runs::run(bytes, 508),
        command_echo: octets_runs::run(bytes, 518),
        ..no_runs()
    }
}

// Reads the runs of any bytes, also of those that are refused as a record; a byte past the end reads as 0.
#[tactic(auto, unfolding(crate::specs::Runs::runs_of))]
pub fn read_runs(bytes: &[u8]) -> BlockRuns
    ensures { result ≡ runs_of bytes.now }
{
    match octets::u16_at(bytes, FRAME_INDEX_AT) {
        3 => read_runs_3(bytes),
        4 => read_runs_4(bytes),
        5 => read_runs_5(bytes),
        6 => read_runs_6(bytes),
        _ => no_runs(),
    }
}

// Reads the bytes of the block that its frame's layout leaves unnamed, in the record's order, and zeros behind them. Any bytes, also those that are refused
// as a record; a byte past the end reads as 0, and a frame index that is none of 1 to 6 as 7.
#[tactic(auto, unfolding(crate::specs::Carried::carried_of, crate::specs::Carried::carried_by))]
pub fn read_carried(bytes: &[u8]) -> [u8; CARRIED_MOST]
    ensures { result ≡ carried_of bytes.now }
{
    let mut carried = [0; CARRIED_MOST];
    match octets::u16_at(bytes, FRAME_INDEX_AT) {
        1 | 2 | 4 | 6 => {}
        3 => octets::read_into(bytes, 526, &mut carried[..2]),
        5 => octets::read_into(bytes, 524, &mut carried[..4]),
        _ => {
            let (first, second) = carried.split_at_mut(4);
            octets::read_into(bytes, 516, first);
            octets::read_into(bytes, 530, second);
        }
    }
    carried
}
