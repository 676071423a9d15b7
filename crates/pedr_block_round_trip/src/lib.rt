// The engineering block's round trips: what the types of a block, its runs and its carried bytes say of their numbers.
#![tactic(auto)]

ghost use Rattle.layout.specs.Row.{RowHolds};
ghost use Rattle.pedr_layout.specs.Block as columns;
ghost use Rattle.pedr_block_writer.specs.Rows as rows;
ghost use Rattle.pedr_block_round_trip.specs.Kept.{TypedBlock};

use pedr_block::{
    Block, Frame1Fields, Frame2Fields, Frame3Fields, Frame5Fields, Frame6Fields, Frame7Fields,
};
use pedr_block_runs::BlockRuns;

fn type_frame_1(fields: Frame1Fields)
    ensures { RowHolds (columns.columns_in columns.frame1) (rows.frame1_row fields) }
{}

fn type_frame_2(fields: Frame2Fields)
    ensures { RowHolds (columns.columns_in columns.frame2) (rows.frame2_row fields) }
{}

fn type_frame_3(fields: Frame3Fields, flags: [u16; 2], tracker: [u16; 14], carried: &[u8])
    ensures { RowHolds (columns.columns_in columns.frame3) (rows.frame3_row fields flags tracker carried.now) }
{
    let _ = octets::u8_at(carried, 0);
}

fn type_frame_4(tracker: [u16; 14])
    ensures { RowHolds (columns.columns_in columns.frame4) (rows.frame4_row tracker) }
{}

fn type_frame_5(fields: Frame5Fields, tracker: [u16; 14], dump: [u16; 5], carried: &[u8])
    ensures { RowHolds (columns.columns_in columns.frame5) (rows.frame5_row fields tracker dump carried.now) }
{
    let _ = octets::u8_at(carried, 0);
}

fn type_frame_6(fields: Frame6Fields, dump: [u16; 5], echo: [u16; 8])
    ensures { RowHolds (columns.columns_in columns.frame6) (rows.frame6_row fields dump echo) }
{}

fn type_frame_7(fields: Frame7Fields, carried: &[u8])
    ensures { RowHolds (columns.columns_in columns.frame7) (rows.frame7_row fields carried.now) }
{
    let _ = octets::u8_at(carried, 0);
}

// The bounds that the types give.
pub fn type_block(block: Block, runs: BlockRuns, carried: &[u8])
    ensures { TypedBlock block runs carried.now }
{
    let flags = runs.status_flags;
    let tracker = runs.range_gate_tracker_array;
    let dump = runs.memory_dump_segment;
    let echo = runs.command_echo;
    match block {
        Block::Frame1(fields) => type_frame_1(fields),
        Block::Frame2(fields) => type_frame_2(fields),
        Block::Frame3(fields) => type_frame_3(fields, flags, tracker, carried),
        Block::Frame4(_) => type_frame_4(tracker),
        Block::Frame5(fields) => type_frame_5(fields, tracker, dump, carried),
        Block::Frame6(fields) => type_frame_6(fields, dump, echo),
        Block::Frame7(fields) => type_frame_7(fields, carried),
    }
}
