// The PEDR record's engineering block in structs of numbers, for callers in languages that have no such enums.
#![tactic(auto)]

ghost use Rattle.std.specs.Prelude.{◌≡◌};
ghost use Rattle.pedr_block.specs.Block.{block_of};
ghost use Rattle.pedr_block_c.specs.Numbers.{no_frame_1, no_frame_2, no_frame_3, no_frame_5, no_frame_6, no_frame_7, no_block, block_numbers, other_block, block_of_numbers};

use pedr_block::{
    Block, Frame1Fields, Frame2Fields, Frame3Fields, Frame4Fields, Frame5Fields, Frame6Fields,
    Frame7Fields,
};
use pedr_layout::FRAME_INDEX_AT;

// The frame, 1 to 7, or 0 where there is none, and the fields of each frame that has some. Those of the other frames are zeros where they are given, and are
// not looked at where they are taken.
#[repr(C)]
#[derive(Clone, Copy, Default)]
pub struct BlockNumbers {
    pub frame: u32,
    pub frame_1: Frame1Fields,
    pub frame_2: Frame2Fields,
    pub frame_3: Frame3Fields,
    pub frame_5: Frame5Fields,
    pub frame_6: Frame6Fields,
    pub frame_7: Frame7Fields,
}

// The numbers of a refusal: all zeros.
pub fn no_block() -> BlockNumbers
    ensures { result ≡ no_block }
{
    BlockNumbers::default()
}

// Reads the block of any bytes, by their frame index, in numbers; the fields of the other frames are zeros.
pub fn read_block(bytes: &[u8]) -> BlockNumbers
    ensures { result ≡ block_numbers (block_of bytes.now) }
{
    let none = no_block();
    let frame = octets::u16_at(bytes, FRAME_INDEX_AT);
    match frame {
        1 => BlockNumbers {
            frame: 1,
            frame_1: pedr_block::read_frame_1(bytes),
            ..none
        },
        2 => BlockNumbers {
            frame: 2,
            frame_2: pedr_block::read_frame_2(bytes),
            ..none
        },
        3 => BlockNumbers {
            frame: 3,
            frame_3: pedr_block::read_frame_3(bytes),
            ..none
        },
        4 => BlockNumbers { frame: 4, ..none },
        5 => BlockNumbers {
            frame: 5,
            frame_5: pedr_block::read_frame_5(bytes),
            ..none
        },
        6 => BlockNumbers {
            frame: 6,
            frame_6: pedr_block::read_frame_6(bytes),
            ..none
        },
        _ => BlockNumbers {
            frame: 7,
            frame_7: pedr_block::read_frame_7(bytes),
            ..none
        },
    }
}

// The block of a frame number that is none of 1 to 7: one that is not of the frame index, and leaves no carried bytes.
fn other_block(frame_1: Frame1Fields, frame_2: Frame2Fields, index: u16) -> Block
    ensures { result ≡ other_block frame_1 frame_2 index }
{
    if index == 1 {
        Block::Frame2(frame_2)
    } else {
        Block::Frame1(frame_1)
    }
}

// The block that numbers stand for, beside a frame index. Any numbers: a frame that is none of 1 to 7 gives a block of another frame than the index.
pub fn block_of(numbers: BlockNumbers, index: u16) -> Block
    ensures { result ≡ block_of_numbers numbers index }
{
    let frame = numbers.frame;
    let frame_1 = numbers.frame_1;
    let frame_2 = numbers.frame_2;
    let frame_3 = numbers.frame_3;
    let frame_5 = numbers.frame_5;
    let frame_6 = numbers.frame_6;
    let frame_7 = numbers.frame_7;
    match frame {
        1 => Block::Frame1(frame_1),
        2 => Block::Frame2(frame_2),
        3 => Block::Frame3(frame_3),
        4 => Block::Frame4(Frame4Fields {}),
        5 => Block::Frame5(frame_5),
        6 => Block::Frame6(frame_6),
        7 => Block::Frame7(frame_7),
        _ => other_block(frame_1, frame_2, index),
    }
}
