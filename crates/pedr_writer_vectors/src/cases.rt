// The rows. Each is a number, the sum of parts named here: it starts from a new record or keeps what is given, may change a field of it, and may have it
// written. So 40 * DUE + ZEROS + WRITE + UNASSIGNED + 10 * ITEM + 1 is a record of zeros whose class of shot 10 is given as unassigned with
// number 1, written, with refusal 40 due.

pub const DUE: u64 = 100_000_000_000_000_000; // times the refusal that is due; 0 where none is

// The record is written. WRITE prints the answer and digests, FULL the bytes of the output and those after it too.
pub const SHOW: u64 = 10_000_000_000_000_000;

pub const WRITE: u64 = 1 * SHOW;

pub const FULL: u64 = 2 * SHOW;

// What is given is read from a record, filled by a rule; its bytes count from 1. So that it is accepted, bytes 5, 6, 13 and 491 are 0, byte 492 is 1, and
// byte 32 is the number of its good shots. As many carried bytes are lent as its block has, 220 uninterpreted ones, and 776 of output.
pub const FILL: u64 = 1_000_000_000_000_000;

pub const ZEROS: u64 = 1 * FILL;

pub const ONES: u64 = 2 * FILL; // every byte is 255

pub const SPREAD: u64 = 3 * FILL; // byte b is (37 b + floor(b / 4)) mod 256

// A field, plus the item of an array times ITEM, from 1, plus the number that is put there.
pub const FIELD: u64 = 10_000_000_000_000;

pub const ITEM: u64 = 10_000_000_000;

pub const WHOLE: u64 = 1 * FIELD;

pub const MICROS: u64 = 2 * FIELD;

pub const ORBIT: u64 = 3 * FIELD;

pub const LATITUDE: u64 = 4 * FIELD;

pub const LONGITUDE: u64 = 5 * FIELD;

pub const RADIAL_DISTANCE: u64 = 6 * FIELD;

pub const GROUND_LATITUDE: u64 = 7 * FIELD;

pub const GROUND_LONGITUDE: u64 = 8 * FIELD;

pub const GOOD: u64 = 9 * FIELD;

pub const QUALITY_CARRIED: u64 = 10 * FIELD;

pub const COUNTER: u64 = 11 * FIELD;

// Tests: 1 is a failure.
pub const PACKET_SUM: u64 = 12 * FIELD;

pub const SOFTWARE_SUM: u64 = 13 * FIELD;

pub const MODE: u64 = 14 * FIELD;

pub const OTS: u64 = 15 * FIELD;

pub const DESCRIPTOR_CARRIED: u64 = 16 * FIELD;

pub const RIGHT_ASCENSION: u64 = 17 * FIELD;

pub const DECLINATION: u64 = 18 * FIELD;

pub const TWIST: u64 = 19 * FIELD;

pub const MID_POINT_RANGE: u64 = 20 * FIELD;

pub const FRAME_RADIUS: u64 = 21 * FIELD;

pub const DELAY: u64 = 22 * FIELD;

pub const WIDTH: u64 = 23 * FIELD;

pub const CHANNEL_MASK: u64 = 24 * FIELD;

pub const MINIMUM_HITS: u64 = 25 * FIELD;

pub const HIT_COUNT: u64 = 26 * FIELD;

pub const FRAME_COUNTER: u64 = 27 * FIELD;

pub const TRIGGER: u64 = 28 * FIELD;

pub const FRAME_INDEX: u64 = 29 * FIELD;

pub const SECONDS: u64 = 30 * FIELD;

pub const MILLIS: u64 = 31 * FIELD;

pub const FINE_TIME: u64 = 32 * FIELD;

// Of a shot.
pub const RADIUS: u64 = 33 * FIELD;

pub const ENERGY: u64 = 34 * FIELD;

pub const REFLECTIVITY: u64 = 35 * FIELD;

pub const TRIGGER_CHANNEL: u64 = 36 * FIELD;

pub const PULSE_WIDTH: u64 = 37 * FIELD;

pub const OPTICAL_WIDTH: u64 = 38 * FIELD;

pub const LASER_POWER: u64 = 39 * FIELD;

// Its class; the number is that of an unassigned one.
pub const NO_TRIGGER: u64 = 40 * FIELD;

pub const PROBABLE_GROUND: u64 = 41 * FIELD;

pub const UNASSIGNED: u64 = 42 * FIELD;

// The parts of its encoder byte.
pub const START: u64 = 43 * FIELD;

pub const CARRIED_LOW: u64 = 44 * FIELD;

pub const STOP: u64 = 45 * FIELD;

pub const CARRIED_HIGH: u64 = 46 * FIELD;

// Its tests.
pub const POWER_TEST: u64 = 47 * FIELD;

pub const ENERGY_TEST: u64 = 48 * FIELD;

pub const RANGE_TEST: u64 = 49 * FIELD;

pub const WINDOW_TEST: u64 = 50 * FIELD;

pub const COMPARISON_TEST: u64 = 51 * FIELD;

// Of a channel.
pub const NOISE: u64 = 52 * FIELD;

pub const THRESHOLDS: u64 = 53 * FIELD;

pub const XYZ: u64 = 54 * FIELD;

pub const SOURCE_HEADER: u64 = 55 * FIELD;

pub const UNINTERPRETED: u64 = 56 * FIELD;

// How many uninterpreted bytes and how many bytes of output are lent.
pub const UNINTERPRETED_SIZE: u64 = 57 * FIELD;

pub const OUTPUT_SIZE: u64 = 58 * FIELD;

// Beside a fill: byte 492 of the record that is read is this number, and not 1.
pub const FRAME: u64 = 59 * FIELD;

// The runs of the engineering block, its carried bytes, and how many of these are lent.
pub const STATUS_FLAGS: u64 = 60 * FIELD;

pub const RANGE_GATE_TRACKER_ARRAY: u64 = 61 * FIELD;

pub const MEMORY_DUMP_SEGMENT: u64 = 62 * FIELD;

pub const COMMAND_ECHO: u64 = 63 * FIELD;

pub const BLOCK_CARRIED: u64 = 64 * FIELD;

pub const BLOCK_CARRIED_SIZE: u64 = 65 * FIELD;

// Less n, these are -n in four bytes and in two.
pub const NEGATIVE: u64 = 4_294_967_296;

pub const NEGATIVE2: u64 = 65_536;

pub const COUNT: usize = 538;

pub const CASES: [u64; COUNT] = [
    // The fills as they are read.
    ZEROS + WRITE,
    ONES + WRITE,
    SPREAD + FULL,
    // 13: the microseconds.
    SPREAD + WRITE + MICROS + 0,
    SPREAD + WRITE + MICROS + 1,
    SPREAD + WRITE + MICROS + 999_999,
    13 * DUE + SPREAD + WRITE + MICROS + 1_000_000,
    13 * DUE + SPREAD + WRITE + MICROS + 2_147_483_647,
    SPREAD + WRITE + MICROS + NEGATIVE - 1,
    SPREAD + WRITE + MICROS + NEGATIVE - 999_999,
    13 * DUE + SPREAD + WRITE + MICROS + NEGATIVE - 1_000_000,
    13 * DUE + SPREAD + WRITE + MICROS + NEGATIVE - 2_147_483_648,
    // 14: the latitude of byte 13, and not that of the ground.
    SPREAD + WRITE + LATITUDE + 0,
    SPREAD + WRITE + LATITUDE + 90_000_000,
    14 * DUE + SPREAD + WRITE + LATITUDE + 90_000_001,
    14 * DUE + SPREAD + WRITE + LATITUDE + 2_147_483_647,
    SPREAD + WRITE + LATITUDE + NEGATIVE - 1,
    SPREAD + WRITE + LATITUDE + NEGATIVE - 90_000_000,
    14 * DUE + SPREAD + WRITE + LATITUDE + NEGATIVE - 90_000_001,
    14 * DUE + SPREAD + WRITE + LATITUDE + NEGATIVE - 2_147_483_648,
    SPREAD + WRITE + GROUND_LATITUDE + 90_000_001,
    SPREAD + WRITE + GROUND_LATITUDE + 2_147_483_647,
    SPREAD + WRITE + GROUND_LATITUDE + NEGATIVE - 90_000_001,
    SPREAD + WRITE + GROUND_LATITUDE + NEGATIVE - 2_147_483_648,
    // 15: the frame index; from 1 to 7 with the block of its frame.
    SPREAD + WRITE + FRAME + 1,
    SPREAD + WRITE + FRAME + 2,
    SPREAD + WRITE + FRAME + 3,
    SPREAD + WRITE + FRAME + 4,
    SPREAD + WRITE + FRAME + 5,
    SPREAD + WRITE + FRAME + 6,
    SPREAD + WRITE + FRAME + 7,
    15 * DUE + SPREAD + WRITE + FRAME_INDEX + 0,
    15 * DUE + SPREAD + WRITE + FRAME_INDEX + 8,
    15 * DUE + SPREAD + WRITE + FRAME_INDEX + 255,
    15 * DUE + SPREAD + WRITE + FRAME_INDEX + 256,
    15 * DUE + SPREAD + WRITE + FRAME_INDEX + 257,
    15 * DUE + SPREAD + WRITE + FRAME_INDEX + 263,
    15 * DUE + SPREAD + WRITE + FRAME_INDEX + 32_769,
    15 * DUE + SPREAD + WRITE + FRAME_INDEX + 65_535,
    // 40: a class given as unassigned with a number that has a name.
    40 * DUE + SPREAD + WRITE + UNASSIGNED + 1 * ITEM + 0,
    40 * DUE + SPREAD + WRITE + UNASSIGNED + 1 * ITEM + 1,
    SPREAD + WRITE + UNASSIGNED + 1 * ITEM + 2,
    SPREAD + WRITE + UNASSIGNED + 1 * ITEM + 65_535,
    SPREAD + WRITE + NO_TRIGGER + 1 * ITEM,
    SPREAD + WRITE + PROBABLE_GROUND + 1 * ITEM,
    40 * DUE + SPREAD + WRITE + UNASSIGNED + 10 * ITEM + 0,
    40 * DUE + SPREAD + WRITE + UNASSIGNED + 10 * ITEM + 1,
    SPREAD + WRITE + UNASSIGNED + 10 * ITEM + 2,
    SPREAD + WRITE + UNASSIGNED + 10 * ITEM + 65_535,
    SPREAD + WRITE + NO_TRIGGER + 10 * ITEM,
    SPREAD + WRITE + PROBABLE_GROUND + 10 * ITEM,
    40 * DUE + SPREAD + WRITE + UNASSIGNED + 20 * ITEM + 0,
    40 * DUE + SPREAD + WRITE + UNASSIGNED + 20 * ITEM + 1,
    SPREAD + WRITE + UNASSIGNED + 20 * ITEM + 2,
    SPREAD + WRITE + UNASSIGNED + 20 * ITEM + 65_535,
    SPREAD + WRITE + NO_TRIGGER + 20 * ITEM,
    SPREAD + WRITE + PROBABLE_GROUND + 20 * ITEM,
    // Numbers that are 0 or 1 in one of their bytes.
    SPREAD + WRITE + UNASSIGNED + 11 * ITEM + 255,
    SPREAD + WRITE + UNASSIGNED + 11 * ITEM + 256,
    SPREAD + WRITE + UNASSIGNED + 11 * ITEM + 257,
    // A zero that was read has its name; the same number given as unassigned has not.
    ZEROS + WRITE + PROBABLE_GROUND + 7 * ITEM,
    40 * DUE + WRITE + UNASSIGNED + 7 * ITEM + 1,
    40 * DUE + WRITE + UNASSIGNED + 7 * ITEM + 0,
    WRITE + NO_TRIGGER + 7 * ITEM,
    // 49: good over 20 bits. Below that each count of ones makes its counter.
    SPREAD + WRITE + GOOD + 0x00000,
    SPREAD + WRITE + GOOD + 0x00001,
    SPREAD + WRITE + GOOD + 0x80000,
    SPREAD + WRITE + GOOD + 0x80001,
    SPREAD + WRITE + GOOD + 0x5A5A5,
    SPREAD + WRITE + GOOD + 0xA5A5A,
    SPREAD + WRITE + GOOD + 0x0FF00,
    SPREAD + WRITE + GOOD + 0x7FFFF,
    SPREAD + WRITE + GOOD + 0xFFFFE,
    SPREAD + WRITE + GOOD + 0xFFFFF,
    49 * DUE + SPREAD + WRITE + GOOD + 0x100000,
    49 * DUE + SPREAD + WRITE + GOOD + 0x100001,
    49 * DUE + SPREAD + WRITE + GOOD + 0x1FFFFF,
    49 * DUE + SPREAD + WRITE + GOOD + 0x80000000,
    49 * DUE + SPREAD + WRITE + GOOD + 0xFFFFFFFF,
    // The counter that is given is not looked at.
    SPREAD + WRITE + COUNTER + 0,
    SPREAD + WRITE + COUNTER + 1,
    SPREAD + WRITE + COUNTER + 20,
    SPREAD + WRITE + COUNTER + 255,
    ZEROS + WRITE + COUNTER + 1,
    ONES + WRITE + COUNTER + 0,
    // 49: the carried bits of the quality over 4 bits; they are in no counter.
    ZEROS + WRITE + QUALITY_CARRIED + 0,
    ZEROS + WRITE + QUALITY_CARRIED + 1,
    ZEROS + WRITE + QUALITY_CARRIED + 8,
    ZEROS + WRITE + QUALITY_CARRIED + 15,
    49 * DUE + ZEROS + WRITE + QUALITY_CARRIED + 16,
    49 * DUE + ZEROS + WRITE + QUALITY_CARRIED + 17,
    49 * DUE + ZEROS + WRITE + QUALITY_CARRIED + 255,
    // 49: the carried bits of the descriptor over 24 bits.
    ZEROS + WRITE + DESCRIPTOR_CARRIED + 0x000001,
    ZEROS + WRITE + DESCRIPTOR_CARRIED + 0x800000,
    ZEROS + WRITE + DESCRIPTOR_CARRIED + 0xFFFFFF,
    49 * DUE + ZEROS + WRITE + DESCRIPTOR_CARRIED + 0x1000000,
    49 * DUE + ZEROS + WRITE + DESCRIPTOR_CARRIED + 0x1000001,
    49 * DUE + ZEROS + WRITE + DESCRIPTOR_CARRIED + 0x80000000,
    49 * DUE + ZEROS + WRITE + DESCRIPTOR_CARRIED + 0xFFFFFFFF,
    // 49: each part of an encoder byte over 2 bits.
    ZEROS + WRITE + START + 1 * ITEM + 3,
    49 * DUE + ZEROS + WRITE + START + 1 * ITEM + 4,
    49 * DUE + ZEROS + WRITE + START + 1 * ITEM + 255,
    ZEROS + WRITE + START + 20 * ITEM + 3,
    49 * DUE + ZEROS + WRITE + START + 20 * ITEM + 4,
    49 * DUE + ZEROS + WRITE + START + 20 * ITEM + 255,
    ZEROS + WRITE + CARRIED_LOW + 1 * ITEM + 3,
    49 * DUE + ZEROS + WRITE + CARRIED_LOW + 1 * ITEM + 4,
    49 * DUE + ZEROS + WRITE + CARRIED_LOW + 1 * ITEM + 255,
    ZEROS + WRITE + CARRIED_LOW + 20 * ITEM + 3,
    49 * DUE + ZEROS + WRITE + CARRIED_LOW + 20 * ITEM + 4,
    49 * DUE + ZEROS + WRITE + CARRIED_LOW + 20 * ITEM + 255,
    ZEROS + WRITE + STOP + 1 * ITEM + 3,
    49 * DUE + ZEROS + WRITE + STOP + 1 * ITEM + 4,
    49 * DUE + ZEROS + WRITE + STOP + 1 * ITEM + 255,
    ZEROS + WRITE + STOP + 20 * ITEM + 3,
    49 * DUE + ZEROS + WRITE + STOP + 20 * ITEM + 4,
    49 * DUE + ZEROS + WRITE + STOP + 20 * ITEM + 255,
    ZEROS + WRITE + CARRIED_HIGH + 1 * ITEM + 3,
    49 * DUE + ZEROS + WRITE + CARRIED_HIGH + 1 * ITEM + 4,
    49 * DUE + ZEROS + WRITE + CARRIED_HIGH + 1 * ITEM + 255,
    ZEROS + WRITE + CARRIED_HIGH + 20 * ITEM + 3,
    49 * DUE + ZEROS + WRITE + CARRIED_HIGH + 20 * ITEM + 4,
    49 * DUE + ZEROS + WRITE + CARRIED_HIGH + 20 * ITEM + 255,
    ZEROS + WRITE + START + 2 * ITEM + 1,
    ZEROS + WRITE + CARRIED_LOW + 10 * ITEM + 2,
    ZEROS + WRITE + STOP + 11 * ITEM + 2,
    ZEROS + WRITE + CARRIED_HIGH + 19 * ITEM + 1,
    49 * DUE + ZEROS + WRITE + START + 10 * ITEM + 4,
    49 * DUE + ZEROS + WRITE + CARRIED_LOW + 11 * ITEM + 16,
    49 * DUE + ZEROS + WRITE + STOP + 2 * ITEM + 64,
    49 * DUE + ZEROS + WRITE + CARRIED_HIGH + 19 * ITEM + 128,
    // 49: how many uninterpreted bytes there are.
    49 * DUE + SPREAD + WRITE + UNINTERPRETED_SIZE + 0,
    49 * DUE + SPREAD + WRITE + UNINTERPRETED_SIZE + 1,
    49 * DUE + SPREAD + WRITE + UNINTERPRETED_SIZE + 84,
    49 * DUE + SPREAD + WRITE + UNINTERPRETED_SIZE + 136,
    49 * DUE + SPREAD + WRITE + UNINTERPRETED_SIZE + 219,
    SPREAD + WRITE + UNINTERPRETED_SIZE + 220,
    49 * DUE + SPREAD + WRITE + UNINTERPRETED_SIZE + 221,
    49 * DUE + SPREAD + WRITE + UNINTERPRETED_SIZE + 248,
    49 * DUE + SPREAD + WRITE + UNINTERPRETED_SIZE + 256,
    // 41: how many bytes of output there are.
    41 * DUE + SPREAD + WRITE + OUTPUT_SIZE + 0,
    41 * DUE + SPREAD + WRITE + OUTPUT_SIZE + 1,
    41 * DUE + SPREAD + WRITE + OUTPUT_SIZE + 508,
    41 * DUE + SPREAD + WRITE + OUTPUT_SIZE + 775,
    SPREAD + WRITE + OUTPUT_SIZE + 776,
    41 * DUE + SPREAD + WRITE + OUTPUT_SIZE + 777,
    41 * DUE + SPREAD + WRITE + OUTPUT_SIZE + 800,
    // Everything is wrong, and then put right in the order of the refusals.
    SPREAD + FRAME + 7,
    MICROS + 1_000_000,
    LATITUDE + 90_000_001,
    FRAME_INDEX + 8,
    UNASSIGNED + 20 * ITEM + 1,
    GOOD + 0x100000,
    QUALITY_CARRIED + 16,
    DESCRIPTOR_CARRIED + 0x1000000,
    START + 1 * ITEM + 4,
    CARRIED_LOW + 5 * ITEM + 4,
    STOP + 12 * ITEM + 4,
    CARRIED_HIGH + 20 * ITEM + 4,
    BLOCK_CARRIED_SIZE + 9,
    UNINTERPRETED_SIZE + 219,
    13 * DUE + WRITE + OUTPUT_SIZE + 775,
    14 * DUE + WRITE + MICROS + NEGATIVE - 999_999,
    15 * DUE + WRITE + LATITUDE + NEGATIVE - 90_000_000,
    40 * DUE + WRITE + FRAME_INDEX + 6,
    49 * DUE + WRITE + UNASSIGNED + 20 * ITEM + 2,
    49 * DUE + WRITE + GOOD + 0xFFFFF,
    49 * DUE + WRITE + QUALITY_CARRIED + 15,
    49 * DUE + WRITE + DESCRIPTOR_CARRIED + 0xFFFFFF,
    49 * DUE + WRITE + START + 1 * ITEM + 3,
    49 * DUE + WRITE + CARRIED_LOW + 5 * ITEM + 3,
    49 * DUE + WRITE + STOP + 12 * ITEM + 3,
    49 * DUE + WRITE + CARRIED_HIGH + 20 * ITEM + 3,
    49 * DUE + WRITE + BLOCK_CARRIED_SIZE + 10,
    41 * DUE + WRITE + UNINTERPRETED_SIZE + 220,
    42 * DUE + WRITE + OUTPUT_SIZE + 776,
    FULL + FRAME_INDEX + 7,
    // Pairs of faults.
    ZEROS + LATITUDE + NEGATIVE - 90_000_001,
    13 * DUE + WRITE + MICROS + NEGATIVE - 1_000_000,
    ZEROS + FRAME_INDEX + 0,
    13 * DUE + WRITE + MICROS + NEGATIVE - 1_000_000,
    ZEROS + UNASSIGNED + 1 * ITEM + 0,
    13 * DUE + WRITE + MICROS + NEGATIVE - 1_000_000,
    ZEROS + STOP + 20 * ITEM + 4,
    13 * DUE + WRITE + MICROS + NEGATIVE - 1_000_000,
    ZEROS + OUTPUT_SIZE + 777,
    13 * DUE + WRITE + MICROS + NEGATIVE - 1_000_000,
    ZEROS + FRAME_INDEX + 0,
    14 * DUE + WRITE + LATITUDE + NEGATIVE - 90_000_001,
    ZEROS + UNASSIGNED + 1 * ITEM + 0,
    14 * DUE + WRITE + LATITUDE + NEGATIVE - 90_000_001,
    ZEROS + STOP + 20 * ITEM + 4,
    14 * DUE + WRITE + LATITUDE + NEGATIVE - 90_000_001,
    ZEROS + OUTPUT_SIZE + 777,
    14 * DUE + WRITE + LATITUDE + NEGATIVE - 90_000_001,
    ZEROS + UNASSIGNED + 1 * ITEM + 0,
    15 * DUE + WRITE + FRAME_INDEX + 0,
    ZEROS + STOP + 20 * ITEM + 4,
    15 * DUE + WRITE + FRAME_INDEX + 0,
    ZEROS + OUTPUT_SIZE + 777,
    15 * DUE + WRITE + FRAME_INDEX + 0,
    ZEROS + STOP + 20 * ITEM + 4,
    40 * DUE + WRITE + UNASSIGNED + 1 * ITEM + 0,
    ZEROS + OUTPUT_SIZE + 777,
    40 * DUE + WRITE + UNASSIGNED + 1 * ITEM + 0,
    ZEROS + OUTPUT_SIZE + 777,
    49 * DUE + WRITE + STOP + 20 * ITEM + 4,
    // Each width of 49 after 40 and before 41.
    SPREAD + OUTPUT_SIZE + 775,
    49 * DUE + WRITE + GOOD + 0x100000,
    40 * DUE + WRITE + UNASSIGNED + 20 * ITEM + 1,
    SPREAD + OUTPUT_SIZE + 775,
    49 * DUE + WRITE + QUALITY_CARRIED + 16,
    40 * DUE + WRITE + UNASSIGNED + 20 * ITEM + 1,
    SPREAD + OUTPUT_SIZE + 775,
    49 * DUE + WRITE + DESCRIPTOR_CARRIED + 0x1000000,
    40 * DUE + WRITE + UNASSIGNED + 20 * ITEM + 1,
    SPREAD + OUTPUT_SIZE + 775,
    49 * DUE + WRITE + CARRIED_LOW + 1 * ITEM + 4,
    40 * DUE + WRITE + UNASSIGNED + 20 * ITEM + 1,
    SPREAD + OUTPUT_SIZE + 775,
    49 * DUE + WRITE + UNINTERPRETED_SIZE + 221,
    40 * DUE + WRITE + UNASSIGNED + 20 * ITEM + 1,
    SPREAD + OUTPUT_SIZE + 775,
    49 * DUE + WRITE + BLOCK_CARRIED_SIZE + 1,
    40 * DUE + WRITE + UNASSIGNED + 20 * ITEM + 1,
    // The packet's and the frame's tests, alone among zeros and alone among ones.
    ZEROS + WRITE + PACKET_SUM + 1,
    ZEROS + WRITE + SOFTWARE_SUM + 1,
    ZEROS + WRITE + MODE + 1,
    ZEROS + WRITE + OTS + 1,
    ONES + WRITE + PACKET_SUM + 0,
    ONES + WRITE + OTS + 0,
    // The shots' tests likewise.
    ZEROS + WRITE + POWER_TEST + 1 * ITEM + 1,
    ZEROS + WRITE + POWER_TEST + 2 * ITEM + 1,
    ZEROS + WRITE + POWER_TEST + 20 * ITEM + 1,
    ONES + WRITE + POWER_TEST + 1 * ITEM + 0,
    ONES + WRITE + POWER_TEST + 20 * ITEM + 0,
    ZEROS + WRITE + ENERGY_TEST + 1 * ITEM + 1,
    ZEROS + WRITE + ENERGY_TEST + 2 * ITEM + 1,
    ZEROS + WRITE + ENERGY_TEST + 20 * ITEM + 1,
    ONES + WRITE + ENERGY_TEST + 1 * ITEM + 0,
    ONES + WRITE + ENERGY_TEST + 20 * ITEM + 0,
    ZEROS + WRITE + RANGE_TEST + 1 * ITEM + 1,
    ZEROS + WRITE + RANGE_TEST + 2 * ITEM + 1,
    ZEROS + WRITE + RANGE_TEST + 20 * ITEM + 1,
    ONES + WRITE + RANGE_TEST + 1 * ITEM + 0,
    ONES + WRITE + RANGE_TEST + 20 * ITEM + 0,
    ZEROS + WRITE + WINDOW_TEST + 1 * ITEM + 1,
    ZEROS + WRITE + WINDOW_TEST + 2 * ITEM + 1,
    ZEROS + WRITE + WINDOW_TEST + 20 * ITEM + 1,
    ONES + WRITE + WINDOW_TEST + 1 * ITEM + 0,
    ONES + WRITE + WINDOW_TEST + 20 * ITEM + 0,
    ZEROS + WRITE + COMPARISON_TEST + 1 * ITEM + 1,
    ZEROS + WRITE + COMPARISON_TEST + 2 * ITEM + 1,
    ZEROS + WRITE + COMPARISON_TEST + 20 * ITEM + 1,
    ONES + WRITE + COMPARISON_TEST + 1 * ITEM + 0,
    ONES + WRITE + COMPARISON_TEST + 20 * ITEM + 0,
    // Signed columns: -1, the lowest and the highest number in turn; microseconds and latitude have their own bounds.
    ZEROS + WHOLE + NEGATIVE - 1,
    LONGITUDE + NEGATIVE - 2_147_483_648,
    GROUND_LATITUDE + 2_147_483_647,
    GROUND_LONGITUDE + NEGATIVE - 1,
    RIGHT_ASCENSION + NEGATIVE - 2_147_483_648,
    DECLINATION + 2_147_483_647,
    TWIST + NEGATIVE - 1,
    XYZ + 1 * ITEM + NEGATIVE - 2_147_483_648,
    XYZ + 2 * ITEM + 2_147_483_647,
    XYZ + 3 * ITEM + NEGATIVE - 1,
    SECONDS + NEGATIVE - 2_147_483_648,
    FULL + MILLIS + 32_767,
    ZEROS + WHOLE + NEGATIVE - 2_147_483_648,
    LONGITUDE + 2_147_483_647,
    GROUND_LATITUDE + NEGATIVE - 1,
    GROUND_LONGITUDE + NEGATIVE - 2_147_483_648,
    RIGHT_ASCENSION + 2_147_483_647,
    DECLINATION + NEGATIVE - 1,
    TWIST + NEGATIVE - 2_147_483_648,
    XYZ + 1 * ITEM + 2_147_483_647,
    XYZ + 2 * ITEM + NEGATIVE - 1,
    XYZ + 3 * ITEM + NEGATIVE - 2_147_483_648,
    SECONDS + 2_147_483_647,
    WRITE + MILLIS + NEGATIVE2 - 1,
    ZEROS + WHOLE + 2_147_483_647,
    LONGITUDE + NEGATIVE - 1,
    GROUND_LATITUDE + NEGATIVE - 2_147_483_648,
    GROUND_LONGITUDE + 2_147_483_647,
    RIGHT_ASCENSION + NEGATIVE - 1,
    DECLINATION + NEGATIVE - 2_147_483_648,
    TWIST + 2_147_483_647,
    XYZ + 1 * ITEM + NEGATIVE - 1,
    XYZ + 2 * ITEM + NEGATIVE - 2_147_483_648,
    XYZ + 3 * ITEM + 2_147_483_647,
    SECONDS + NEGATIVE - 1,
    WRITE + MILLIS + NEGATIVE2 - 32_768,
    // Each unsigned column has a number of its own, in its first and its last item.
    ZEROS + ORBIT + 0x81020304,
    RADIAL_DISTANCE + 0x85060708,
    MID_POINT_RANGE + 0x890A0B0C,
    FRAME_RADIUS + 0x8D0E0F10,
    DELAY + 0x91121314,
    WIDTH + 0x95161718,
    CHANNEL_MASK + 0xA1B1,
    MINIMUM_HITS + 0xA2B2,
    HIT_COUNT + 0xA3B3,
    FRAME_COUNTER + 0xA4B4,
    TRIGGER + 0xA5B5,
    FINE_TIME + 0xA6B6,
    RADIUS + 1 * ITEM + 0xC0010203,
    RADIUS + 20 * ITEM + 0xC0040506,
    ENERGY + 1 * ITEM + 0xC101,
    ENERGY + 20 * ITEM + 0xC102,
    REFLECTIVITY + 1 * ITEM + 0xC201,
    REFLECTIVITY + 20 * ITEM + 0xC202,
    TRIGGER_CHANNEL + 1 * ITEM + 0xC3,
    TRIGGER_CHANNEL + 20 * ITEM + 0xC4,
    PULSE_WIDTH + 1 * ITEM + 0xC501,
    PULSE_WIDTH + 20 * ITEM + 0xC502,
    OPTICAL_WIDTH + 1 * ITEM + 0xC601,
    OPTICAL_WIDTH + 20 * ITEM + 0xC602,
    LASER_POWER + 1 * ITEM + 0xC701,
    LASER_POWER + 20 * ITEM + 0xC702,
    UNASSIGNED + 1 * ITEM + 0xC801,
    UNASSIGNED + 20 * ITEM + 0xC802,
    NOISE + 1 * ITEM + 0xD0010203,
    NOISE + 8 * ITEM + 0xD0040506,
    THRESHOLDS + 1 * ITEM + 0xD101,
    THRESHOLDS + 8 * ITEM + 0xD102,
    SOURCE_HEADER + 1 * ITEM + 0xE0010203,
    SOURCE_HEADER + 2 * ITEM + 0xE0040506,
    UNINTERPRETED + 1 * ITEM + 0xF1,
    UNINTERPRETED + 84 * ITEM + 0xF2,
    UNINTERPRETED + 85 * ITEM + 0xF3,
    FULL + UNINTERPRETED + 220 * ITEM + 0xF4,
    // Single bytes of the uninterpreted ones, at the ends of both parts.
    SPREAD + WRITE + UNINTERPRETED + 1 * ITEM + 0,
    SPREAD + WRITE + UNINTERPRETED + 84 * ITEM + 0,
    SPREAD + WRITE + UNINTERPRETED + 85 * ITEM + 0,
    SPREAD + WRITE + UNINTERPRETED + 220 * ITEM + 0,
    // The other fills as they are read, of each frame.
    ZEROS + WRITE + FRAME + 2,
    ZEROS + WRITE + FRAME + 3,
    ZEROS + WRITE + FRAME + 4,
    ZEROS + WRITE + FRAME + 5,
    ZEROS + WRITE + FRAME + 6,
    ZEROS + WRITE + FRAME + 7,
    ONES + WRITE + FRAME + 2,
    ONES + WRITE + FRAME + 3,
    ONES + WRITE + FRAME + 4,
    ONES + WRITE + FRAME + 5,
    ONES + WRITE + FRAME + 6,
    ONES + WRITE + FRAME + 7,
    // 49: how many carried bytes there are for the block of each frame.
    SPREAD + FRAME + 1,
    49 * DUE + WRITE + BLOCK_CARRIED_SIZE + 1,
    49 * DUE + WRITE + BLOCK_CARRIED_SIZE + 10,
    WRITE + BLOCK_CARRIED_SIZE + 0,
    SPREAD + FRAME + 2,
    49 * DUE + WRITE + BLOCK_CARRIED_SIZE + 1,
    49 * DUE + WRITE + BLOCK_CARRIED_SIZE + 10,
    WRITE + BLOCK_CARRIED_SIZE + 0,
    SPREAD + FRAME + 3,
    49 * DUE + WRITE + BLOCK_CARRIED_SIZE + 0,
    49 * DUE + WRITE + BLOCK_CARRIED_SIZE + 1,
    49 * DUE + WRITE + BLOCK_CARRIED_SIZE + 3,
    WRITE + BLOCK_CARRIED_SIZE + 2,
    SPREAD + FRAME + 4,
    49 * DUE + WRITE + BLOCK_CARRIED_SIZE + 1,
    49 * DUE + WRITE + BLOCK_CARRIED_SIZE + 10,
    WRITE + BLOCK_CARRIED_SIZE + 0,
    SPREAD + FRAME + 5,
    49 * DUE + WRITE + BLOCK_CARRIED_SIZE + 0,
    49 * DUE + WRITE + BLOCK_CARRIED_SIZE + 3,
    49 * DUE + WRITE + BLOCK_CARRIED_SIZE + 5,
    WRITE + BLOCK_CARRIED_SIZE + 4,
    SPREAD + FRAME + 6,
    49 * DUE + WRITE + BLOCK_CARRIED_SIZE + 1,
    49 * DUE + WRITE + BLOCK_CARRIED_SIZE + 10,
    WRITE + BLOCK_CARRIED_SIZE + 0,
    SPREAD + FRAME + 7,
    49 * DUE + WRITE + BLOCK_CARRIED_SIZE + 0,
    49 * DUE + WRITE + BLOCK_CARRIED_SIZE + 9,
    49 * DUE + WRITE + BLOCK_CARRIED_SIZE + 11,
    WRITE + BLOCK_CARRIED_SIZE + 10,
    // As many as the frame index has, and not the block.
    SPREAD + FRAME + 7,
    FRAME_INDEX + 5,
    49 * DUE + WRITE + BLOCK_CARRIED_SIZE + 4,
    42 * DUE + WRITE + BLOCK_CARRIED_SIZE + 10,
    SPREAD + FRAME + 5,
    FRAME_INDEX + 7,
    49 * DUE + WRITE + BLOCK_CARRIED_SIZE + 10,
    42 * DUE + WRITE + BLOCK_CARRIED_SIZE + 4,
    SPREAD + FRAME + 3,
    FRAME_INDEX + 1,
    49 * DUE + WRITE + BLOCK_CARRIED_SIZE + 0,
    42 * DUE + WRITE + BLOCK_CARRIED_SIZE + 2,
    SPREAD + FRAME + 1,
    FRAME_INDEX + 3,
    49 * DUE + WRITE + BLOCK_CARRIED_SIZE + 2,
    42 * DUE + WRITE + BLOCK_CARRIED_SIZE + 0,
    SPREAD + FRAME + 7,
    FRAME_INDEX + 6,
    49 * DUE + WRITE + BLOCK_CARRIED_SIZE + 0,
    42 * DUE + WRITE + BLOCK_CARRIED_SIZE + 10,
    SPREAD + FRAME + 4,
    FRAME_INDEX + 7,
    49 * DUE + WRITE + BLOCK_CARRIED_SIZE + 10,
    42 * DUE + WRITE + BLOCK_CARRIED_SIZE + 0,
    // 42: the block is of another frame than the index.
    SPREAD + FRAME + 1,
    42 * DUE + WRITE + FRAME_INDEX + 2,
    42 * DUE + WRITE + FRAME_INDEX + 7,
    WRITE + FRAME_INDEX + 1,
    SPREAD + FRAME + 2,
    42 * DUE + WRITE + FRAME_INDEX + 3,
    42 * DUE + WRITE + FRAME_INDEX + 1,
    WRITE + FRAME_INDEX + 2,
    SPREAD + FRAME + 3,
    42 * DUE + WRITE + FRAME_INDEX + 4,
    42 * DUE + WRITE + FRAME_INDEX + 2,
    WRITE + FRAME_INDEX + 3,
    SPREAD + FRAME + 4,
    42 * DUE + WRITE + FRAME_INDEX + 5,
    42 * DUE + WRITE + FRAME_INDEX + 3,
    WRITE + FRAME_INDEX + 4,
    SPREAD + FRAME + 5,
    42 * DUE + WRITE + FRAME_INDEX + 6,
    42 * DUE + WRITE + FRAME_INDEX + 4,
    WRITE + FRAME_INDEX + 5,
    SPREAD + FRAME + 6,
    42 * DUE + WRITE + FRAME_INDEX + 7,
    42 * DUE + WRITE + FRAME_INDEX + 5,
    WRITE + FRAME_INDEX + 6,
    SPREAD + FRAME + 7,
    42 * DUE + WRITE + FRAME_INDEX + 1,
    42 * DUE + WRITE + FRAME_INDEX + 6,
    WRITE + FRAME_INDEX + 7,
    // 42 after each of the other refusals.
    SPREAD + FRAME + 5,
    42 * DUE + WRITE + FRAME_INDEX + 3,
    13 * DUE + WRITE + MICROS + 1_000_000,
    42 * DUE + WRITE + MICROS + 999_999,
    14 * DUE + WRITE + LATITUDE + 90_000_001,
    42 * DUE + WRITE + LATITUDE + 90_000_000,
    15 * DUE + WRITE + FRAME_INDEX + 0,
    42 * DUE + WRITE + FRAME_INDEX + 3,
    15 * DUE + WRITE + FRAME_INDEX + 8,
    42 * DUE + WRITE + FRAME_INDEX + 3,
    40 * DUE + WRITE + UNASSIGNED + 20 * ITEM + 0,
    42 * DUE + WRITE + UNASSIGNED + 20 * ITEM + 2,
    49 * DUE + WRITE + GOOD + 0x100000,
    42 * DUE + WRITE + GOOD + 0xFFFFF,
    49 * DUE + WRITE + QUALITY_CARRIED + 16,
    42 * DUE + WRITE + QUALITY_CARRIED + 15,
    49 * DUE + WRITE + DESCRIPTOR_CARRIED + 0x1000000,
    42 * DUE + WRITE + DESCRIPTOR_CARRIED + 0xFFFFFF,
    49 * DUE + WRITE + STOP + 20 * ITEM + 4,
    42 * DUE + WRITE + STOP + 20 * ITEM + 3,
    49 * DUE + WRITE + BLOCK_CARRIED_SIZE + 3,
    42 * DUE + WRITE + BLOCK_CARRIED_SIZE + 4,
    49 * DUE + WRITE + BLOCK_CARRIED_SIZE + 2,
    42 * DUE + WRITE + BLOCK_CARRIED_SIZE + 4,
    49 * DUE + WRITE + UNINTERPRETED_SIZE + 219,
    42 * DUE + WRITE + UNINTERPRETED_SIZE + 220,
    49 * DUE + WRITE + UNINTERPRETED_SIZE + 248,
    42 * DUE + WRITE + UNINTERPRETED_SIZE + 220,
    41 * DUE + WRITE + OUTPUT_SIZE + 775,
    42 * DUE + WRITE + OUTPUT_SIZE + 776,
    41 * DUE + WRITE + OUTPUT_SIZE + 777,
    42 * DUE + WRITE + OUTPUT_SIZE + 776,
    WRITE + FRAME_INDEX + 5,
    // A wrong number of carried bytes among the earlier refusals.
    SPREAD + FRAME + 7,
    49 * DUE + WRITE + BLOCK_CARRIED_SIZE + 11,
    13 * DUE + WRITE + MICROS + NEGATIVE - 1_000_000,
    49 * DUE + WRITE + MICROS + 0,
    14 * DUE + WRITE + LATITUDE + NEGATIVE - 90_000_001,
    49 * DUE + WRITE + LATITUDE + 0,
    15 * DUE + WRITE + FRAME_INDEX + 8,
    49 * DUE + WRITE + FRAME_INDEX + 7,
    40 * DUE + WRITE + UNASSIGNED + 1 * ITEM + 1,
    49 * DUE + WRITE + UNASSIGNED + 1 * ITEM + 2,
    // Items that the frame lacks are not looked at, and read as zeros.
    SPREAD + FRAME + 1,
    STATUS_FLAGS + 1 * ITEM + 0xB101,
    STATUS_FLAGS + 2 * ITEM + 0xB102,
    RANGE_GATE_TRACKER_ARRAY + 1 * ITEM + 0xB103,
    RANGE_GATE_TRACKER_ARRAY + 14 * ITEM + 0xB104,
    MEMORY_DUMP_SEGMENT + 1 * ITEM + 0xB105,
    MEMORY_DUMP_SEGMENT + 5 * ITEM + 0xB106,
    COMMAND_ECHO + 1 * ITEM + 0xB107,
    WRITE + COMMAND_ECHO + 8 * ITEM + 0xB108,
    SPREAD + FRAME + 2,
    STATUS_FLAGS + 1 * ITEM + 0xB109,
    RANGE_GATE_TRACKER_ARRAY + 1 * ITEM + 0xB10A,
    MEMORY_DUMP_SEGMENT + 1 * ITEM + 0xB10B,
    WRITE + COMMAND_ECHO + 1 * ITEM + 0xB10C,
    SPREAD + FRAME + 3,
    RANGE_GATE_TRACKER_ARRAY + 5 * ITEM + 0xB10D,
    RANGE_GATE_TRACKER_ARRAY + 14 * ITEM + 0xB10E,
    MEMORY_DUMP_SEGMENT + 1 * ITEM + 0xB10F,
    WRITE + COMMAND_ECHO + 8 * ITEM + 0xB110,
    SPREAD + FRAME + 4,
    STATUS_FLAGS + 2 * ITEM + 0xB111,
    MEMORY_DUMP_SEGMENT + 5 * ITEM + 0xB112,
    WRITE + COMMAND_ECHO + 1 * ITEM + 0xB113,
    SPREAD + FRAME + 5,
    STATUS_FLAGS + 1 * ITEM + 0xB114,
    RANGE_GATE_TRACKER_ARRAY + 7 * ITEM + 0xB115,
    RANGE_GATE_TRACKER_ARRAY + 14 * ITEM + 0xB116,
    MEMORY_DUMP_SEGMENT + 4 * ITEM + 0xB117,
    MEMORY_DUMP_SEGMENT + 5 * ITEM + 0xB118,
    WRITE + COMMAND_ECHO + 1 * ITEM + 0xB119,
    SPREAD + FRAME + 6,
    STATUS_FLAGS + 2 * ITEM + 0xB11A,
    RANGE_GATE_TRACKER_ARRAY + 1 * ITEM + 0xB11B,
    WRITE + RANGE_GATE_TRACKER_ARRAY + 14 * ITEM + 0xB11C,
    SPREAD + FRAME + 7,
    STATUS_FLAGS + 1 * ITEM + 0xB11D,
    RANGE_GATE_TRACKER_ARRAY + 14 * ITEM + 0xB11E,
    MEMORY_DUMP_SEGMENT + 5 * ITEM + 0xB11F,
    WRITE + COMMAND_ECHO + 8 * ITEM + 0xB120,
    // Each run has a number of its own in the first and the last item that the frame has, and each carried part in its bytes.
    ZEROS + FRAME + 3,
    WRITE + STATUS_FLAGS + 1 * ITEM + 0xA101,
    WRITE + STATUS_FLAGS + 2 * ITEM + 0xA102,
    WRITE + RANGE_GATE_TRACKER_ARRAY + 1 * ITEM + 0xA103,
    WRITE + RANGE_GATE_TRACKER_ARRAY + 4 * ITEM + 0xA104,
    WRITE + BLOCK_CARRIED + 1 * ITEM + 0xC5,
    WRITE + BLOCK_CARRIED + 2 * ITEM + 0xC6,
    ZEROS + FRAME + 4,
    WRITE + RANGE_GATE_TRACKER_ARRAY + 1 * ITEM + 0xA107,
    WRITE + RANGE_GATE_TRACKER_ARRAY + 14 * ITEM + 0xA108,
    ZEROS + FRAME + 5,
    WRITE + RANGE_GATE_TRACKER_ARRAY + 1 * ITEM + 0xA109,
    WRITE + RANGE_GATE_TRACKER_ARRAY + 6 * ITEM + 0xA10A,
    WRITE + MEMORY_DUMP_SEGMENT + 1 * ITEM + 0xA10B,
    WRITE + MEMORY_DUMP_SEGMENT + 3 * ITEM + 0xA10C,
    WRITE + BLOCK_CARRIED + 1 * ITEM + 0xCD,
    WRITE + BLOCK_CARRIED + 4 * ITEM + 0xCE,
    ZEROS + FRAME + 6,
    WRITE + MEMORY_DUMP_SEGMENT + 1 * ITEM + 0xA10F,
    WRITE + MEMORY_DUMP_SEGMENT + 5 * ITEM + 0xA110,
    WRITE + COMMAND_ECHO + 1 * ITEM + 0xA111,
    WRITE + COMMAND_ECHO + 8 * ITEM + 0xA112,
    ZEROS + FRAME + 7,
    WRITE + BLOCK_CARRIED + 1 * ITEM + 0xD3,
    WRITE + BLOCK_CARRIED + 4 * ITEM + 0xD4,
    WRITE + BLOCK_CARRIED + 5 * ITEM + 0xD5,
    WRITE + BLOCK_CARRIED + 10 * ITEM + 0xD6,
];
