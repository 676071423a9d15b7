// The rows. Each is a number, the sum of parts named here: it starts a new record or keeps the last one, may change it, and may have it read.
// So 13 * DUE + ZEROS + READ + PUT4 + 5 * BYTE + 1_000_000 is a record of zeros with 1,000,000 in the four bytes
// from record byte 5 on, read, with refusal 13 due. Rows stay numbers: a struct of enums for each would be no plainer, since most of these 424 lines
// name two parts or three.

pub const DUE: u64 = 10_000_000_000_000_000; // times the refusal that is due, of the record or of the shot; 0 where none is

// The record is read. READ prints its single columns, the block with its runs and carried bytes, and digests of the long columns, FULL the long ones too.
pub const SHOW: u64 = 1_000_000_000_000_000;

pub const READ: u64 = 1 * SHOW;

pub const FULL: u64 = 2 * SHOW;

// A new record, filled by a rule; its bytes count from 1. So that it is accepted, bytes 5, 6, 13 and 491 are 0, byte 492 is 1, and byte 32 is the
// number of its good shots.
pub const FILL: u64 = 100_000_000_000_000;

pub const ZEROS: u64 = 1 * FILL;

pub const ONES: u64 = 2 * FILL; // every byte is 255

pub const COUNTING: u64 = 3 * FILL; // byte b is (37 b + 11) mod 256

pub const STRIDING: u64 = 4 * FILL; // byte b is 100 b mod 251

// A step, plus a record byte times BYTE, plus a number.
pub const STEP: u64 = 10_000_000_000_000;

pub const BYTE: u64 = 10_000_000_000;

pub const PUT1: u64 = 1 * STEP; // the number goes into one byte, or into two or four from the record byte on

pub const PUT2: u64 = 2 * STEP;

pub const PUT4: u64 = 4 * STEP;

pub const FLIP: u64 = 5 * STEP; // the number is the bit of the record byte that is turned, 0 the lowest

pub const LENGTH: u64 = 6 * STEP; // the number is how many bytes the library is given, until a new record has 776 again

pub const SHOT: u64 = 7 * STEP; // the number is the shot that is read

// Less n, these are -n in four bytes and in two.
pub const NEGATIVE: u64 = 4_294_967_296;

pub const NEGATIVE2: u64 = 65_536;

pub const COUNT: usize = 424;

pub const CASES: [u64; COUNT] = [
    // The fills in full, and some of their shots.
    ZEROS + READ,
    ONES + FULL,
    COUNTING + FULL,
    SHOT + 1,
    SHOT + 2,
    SHOT + 10,
    SHOT + 19,
    SHOT + 20,
    STRIDING + FULL,
    SHOT + 1,
    SHOT + 2,
    SHOT + 10,
    SHOT + 19,
    SHOT + 20,
    // Bytes that are not interpreted: but for their digest, the answer stays that of the fill.
    COUNTING + READ,
    COUNTING + READ + FLIP + 537 * BYTE + 7,
    COUNTING + READ + FLIP + 620 * BYTE + 7,
    COUNTING + READ + FLIP + 641 * BYTE + 7,
    COUNTING + READ + FLIP + 776 * BYTE + 7,
    // Lengths.
    11 * DUE + COUNTING + READ + LENGTH + 0,
    11 * DUE + COUNTING + READ + LENGTH + 1,
    11 * DUE + COUNTING + READ + LENGTH + 32,
    11 * DUE + COUNTING + READ + LENGTH + 508,
    11 * DUE + COUNTING + READ + LENGTH + 640,
    11 * DUE + COUNTING + READ + LENGTH + 775,
    COUNTING + READ + LENGTH + 776,
    11 * DUE + COUNTING + READ + LENGTH + 777,
    11 * DUE + COUNTING + READ + LENGTH + 800,
    // The quality number in 24 bits, then its counter in 8.
    ZEROS + READ + PUT4 + 29 * BYTE + 0x00000000,
    12 * DUE + ZEROS + READ + PUT4 + 29 * BYTE + 0x00000001,
    12 * DUE + ZEROS + READ + PUT4 + 29 * BYTE + 0x000000FF,
    12 * DUE + ZEROS + READ + PUT4 + 29 * BYTE + 0x00000100,
    ZEROS + READ + PUT4 + 29 * BYTE + 0x00000101,
    12 * DUE + ZEROS + READ + PUT4 + 29 * BYTE + 0x00000102,
    ZEROS + READ + PUT4 + 29 * BYTE + 0x08000102, // shots 1 and 20
    12 * DUE + ZEROS + READ + PUT4 + 29 * BYTE + 0x08000101,
    12 * DUE + ZEROS + READ + PUT4 + 29 * BYTE + 0x08000103,
    ZEROS + READ + PUT4 + 29 * BYTE + 0x0FFFFF14,
    12 * DUE + ZEROS + READ + PUT4 + 29 * BYTE + 0x0FFFFF13,
    12 * DUE + ZEROS + READ + PUT4 + 29 * BYTE + 0x0FFFFF15,
    12 * DUE + ZEROS + READ + PUT4 + 29 * BYTE + 0x0FFFFF00,
    12 * DUE + ZEROS + READ + PUT4 + 29 * BYTE + 0x0FFFFF94,
    // Its carried bits do not count.
    ZEROS + READ + PUT4 + 29 * BYTE + 0x10000000,
    12 * DUE + ZEROS + READ + PUT4 + 29 * BYTE + 0x10000001,
    ZEROS + READ + PUT4 + 29 * BYTE + 0x20000000,
    12 * DUE + ZEROS + READ + PUT4 + 29 * BYTE + 0x20000001,
    ZEROS + READ + PUT4 + 29 * BYTE + 0x40000000,
    12 * DUE + ZEROS + READ + PUT4 + 29 * BYTE + 0x40000001,
    ZEROS + READ + PUT4 + 29 * BYTE + 0x80000000,
    12 * DUE + ZEROS + READ + PUT4 + 29 * BYTE + 0x80000001,
    ZEROS + READ + PUT4 + 29 * BYTE + 0xF0000000,
    12 * DUE + ZEROS + READ + PUT4 + 29 * BYTE + 0xF0000004,
    ZEROS + READ + PUT4 + 29 * BYTE + 0xFFFFFF14,
    12 * DUE + ZEROS + READ + PUT4 + 29 * BYTE + 0xFFFFFF18,
    // Good shots here and there.
    ZEROS + READ + PUT4 + 29 * BYTE + 0x00010102,
    ZEROS + READ + PUT4 + 29 * BYTE + 0x00FF0008,
    ZEROS + READ + PUT4 + 29 * BYTE + 0x0A5A5A0A,
    ZEROS + READ + PUT4 + 29 * BYTE + 0x05A5A50A,
    12 * DUE + ZEROS + READ + PUT4 + 29 * BYTE + 0x05A5A509,
    // Each quality bit alone, with its shot; the first and the last with the other one too.
    ZEROS + READ + PUT4 + 29 * BYTE + 0x08000001,
    SHOT + 1,
    SHOT + 20,
    ZEROS + READ + PUT4 + 29 * BYTE + 0x04000001,
    SHOT + 2,
    ZEROS + READ + PUT4 + 29 * BYTE + 0x02000001,
    SHOT + 3,
    ZEROS + READ + PUT4 + 29 * BYTE + 0x01000001,
    SHOT + 4,
    ZEROS + READ + PUT4 + 29 * BYTE + 0x00800001,
    SHOT + 5,
    ZEROS + READ + PUT4 + 29 * BYTE + 0x00400001,
    SHOT + 6,
    ZEROS + READ + PUT4 + 29 * BYTE + 0x00200001,
    SHOT + 7,
    ZEROS + READ + PUT4 + 29 * BYTE + 0x00100001,
    SHOT + 8,
    ZEROS + READ + PUT4 + 29 * BYTE + 0x00080001,
    SHOT + 9,
    ZEROS + READ + PUT4 + 29 * BYTE + 0x00040001,
    SHOT + 10,
    ZEROS + READ + PUT4 + 29 * BYTE + 0x00020001,
    SHOT + 11,
    ZEROS + READ + PUT4 + 29 * BYTE + 0x00010001,
    SHOT + 12,
    ZEROS + READ + PUT4 + 29 * BYTE + 0x00008001,
    SHOT + 13,
    ZEROS + READ + PUT4 + 29 * BYTE + 0x00004001,
    SHOT + 14,
    ZEROS + READ + PUT4 + 29 * BYTE + 0x00002001,
    SHOT + 15,
    ZEROS + READ + PUT4 + 29 * BYTE + 0x00001001,
    SHOT + 16,
    ZEROS + READ + PUT4 + 29 * BYTE + 0x00000801,
    SHOT + 17,
    ZEROS + READ + PUT4 + 29 * BYTE + 0x00000401,
    SHOT + 18,
    ZEROS + READ + PUT4 + 29 * BYTE + 0x00000201,
    SHOT + 19,
    ZEROS + READ + PUT4 + 29 * BYTE + 0x00000101,
    SHOT + 20,
    SHOT + 1,
    // The time.
    ZEROS + PUT4 + 1 * BYTE + NEGATIVE - 187_606_958,
    READ + PUT4 + 5 * BYTE + NEGATIVE - 864_490,
    ZEROS + READ + PUT4 + 5 * BYTE + 0,
    ZEROS + READ + PUT4 + 5 * BYTE + 1,
    ZEROS + READ + PUT4 + 5 * BYTE + 999_999,
    13 * DUE + ZEROS + READ + PUT4 + 5 * BYTE + 1_000_000,
    13 * DUE + ZEROS + READ + PUT4 + 5 * BYTE + 2_147_483_647,
    ZEROS + READ + PUT4 + 5 * BYTE + NEGATIVE - 1,
    ZEROS + READ + PUT4 + 5 * BYTE + NEGATIVE - 999_999,
    13 * DUE + ZEROS + READ + PUT4 + 5 * BYTE + NEGATIVE - 1_000_000,
    13 * DUE + ZEROS + READ + PUT4 + 5 * BYTE + NEGATIVE - 2_147_483_648,
    ZEROS + READ + PUT4 + 1 * BYTE + 1,
    READ + PUT4 + 5 * BYTE + 999_999,
    READ + PUT4 + 5 * BYTE + NEGATIVE - 999_999,
    ZEROS + READ + PUT4 + 1 * BYTE + NEGATIVE - 1,
    READ + PUT4 + 5 * BYTE + 999_999,
    READ + PUT4 + 5 * BYTE + NEGATIVE - 999_999,
    ZEROS + READ + PUT4 + 1 * BYTE + 2_147_483_647,
    READ + PUT4 + 5 * BYTE + 999_999,
    READ + PUT4 + 5 * BYTE + NEGATIVE - 999_999,
    ZEROS + READ + PUT4 + 1 * BYTE + NEGATIVE - 2_147_483_648,
    READ + PUT4 + 5 * BYTE + 999_999,
    READ + PUT4 + 5 * BYTE + NEGATIVE - 999_999,
    // The latitude.
    ZEROS + READ + PUT4 + 13 * BYTE + 90_000_000,
    ZEROS + READ + PUT4 + 13 * BYTE + 89_999_999,
    ZEROS + READ + PUT4 + 13 * BYTE + NEGATIVE - 90_000_000,
    ZEROS + READ + PUT4 + 13 * BYTE + NEGATIVE - 1,
    14 * DUE + ZEROS + READ + PUT4 + 13 * BYTE + 90_000_001,
    14 * DUE + ZEROS + READ + PUT4 + 13 * BYTE + 2_147_483_647,
    14 * DUE + ZEROS + READ + PUT4 + 13 * BYTE + NEGATIVE - 90_000_001,
    14 * DUE + ZEROS + READ + PUT4 + 13 * BYTE + NEGATIVE - 2_147_483_648,
    // The frame index.
    ZEROS + READ + PUT2 + 491 * BYTE + 1,
    ZEROS + READ + PUT2 + 491 * BYTE + 2,
    ZEROS + READ + PUT2 + 491 * BYTE + 3,
    ZEROS + READ + PUT2 + 491 * BYTE + 4,
    ZEROS + READ + PUT2 + 491 * BYTE + 5,
    ZEROS + READ + PUT2 + 491 * BYTE + 6,
    ZEROS + READ + PUT2 + 491 * BYTE + 7,
    15 * DUE + ZEROS + READ + PUT2 + 491 * BYTE + 0,
    15 * DUE + ZEROS + READ + PUT2 + 491 * BYTE + 8,
    15 * DUE + ZEROS + READ + PUT2 + 491 * BYTE + 255,
    15 * DUE + ZEROS + READ + PUT2 + 491 * BYTE + 256,
    15 * DUE + ZEROS + READ + PUT2 + 491 * BYTE + 257,
    15 * DUE + ZEROS + READ + PUT2 + 491 * BYTE + 1793,
    15 * DUE + ZEROS + READ + PUT2 + 491 * BYTE + 32_769,
    15 * DUE + ZEROS + READ + PUT2 + 491 * BYTE + 65_535,
    // Everything is wrong, and then put right in the order of the refusals.
    COUNTING + FLIP + 32 * BYTE + 0,
    PUT4 + 5 * BYTE + 1_000_000,
    PUT4 + 13 * BYTE + 90_000_001,
    PUT2 + 491 * BYTE + 8,
    11 * DUE + READ + LENGTH + 775,
    11 * DUE + SHOT + 0,
    11 * DUE + SHOT + 1,
    11 * DUE + READ + LENGTH + 777,
    11 * DUE + SHOT + 21,
    11 * DUE + SHOT + 20,
    12 * DUE + READ + LENGTH + 776,
    12 * DUE + SHOT + 0,
    12 * DUE + SHOT + 21,
    12 * DUE + SHOT + 7,
    13 * DUE + READ + FLIP + 32 * BYTE + 0,
    13 * DUE + SHOT + 0,
    13 * DUE + SHOT + 21,
    13 * DUE + SHOT + 7,
    14 * DUE + READ + PUT4 + 5 * BYTE + 0,
    14 * DUE + SHOT + 0,
    14 * DUE + SHOT + 21,
    14 * DUE + SHOT + 7,
    15 * DUE + READ + PUT4 + 13 * BYTE + 0,
    15 * DUE + SHOT + 0,
    15 * DUE + SHOT + 21,
    15 * DUE + SHOT + 7,
    READ + PUT2 + 491 * BYTE + 7,
    16 * DUE + SHOT + 0,
    16 * DUE + SHOT + 21,
    SHOT + 7,
    // Pairs of faults.
    ZEROS + PUT2 + 491 * BYTE + 0,
    12 * DUE + READ + PUT1 + 32 * BYTE + 1,
    ZEROS + PUT2 + 491 * BYTE + 0,
    13 * DUE + READ + PUT4 + 5 * BYTE + NEGATIVE - 1_000_000,
    ZEROS + PUT2 + 491 * BYTE + 0,
    14 * DUE + READ + PUT4 + 13 * BYTE + NEGATIVE - 90_000_001,
    ZEROS + PUT4 + 13 * BYTE + 90_000_001,
    12 * DUE + READ + PUT1 + 32 * BYTE + 1,
    ZEROS + PUT4 + 13 * BYTE + 90_000_001,
    13 * DUE + READ + PUT4 + 5 * BYTE + 1_000_000,
    ZEROS + PUT4 + 5 * BYTE + 1_000_000,
    12 * DUE + READ + PUT1 + 32 * BYTE + 1,
    // Shots 1 to 20, and others.
    COUNTING + READ,
    16 * DUE + SHOT + 0,
    SHOT + 1,
    SHOT + 2,
    SHOT + 19,
    SHOT + 20,
    16 * DUE + SHOT + 21,
    16 * DUE + SHOT + 255,
    16 * DUE + SHOT + 256,
    16 * DUE + SHOT + 257,
    16 * DUE + SHOT + 65_537,
    16 * DUE + SHOT + NEGATIVE + 1,
    16 * DUE + SHOT + 9_999_999_999,
    // The packet's and the frame's tests: bits 0 to 3 of the descriptor.
    ZEROS + READ + FLIP + 48 * BYTE + 0,
    ZEROS + READ + FLIP + 48 * BYTE + 1,
    ZEROS + READ + FLIP + 48 * BYTE + 2,
    ZEROS + READ + FLIP + 48 * BYTE + 3,
    // The shots' tests: the first and the last bit of each run, and one between.
    ZEROS + READ + FLIP + 48 * BYTE + 4, // bit 4, power of shot 1
    SHOT + 1,
    SHOT + 20,
    ZEROS + READ + FLIP + 46 * BYTE + 7, // bit 23, power of shot 20
    SHOT + 20,
    SHOT + 1,
    ZEROS + READ + FLIP + 48 * BYTE + 5, // bit 5, power of shot 2
    SHOT + 2,
    ZEROS + READ + FLIP + 45 * BYTE + 0, // bit 24, energy of shot 1
    SHOT + 1,
    SHOT + 20,
    ZEROS + READ + FLIP + 43 * BYTE + 3, // bit 43, energy of shot 20
    SHOT + 20,
    SHOT + 1,
    ZEROS + READ + FLIP + 44 * BYTE + 1, // bit 33, energy of shot 10
    SHOT + 10,
    ZEROS + READ + FLIP + 43 * BYTE + 4, // bit 44, range of shot 1
    SHOT + 1,
    SHOT + 20,
    ZEROS + READ + FLIP + 41 * BYTE + 7, // bit 63, range of shot 20
    SHOT + 20,
    SHOT + 1,
    ZEROS + READ + FLIP + 42 * BYTE + 6, // bit 54, range of shot 11
    SHOT + 11,
    ZEROS + READ + FLIP + 40 * BYTE + 0, // bit 64, window of shot 1
    SHOT + 1,
    SHOT + 20,
    ZEROS + READ + FLIP + 38 * BYTE + 3, // bit 83, window of shot 20
    SHOT + 20,
    SHOT + 1,
    ZEROS + READ + FLIP + 39 * BYTE + 3, // bit 75, window of shot 12
    SHOT + 12,
    ZEROS + READ + FLIP + 38 * BYTE + 4, // bit 84, comparison of shot 1
    SHOT + 1,
    SHOT + 20,
    ZEROS + READ + FLIP + 36 * BYTE + 7, // bit 103, comparison of shot 20
    SHOT + 20,
    SHOT + 1,
    ZEROS + READ + FLIP + 36 * BYTE + 0, // bit 96, comparison of shot 13
    SHOT + 13,
    // The carried bits.
    ZEROS + READ + FLIP + 35 * BYTE + 0, // bit 104
    ZEROS + READ + FLIP + 35 * BYTE + 7, // bit 111
    ZEROS + READ + FLIP + 34 * BYTE + 0, // bit 112
    ZEROS + READ + FLIP + 34 * BYTE + 7, // bit 119
    ZEROS + READ + FLIP + 33 * BYTE + 0, // bit 120
    ZEROS + READ + FLIP + 33 * BYTE + 7, // bit 127
    // Classes of shots 1 to 6, 19 and 20, and encoder bits of the same.
    ZEROS + PUT2 + 385 * BYTE + 0,
    PUT2 + 387 * BYTE + 1,
    PUT2 + 389 * BYTE + 2,
    PUT2 + 391 * BYTE + 255,
    PUT2 + 393 * BYTE + 256,
    PUT2 + 395 * BYTE + 257,
    PUT2 + 421 * BYTE + 7,
    PUT2 + 423 * BYTE + 65_535,
    PUT1 + 621 * BYTE + 0x21,
    PUT1 + 622 * BYTE + 0x12,
    PUT1 + 623 * BYTE + 0xFF,
    PUT1 + 624 * BYTE + 0x0C,
    PUT1 + 625 * BYTE + 0xC0,
    PUT1 + 626 * BYTE + 0x84,
    PUT1 + 639 * BYTE + 0x03,
    PUT1 + 640 * BYTE + 0x30,
    FULL,
    SHOT + 1,
    SHOT + 2,
    SHOT + 3,
    SHOT + 4,
    SHOT + 5,
    SHOT + 6,
    SHOT + 19,
    SHOT + 20,
    // Signed columns: -1, the lowest and the highest number in turn.
    ZEROS + PUT4 + 17 * BYTE + NEGATIVE - 1, // longitude
    PUT4 + 133 * BYTE + NEGATIVE - 2_147_483_648, // right ascension
    PUT4 + 137 * BYTE + 2_147_483_647, // declination
    PUT4 + 141 * BYTE + NEGATIVE - 1, // twist
    PUT4 + 325 * BYTE + NEGATIVE - 2_147_483_648, // X
    PUT4 + 329 * BYTE + 2_147_483_647, // Y
    PUT4 + 333 * BYTE + NEGATIVE - 1, // Z
    PUT4 + 337 * BYTE + NEGATIVE - 2_147_483_648, // ground latitude
    PUT4 + 341 * BYTE + 2_147_483_647, // ground longitude
    PUT4 + 501 * BYTE + NEGATIVE - 1, // packet seconds
    READ + PUT2 + 505 * BYTE + NEGATIVE2 - 1, // packet milliseconds
    ZEROS + PUT4 + 17 * BYTE + NEGATIVE - 2_147_483_648,
    PUT4 + 133 * BYTE + 2_147_483_647,
    PUT4 + 137 * BYTE + NEGATIVE - 1,
    PUT4 + 141 * BYTE + NEGATIVE - 2_147_483_648,
    PUT4 + 325 * BYTE + 2_147_483_647,
    PUT4 + 329 * BYTE + NEGATIVE - 1,
    PUT4 + 333 * BYTE + NEGATIVE - 2_147_483_648,
    PUT4 + 337 * BYTE + 2_147_483_647,
    PUT4 + 341 * BYTE + NEGATIVE - 1,
    PUT4 + 501 * BYTE + NEGATIVE - 2_147_483_648,
    READ + PUT2 + 505 * BYTE + NEGATIVE2 - 32_768,
    ZEROS + PUT4 + 17 * BYTE + 2_147_483_647,
    PUT4 + 133 * BYTE + NEGATIVE - 1,
    PUT4 + 137 * BYTE + NEGATIVE - 2_147_483_648,
    PUT4 + 141 * BYTE + 2_147_483_647,
    PUT4 + 325 * BYTE + NEGATIVE - 1,
    PUT4 + 329 * BYTE + NEGATIVE - 2_147_483_648,
    PUT4 + 333 * BYTE + 2_147_483_647,
    PUT4 + 337 * BYTE + NEGATIVE - 1,
    PUT4 + 341 * BYTE + NEGATIVE - 2_147_483_648,
    PUT4 + 501 * BYTE + 2_147_483_647,
    READ + PUT2 + 505 * BYTE + 32_767,
    // Unsigned columns: the highest bit.
    ZEROS + PUT4 + 9 * BYTE + 2_147_483_648, // orbit
    PUT4 + 21 * BYTE + 2_147_483_648, // radial distance
    PUT4 + 25 * BYTE + 2_147_483_648, // mid-point range
    PUT4 + 129 * BYTE + 2_147_483_648, // frame radius
    PUT4 + 457 * BYTE + 2_147_483_648, // delay
    PUT4 + 461 * BYTE + 2_147_483_648, // width
    PUT4 + 493 * BYTE + 2_147_483_648, // source header
    PUT4 + 497 * BYTE + 2_147_483_648,
    PUT2 + 481 * BYTE + 32_768, // channel mask
    PUT2 + 483 * BYTE + 32_768, // minimum hits
    PUT2 + 485 * BYTE + 32_768, // hit count
    PUT2 + 487 * BYTE + 32_768, // frame counter
    PUT2 + 489 * BYTE + 32_768, // trigger
    READ + PUT2 + 507 * BYTE + 32_768, // fine time
    // The engineering block of each frame, of the fills.
    COUNTING + READ + PUT2 + 491 * BYTE + 1,
    COUNTING + READ + PUT2 + 491 * BYTE + 2,
    COUNTING + READ + PUT2 + 491 * BYTE + 3,
    COUNTING + READ + PUT2 + 491 * BYTE + 4,
    COUNTING + READ + PUT2 + 491 * BYTE + 5,
    COUNTING + READ + PUT2 + 491 * BYTE + 6,
    COUNTING + READ + PUT2 + 491 * BYTE + 7,
    STRIDING + READ + PUT2 + 491 * BYTE + 1,
    STRIDING + READ + PUT2 + 491 * BYTE + 2,
    STRIDING + READ + PUT2 + 491 * BYTE + 3,
    STRIDING + READ + PUT2 + 491 * BYTE + 4,
    STRIDING + READ + PUT2 + 491 * BYTE + 5,
    STRIDING + READ + PUT2 + 491 * BYTE + 6,
    STRIDING + READ + PUT2 + 491 * BYTE + 7,
    ONES + READ + PUT2 + 491 * BYTE + 1,
    ONES + READ + PUT2 + 491 * BYTE + 2,
    ONES + READ + PUT2 + 491 * BYTE + 3,
    ONES + READ + PUT2 + 491 * BYTE + 4,
    ONES + READ + PUT2 + 491 * BYTE + 5,
    ONES + READ + PUT2 + 491 * BYTE + 6,
    ONES + READ + PUT2 + 491 * BYTE + 7,
    // The same of bytes that rise from 0x81 on.
    ZEROS + PUT4 + 509 * BYTE + 0x81828384,
    PUT4 + 513 * BYTE + 0x85868788,
    PUT4 + 517 * BYTE + 0x898A8B8C,
    PUT4 + 521 * BYTE + 0x8D8E8F90,
    PUT4 + 525 * BYTE + 0x91929394,
    PUT4 + 529 * BYTE + 0x95969798,
    PUT4 + 533 * BYTE + 0x999A9B9C,
    READ + PUT2 + 491 * BYTE + 1,
    READ + PUT2 + 491 * BYTE + 2,
    READ + PUT2 + 491 * BYTE + 3,
    READ + PUT2 + 491 * BYTE + 4,
    READ + PUT2 + 491 * BYTE + 5,
    READ + PUT2 + 491 * BYTE + 6,
    READ + PUT2 + 491 * BYTE + 7,
    // Temperatures: -1, the lowest and the highest number in turn, then small ones.
    ZEROS + PUT4 + 509 * BYTE + 0xFFFF8000,
    PUT4 + 513 * BYTE + 0x7FFFFFFF,
    PUT4 + 517 * BYTE + 0x80007FFF,
    PUT4 + 521 * BYTE + 0xFFFF8000,
    PUT4 + 525 * BYTE + 0x7FFFFFFF,
    PUT4 + 529 * BYTE + 0x80007FFF,
    READ + PUT4 + 533 * BYTE + 0xFFFF8000,
    READ + PUT2 + 491 * BYTE + 2,
    READ + PUT4 + 509 * BYTE + 0x80007FFF,
    READ + PUT4 + 509 * BYTE + 0xFF0000FF,
    READ + PUT2 + 491 * BYTE + 1,
    // The block's first and last bytes, and their neighbours.
    COUNTING + PUT2 + 491 * BYTE + 4,
    READ + FLIP + 508 * BYTE + 7,
    READ + FLIP + 509 * BYTE + 7,
    READ + FLIP + 536 * BYTE + 7,
    READ + FLIP + 537 * BYTE + 7,
    COUNTING + PUT2 + 491 * BYTE + 7,
    READ + FLIP + 508 * BYTE + 7,
    READ + FLIP + 509 * BYTE + 7,
    READ + FLIP + 536 * BYTE + 7,
    READ + FLIP + 537 * BYTE + 7,
    // Bytes at both sides of where the carried ones and the runs begin and end.
    ZEROS + PUT2 + 491 * BYTE + 3,
    READ + FLIP + 516 * BYTE + 0,
    READ + FLIP + 517 * BYTE + 0,
    READ + FLIP + 520 * BYTE + 0,
    READ + FLIP + 521 * BYTE + 0,
    READ + FLIP + 526 * BYTE + 0,
    READ + FLIP + 527 * BYTE + 0,
    READ + FLIP + 528 * BYTE + 0,
    READ + FLIP + 529 * BYTE + 0,
    ZEROS + PUT2 + 491 * BYTE + 5,
    READ + FLIP + 520 * BYTE + 0,
    READ + FLIP + 521 * BYTE + 0,
    READ + FLIP + 524 * BYTE + 0,
    READ + FLIP + 525 * BYTE + 0,
    READ + FLIP + 528 * BYTE + 0,
    READ + FLIP + 529 * BYTE + 0,
    READ + FLIP + 530 * BYTE + 0,
    READ + FLIP + 531 * BYTE + 0,
    ZEROS + PUT2 + 491 * BYTE + 6,
    READ + FLIP + 518 * BYTE + 0,
    READ + FLIP + 519 * BYTE + 0,
    READ + FLIP + 534 * BYTE + 0,
    READ + FLIP + 535 * BYTE + 0,
    ZEROS + PUT2 + 491 * BYTE + 7,
    READ + FLIP + 516 * BYTE + 0,
    READ + FLIP + 517 * BYTE + 0,
    READ + FLIP + 520 * BYTE + 0,
    READ + FLIP + 521 * BYTE + 0,
    READ + FLIP + 530 * BYTE + 0,
    READ + FLIP + 531 * BYTE + 0,
    READ + FLIP + 536 * BYTE + 0,
    // Refused records with a block.
    COUNTING + PUT2 + 491 * BYTE + 7,
    11 * DUE + READ + LENGTH + 536,
    COUNTING + PUT2 + 491 * BYTE + 3,
    12 * DUE + READ + FLIP + 32 * BYTE + 0,
    COUNTING + PUT2 + 491 * BYTE + 4,
    13 * DUE + READ + PUT4 + 5 * BYTE + 1_000_000,
    COUNTING + PUT2 + 491 * BYTE + 5,
    14 * DUE + READ + PUT4 + 13 * BYTE + 90_000_001,
    15 * DUE + COUNTING + READ + PUT2 + 491 * BYTE + 0,
    15 * DUE + COUNTING + READ + PUT2 + 491 * BYTE + 8,
    15 * DUE + COUNTING + READ + PUT2 + 491 * BYTE + 0x0103,
    15 * DUE + COUNTING + READ + PUT2 + 491 * BYTE + 0x0600,
    15 * DUE + COUNTING + READ + PUT2 + 491 * BYTE + 0x0700,
];
