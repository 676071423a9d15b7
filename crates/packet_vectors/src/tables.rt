// The cases, one to a row. A row is a number, the sum of the parts named here; what it leaves out is as in the base packet, and the answer
// due is 0. So 8 * DUE + LENGTH + 1072 is the base packet with length 1,072, its sum put right, and refusal 8 due. Rows stay numbers: a struct of
// enums for each would be no plainer, since most of these 292 lines name two parts or three.

pub const DUE: u64 = 10_000_000_000_000_000; // times the refusal that is due

// How the packet is filled before its fixed fields are set. Byte b of the base packet is (37 b + 11) mod 256: error status 3, count 5,498.
pub const FILL: u64 = 1_000_000_000_000_000;

pub const BASE: u64 = 0;

pub const ZEROS: u64 = 1 * FILL; // every free byte is 0

pub const ONES: u64 = 2 * FILL; // every free byte is 255

pub const COUNTING: u64 = 3 * FILL; // byte b is b mod 256

pub const RAW_ZEROS: u64 = 4 * FILL; // every byte is 0, and no fixed field is set

pub const RAW_ONES: u64 = 5 * FILL; // every byte is 255, and no fixed field is set

// Which sum is stored. The base packet has the right one, worked out after the changes.
pub const SUM: u64 = 100_000_000_000_000;

pub const STALE: u64 = 1 * SUM; // the right one before the changes

pub const UP: u64 = 2 * SUM; // one too high

pub const DOWN: u64 = 3 * SUM; // one too low

pub const FOLDED: u64 = 4 * SUM; // with the carries out of 16 bits added back in

// A change: a field, plus the number that it gets. A second change comes times AND.
pub const AND: u64 = 10_000_000;

pub const FIELD: u64 = 100_000;

pub const VERSION: u64 = 3 * FIELD;

pub const SPARE: u64 = 4 * FIELD;

pub const FLAG: u64 = 5 * FIELD;

pub const INSTRUMENT: u64 = 6 * FIELD;

pub const SEGMENTATION: u64 = 7 * FIELD;

pub const LENGTH: u64 = 8 * FIELD;

pub const TYPE: u64 = 9 * FIELD;

pub const STATUS: u64 = 11 * FIELD; // the error status

pub const COUNT: u64 = 12 * FIELD;

pub const BIT: u64 = 13 * FIELD; // plus the number k of a byte: its bit k mod 8 is turned

pub const AT: u64 = 14 * FIELD; // the word where the sum is stored, and which the reader is told; 70 for the base packet

pub const WORD: u64 = 15 * FIELD; // the word that the reader or the writer is told, or before which bytes are cut

pub const SIZE: u64 = 16 * FIELD; // how many bytes the reader is given, or are summed

pub const CARRIED: u64 = 17 * FIELD; // how many carried bytes the writer is given

pub const OUTPUT: u64 = 18 * FIELD; // how many bytes of output the writer is given

pub const IN_FULL: u64 = 19 * FIELD + 1; // no change: the arrays are shown in full, the 48 bins last

// Packets to read, with the sum at word 70 where the row does not say otherwise.
pub const READS: [u64; 80] = [
    // Free fields and carried bytes.
    STATUS + 0,
    STATUS + 1,
    STATUS + 2,
    STATUS + 3,
    STATUS + 4,
    STATUS + 5,
    STATUS + 6,
    STATUS + 7,
    COUNT + 0,
    COUNT + 1,
    COUNT + 8192,
    COUNT + 16383, // the highest count
    BIT + 6, // coarse time's first byte
    BIT + 7,
    BIT + 8,
    BIT + 9, // coarse time's last byte
    BIT + 10, // fine time
    BIT + 12, // first temperature
    BIT + 27, // last temperature
    BIT + 28, // first reading
    BIT + 41, // last reading
    BIT + 42, // status register
    BIT + 43, // software version
    BIT + 44, // RAM flag word
    BIT + 45,
    BIT + 46, // status word 1
    BIT + 47,
    BIT + 48, // status word 2
    BIT + 49,
    BIT + 50, // software checksum, which is carried and not checked
    BIT + 51,
    BIT + 52, // commands received
    BIT + 53, // command errors
    BIT + 54, // transmitter threshold
    BIT + 55, // tracking status
    BIT + 56, // bin 1
    BIT + 57, // bin 0
    BIT + 102, // bin 47
    BIT + 103, // bin 46
    BIT + 104, // HSTART
    BIT + 105,
    BIT + 106, // first carried byte
    BIT + 139, // the byte before the sum
    BIT + 142, // the byte after the sum
    BIT + 1079, // last carried byte
    STALE + BIT + 20 + AND * (BIT + 28), // two bits that make up for each other, which the sum cannot see
    // The histogram.
    IN_FULL,
    COUNTING + IN_FULL, // byte 56 holds 56: the bins start 57 56 59 58
    ZEROS + BIT + 57 + AND * IN_FULL, // bin 0
    ZEROS + BIT + 56 + AND * IN_FULL, // bin 1
    ZEROS + BIT + 102 + AND * IN_FULL, // bin 47
    ZEROS + BIT + 103 + AND * IN_FULL, // bin 46
    // Sum words and sizes.
    AT + 53,
    AT + 54,
    AT + 538,
    AT + 539,
    2 * DUE + AT + 52, // HSTART's word, though the sum stands there
    10 * DUE + WORD + 53, // the sum is at word 70 all the same
    10 * DUE + WORD + 71,
    10 * DUE + WORD + 539,
    DUE + SIZE + 0,
    DUE + SIZE + 1,
    DUE + SIZE + 6,
    DUE + SIZE + 106,
    DUE + SIZE + 1078,
    DUE + SIZE + 1079,
    DUE + SIZE + 1081,
    DUE + SIZE + 1082,
    DUE + SIZE + 1230, // an AEDR record
    DUE + SIZE + 2160, // two packets
    // Two conditions fail, and the first in the order is given.
    DUE + SIZE + 1079 + AND * (WORD + 52), // 1 and 2
    DUE + SIZE + 1079 + AND * (WORD + 540), // 1 and 2
    DUE + SIZE + 1081 + AND * (WORD + 52), // 1 and 2
    DUE + SIZE + 1081 + AND * (WORD + 540), // 1 and 2
    DUE + SIZE + 1081 + AND * (VERSION + 1), // 1 and 3
    DUE + SIZE + 1079 + AND * (TYPE + 1), // 1 and 9
    DUE + SIZE + 1079 + UP, // 1 and 10
    2 * DUE + AT + 52 + AND * (VERSION + 1), // 2 and 3
    2 * DUE + WORD + 540 + AND * (VERSION + 1), // 2 and 3
    2 * DUE + WORD + 540 + UP, // 2 and 10
];

// Packets to read three times, with the sum at words 53, 70 and 539.
pub const CHECKS: [u64; 132] = [
    // Fixed fields, each with every single bit turned.
    3 * DUE + VERSION + 1,
    3 * DUE + VERSION + 2,
    3 * DUE + VERSION + 3,
    3 * DUE + VERSION + 4,
    3 * DUE + VERSION + 5,
    3 * DUE + VERSION + 6,
    3 * DUE + VERSION + 7,
    4 * DUE + SPARE + 1,
    5 * DUE + FLAG + 1,
    6 * DUE + INSTRUMENT + 34,
    6 * DUE + INSTRUMENT + 33,
    6 * DUE + INSTRUMENT + 39,
    6 * DUE + INSTRUMENT + 43,
    6 * DUE + INSTRUMENT + 51,
    6 * DUE + INSTRUMENT + 3,
    6 * DUE + INSTRUMENT + 99,
    6 * DUE + INSTRUMENT + 163,
    6 * DUE + INSTRUMENT + 0,
    6 * DUE + INSTRUMENT + 36,
    6 * DUE + INSTRUMENT + 255,
    6 * DUE + RAW_ZEROS, // nothing but zeros: the instrument is the first that is wrong
    7 * DUE + SEGMENTATION + 0,
    7 * DUE + SEGMENTATION + 1,
    7 * DUE + SEGMENTATION + 2,
    8 * DUE + LENGTH + 1072, // one too low
    8 * DUE + LENGTH + 1074, // one too high: the octets after byte 5
    8 * DUE + LENGTH + 1080, // the whole packet's
    8 * DUE + LENGTH + 1075, // bit 1 turned
    8 * DUE + LENGTH + 1077, // bit 2 turned
    8 * DUE + LENGTH + 1081, // bit 3 turned
    8 * DUE + LENGTH + 1057, // bit 4 turned
    8 * DUE + LENGTH + 1041, // bit 5 turned
    8 * DUE + LENGTH + 1137, // bit 6 turned
    8 * DUE + LENGTH + 1201, // bit 7 turned
    8 * DUE + LENGTH + 1329, // bit 8 turned
    8 * DUE + LENGTH + 1585, // bit 9 turned
    8 * DUE + LENGTH + 49, // bit 10 turned
    8 * DUE + LENGTH + 3121, // bit 11 turned
    8 * DUE + LENGTH + 5169, // bit 12 turned
    8 * DUE + LENGTH + 9265, // bit 13 turned
    8 * DUE + LENGTH + 17457, // bit 14 turned
    8 * DUE + LENGTH + 33841, // bit 15 turned
    8 * DUE + LENGTH + 0,
    8 * DUE + LENGTH + 65535,
    9 * DUE + TYPE + 1,
    9 * DUE + TYPE + 2,
    9 * DUE + TYPE + 3,
    9 * DUE + TYPE + 4,
    9 * DUE + TYPE + 5,
    9 * DUE + TYPE + 8,
    9 * DUE + TYPE + 16,
    9 * DUE + TYPE + 32,
    9 * DUE + TYPE + 64,
    9 * DUE + TYPE + 127,
    9 * DUE + TYPE + 128,
    9 * DUE + TYPE + 255,
    // Sums.
    BASE,
    ZEROS, // every free byte zero: sum 50,260
    ZEROS + COUNT + 16383, // the same with count 16,383: sum 1,107
    ONES, // every free byte 255
    COUNTING,
    ZEROS + FOLDED, // no carry out of 16 bits, so that adding it back changes nothing
    10 * DUE + UP, // the sum is one too high
    10 * DUE + DOWN, // one too low
    10 * DUE + FOLDED, // with its carries added back in
    10 * DUE + ZEROS + UP,
    10 * DUE + ZEROS + DOWN,
    10 * DUE + ZEROS + COUNT + 16383 + UP, // 1,108 for 1,107
    10 * DUE + ZEROS + COUNT + 16383 + DOWN, // 1,106
    10 * DUE + ZEROS + COUNT + 16383 + FOLDED, // 1,108 by the carry
    10 * DUE + ZEROS + COUNT + 16383 + STALE, // 50,260
    10 * DUE + ONES + UP,
    10 * DUE + ONES + DOWN,
    10 * DUE + ONES + FOLDED,
    10 * DUE + COUNTING + FOLDED,
    10 * DUE + STALE + BIT + 20 + AND * (BIT + 12), // two bits that do not make up for each other
    10 * DUE + STALE + BIT + 0, // error status
    10 * DUE + STALE + BIT + 2, // count
    10 * DUE + STALE + BIT + 3, // count
    10 * DUE + STALE + BIT + 6, // coarse time
    10 * DUE + STALE + BIT + 9, // coarse time
    10 * DUE + STALE + BIT + 10, // fine time
    10 * DUE + STALE + BIT + 12, // first temperature
    10 * DUE + STALE + BIT + 27, // last temperature
    10 * DUE + STALE + BIT + 28, // first reading
    10 * DUE + STALE + BIT + 41, // last reading
    10 * DUE + STALE + BIT + 42, // status register
    10 * DUE + STALE + BIT + 43, // software version
    10 * DUE + STALE + BIT + 44, // RAM flag word
    10 * DUE + STALE + BIT + 47, // status word 1
    10 * DUE + STALE + BIT + 48, // status word 2
    10 * DUE + STALE + BIT + 51, // software checksum
    10 * DUE + STALE + BIT + 52, // commands received
    10 * DUE + STALE + BIT + 53, // command errors
    10 * DUE + STALE + BIT + 54, // transmitter threshold
    10 * DUE + STALE + BIT + 55, // tracking status
    10 * DUE + STALE + BIT + 56, // bin 1
    10 * DUE + STALE + BIT + 103, // bin 46
    10 * DUE + STALE + BIT + 105, // HSTART
    10 * DUE + STALE + BIT + 106, // word 53: a carried byte or the sum's own
    10 * DUE + STALE + BIT + 141, // word 70: a carried byte or the sum's own
    10 * DUE + STALE + BIT + 600, // a carried byte
    10 * DUE + STALE + BIT + 1079, // word 539: a carried byte or the sum's own
    // Two conditions fail, and the first in the order is given: each pair from 3 to 10, neighbours first.
    3 * DUE + VERSION + 1 + AND * (SPARE + 1), // 3 and 4
    4 * DUE + SPARE + 1 + AND * (FLAG + 1), // 4 and 5
    5 * DUE + FLAG + 1 + AND * (INSTRUMENT + 34), // 5 and 6
    6 * DUE + INSTRUMENT + 34 + AND * (SEGMENTATION + 1), // 6 and 7
    7 * DUE + SEGMENTATION + 1 + AND * (LENGTH + 1072), // 7 and 8
    8 * DUE + LENGTH + 1072 + AND * (TYPE + 1), // 8 and 9
    9 * DUE + TYPE + 1 + UP, // 9 and 10
    3 * DUE + VERSION + 1 + AND * (FLAG + 1), // 3 and 5
    3 * DUE + VERSION + 1 + AND * (INSTRUMENT + 34), // 3 and 6
    3 * DUE + VERSION + 1 + AND * (SEGMENTATION + 1), // 3 and 7
    3 * DUE + VERSION + 1 + AND * (LENGTH + 1072), // 3 and 8
    3 * DUE + VERSION + 1 + AND * (TYPE + 1), // 3 and 9
    3 * DUE + VERSION + 1 + STALE, // 3 and 10
    4 * DUE + SPARE + 1 + AND * (INSTRUMENT + 34), // 4 and 6
    4 * DUE + SPARE + 1 + AND * (SEGMENTATION + 1), // 4 and 7
    4 * DUE + SPARE + 1 + AND * (LENGTH + 1072), // 4 and 8
    4 * DUE + SPARE + 1 + AND * (TYPE + 1), // 4 and 9
    4 * DUE + SPARE + 1 + STALE, // 4 and 10
    5 * DUE + FLAG + 1 + AND * (SEGMENTATION + 1), // 5 and 7
    5 * DUE + FLAG + 1 + AND * (LENGTH + 1072), // 5 and 8
    5 * DUE + FLAG + 1 + AND * (TYPE + 1), // 5 and 9
    5 * DUE + FLAG + 1 + STALE, // 5 and 10
    6 * DUE + INSTRUMENT + 34 + AND * (LENGTH + 1072), // 6 and 8
    6 * DUE + INSTRUMENT + 34 + AND * (TYPE + 1), // 6 and 9
    6 * DUE + INSTRUMENT + 34 + STALE, // 6 and 10
    7 * DUE + SEGMENTATION + 1 + AND * (TYPE + 1), // 7 and 9
    7 * DUE + SEGMENTATION + 1 + STALE, // 7 and 10
    8 * DUE + LENGTH + 1072 + STALE, // 8 and 10
    3 * DUE + RAW_ONES + UP, // 3 to 10
];

// Sum words for which the reader and the writer give 2.
pub const WORDS: [usize; 10] = [
    0,
    1,
    52, // HSTART's
    540, // the first past the packet
    541,
    65606, // 70 if 16 bits were kept
    70000,
    4294967366, // 70 if 32 bits were kept
    9223372036854775878, // its double is 140 if carries were dropped
    18446744073709551615, // the highest there is
];

// Packets to write, with the fields, arrays and carried bytes of the row's fill but for its changes.
pub const WRITES: [u64; 41] = [
    // Written.
    BASE,
    WORD + 53,
    WORD + 54,
    WORD + 538,
    WORD + 539,
    COUNT + 0 + AND * (STATUS + 0),
    COUNT + 16383 + AND * (STATUS + 7),
    ZEROS + WORD + 53, // sum 50,260
    ZEROS + WORD + 53 + AND * (COUNT + 16383), // sum 1,107
    ZEROS + WORD + 539,
    ONES + WORD + 53,
    ONES,
    ONES + WORD + 539,
    COUNTING,
    // One condition fails.
    17 * DUE + COUNT + 16384,
    17 * DUE + COUNT + 16384 + AND * (WORD + 53),
    17 * DUE + COUNT + 16384 + AND * (WORD + 539),
    17 * DUE + COUNT + 21882, // 5,498 if 14 bits were kept
    17 * DUE + COUNT + 65535,
    17 * DUE + STATUS + 8,
    17 * DUE + STATUS + 11, // 3 if 3 bits were kept
    17 * DUE + STATUS + 255,
    17 * DUE + CARRIED + 0,
    17 * DUE + CARRIED + 973,
    17 * DUE + CARRIED + 975,
    17 * DUE + CARRIED + 1080,
    18 * DUE + OUTPUT + 0,
    18 * DUE + OUTPUT + 1079,
    18 * DUE + OUTPUT + 1081,
    18 * DUE + OUTPUT + 2160,
    // Two conditions fail, and the first in the order is given.
    2 * DUE + WORD + 52 + AND * (COUNT + 16384), // 2 and 17
    2 * DUE + WORD + 52 + AND * (STATUS + 8), // 2 and 17
    2 * DUE + WORD + 52 + AND * (CARRIED + 973), // 2 and 17
    2 * DUE + WORD + 52 + AND * (OUTPUT + 1079), // 2 and 18
    2 * DUE + WORD + 540 + AND * (COUNT + 16384), // 2 and 17
    2 * DUE + WORD + 540 + AND * (STATUS + 8), // 2 and 17
    2 * DUE + WORD + 540 + AND * (CARRIED + 975), // 2 and 17
    2 * DUE + WORD + 540 + AND * (OUTPUT + 1081), // 2 and 18
    17 * DUE + COUNT + 16384 + AND * (OUTPUT + 1079), // 17 and 18
    17 * DUE + STATUS + 8 + AND * (OUTPUT + 1081), // 17 and 18
    17 * DUE + CARRIED + 975 + AND * (OUTPUT + 0), // 17 and 18
];

pub const HSTARTS: [u16; 13] = [0, 1, 2, 3, 4, 6, 7, 8, 4660, 32767, 32768, 65534, 65535];

// Bytes whose words are summed: a row's packet, its first bytes, or the packet and the fill past it; whole, and cut before a word, 0 if not named.
pub const SUMS: [u64; 16] = [
    SIZE + 0,
    SIZE + 1, // one byte, the upper half of a word
    SIZE + 2 + AND * (WORD + 1), // at the end
    SIZE + 3,
    SIZE + 3 + AND * (WORD + 1), // the last odd byte alone
    SIZE + 3 + AND * (WORD + 2), // past the end
    WORD + 0,
    WORD + 70,
    WORD + 539, // the last word alone
    WORD + 540, // at the end
    WORD + 99999, // far past the end
    SIZE + 1079 + AND * (WORD + 539), // the last odd byte alone
    SIZE + 2159 + AND * (WORD + 540),
    RAW_ONES + SIZE + 4 + AND * (WORD + 1), // 65,535 twice: 65,534
    RAW_ONES + SIZE + 1079 + AND * (WORD + 270),
    RAW_ONES + SIZE + 2160 + AND * (WORD + 540),
];
