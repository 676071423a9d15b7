// The parts of a row. A row is a number, the sum of parts named here: a call with its packet and its buffers, or a change of what the next
// calls are given. So OFFER + 9 * P + 3600 offers the packet of position 9 with its clock 3,600 seconds late, and
// OFFER - 1 * P + TYPE + SUM offers the one before the base packet, with a wrong type and a wrong sum. Rows of structs would be no plainer: a sum names
// only the parts that a row has.

pub const CALL: u64 = 1_000_000_000_000_000_000;

// A packet has the count and the clock of the base packet, moved on by a position, and its clock moved by seconds more.
pub const P: u64 = 10_000_000; // times the position, from -1,000,000 to 8,999,999

const START: u64 = 1_000_000 * P + 5_000_000; // position 0, and no seconds more; they go from -5,000,000 to 4,999,999

pub const OPEN: u64 = 1 * CALL + START; // by value

pub const OPEN_OR: u64 = 2 * CALL + START; // with the session, which stays on a refusal

pub const OFFER: u64 = 3 * CALL + START;

pub const SERVE: u64 = 4 * CALL;

pub const DRAIN: u64 = 5 * CALL; // plus the budget

pub const PASS: u64 = 6 * CALL;

pub const EACH: u64 = 7 * CALL + START; // pass, drain by 32, serve and offer, each from this session

pub const MAKE: u64 = 10 * CALL; // plus next: a session of the base packet's count and time and what openings are told, with no marks

pub const HISTORY: u64 = 9 * CALL; // plus a number: everything starts anew

pub const SET: u64 = 8 * CALL; // plus a register, plus a number that it gets

pub const FIELD: u64 = 10_000_000_000;

pub const ANCHOR_COUNT: u64 = SET + 0 * FIELD; // the session's

pub const ANCHOR_TIME: u64 = SET + 1 * FIELD;

pub const SUM_WORD: u64 = SET + 2 * FIELD;

pub const THRESHOLD: u64 = SET + 3 * FIELD;

pub const NEXT: u64 = SET + 4 * FIELD;

pub const MARKS: u64 = SET + 5 * FIELD;

pub const BASE_COUNT: u64 = SET + 6 * FIELD; // 16,380 in a new history

pub const BASE_TIME: u64 = SET + 7 * FIELD; // 1,000,000

pub const STORED: u64 = SET + 8 * FIELD; // the word where packets have their sum: 70

pub const TOLD_THRESHOLD: u64 = SET + 9 * FIELD; // what openings are told: 3

pub const TOLD_WORD: u64 = SET + 10 * FIELD; // 70

// The call is made again up to nine times; an offer's position grows by one each time.
pub const MORE: u64 = 100_000_000_000_000_000;

// What is wrong in a packet. Its sum is right all the same.
pub const WRONG: u64 = 100_000_000_000_000;

pub const VERSION: u64 = 1 * WRONG;

pub const SPARE: u64 = 2 * WRONG;

pub const FLAG: u64 = 3 * WRONG;

pub const INSTRUMENT: u64 = 4 * WRONG;

pub const SEGMENTATION: u64 = 5 * WRONG;

pub const LENGTH: u64 = 6 * WRONG;

pub const TYPE: u64 = 7 * WRONG;

pub const OTHER: u64 = 8 * WRONG; // nothing, but its free bytes are others

// What happens to a packet after its sum was stored.
pub const AFTER: u64 = 1_000_000_000_000_000;

pub const SUM: u64 = 1 * AFTER; // the lowest bit of the sum is turned

pub const BIT: u64 = 2 * AFTER; // the lowest bit of byte 1,079 is turned

pub const SHORT: u64 = 3 * AFTER; // 1,079 bytes are given

pub const LONG: u64 = 4 * AFTER; // 1,081

pub const EMPTY: u64 = 5 * AFTER; // none

pub const ONE: u64 = 6 * AFTER;

// How many bytes of store a call is given; 34,560 where the row doesn't say.
pub const STORE: u64 = 10_000_000_000_000_000;

pub const STORE_0: u64 = 1 * STORE;

pub const STORE_34559: u64 = 2 * STORE;

pub const STORE_34561: u64 = 3 * STORE;

pub const STORE_1080: u64 = 4 * STORE;

// How many bytes of output a serve or drain is given; 34,560 where the row doesn't say.
pub const OUTPUT: u64 = 100_000_000_000_000;

pub const OUT_0: u64 = 1 * OUTPUT;

pub const OUT_1079: u64 = 2 * OUTPUT;

pub const OUT_1080: u64 = 3 * OUTPUT;

pub const OUT_1081: u64 = 4 * OUTPUT;

pub const OUT_34559: u64 = 5 * OUTPUT;

pub const OUT_34561: u64 = 6 * OUTPUT;

pub const OUT_2160: u64 = 7 * OUTPUT;

pub const OUT_1: u64 = 8 * OUTPUT;

// The digit of a row that stands at a part.
pub(crate) fn digit(row: u64, part: u64) -> u64 {
    if part == 0 {
        return 0;
    }
    row / part % 10
}

// The number that a row ends with: a drain's budget, the next of MAKE, a history's number, or what a register gets.
pub(crate) fn number(row: u64) -> u32 {
    (row % FIELD % 4_294_967_296) as u32
}

// What a row does: a call, the four calls of EACH, or a change of what the next calls are given.
#[derive(Clone, Copy)]
pub enum Call {
    Open,
    OpenOr,
    Offer,
    Serve,
    Drain,
    Pass,
    Each,
    Set,
    History,
    Make,
}

// The numbers are those before CALL in the constants from OPEN to SET.
pub(crate) fn call_of(row: u64) -> Call {
    match row / CALL {
        1 => Call::Open,
        2 => Call::OpenOr,
        3 => Call::Offer,
        4 => Call::Serve,
        5 => Call::Drain,
        6 => Call::Pass,
        7 => Call::Each,
        8 => Call::Set,
        9 => Call::History,
        _ => Call::Make,
    }
}

// The offer of a row's packet, moved on by k positions.
pub(crate) fn offer_of(row: u64, k: u64) -> u64 {
    OFFER - START + row % CALL + k % 10 * P
}
