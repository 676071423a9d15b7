// Counts that go round, and clocks.
use crate::cases::{
    BASE_COUNT, BASE_TIME, DRAIN, HISTORY, MAKE, MARKS, MORE, OFFER, OPEN, OTHER, P, PASS, SERVE,
};

pub const ROWS: [u64; 174] = [
    HISTORY + 10, // the count goes round
    OPEN,
    OFFER + 1 * P + 5 * MORE, // count 16,383 is position 3, and 0 is 4
    OFFER + 9 * P,
    DRAIN + 32,
    OFFER + 8 * P,
    MAKE + 16370,
    OFFER + 16377 * P + 9 * MORE, // the anchor's count comes round at 16,384
    OFFER + 16393 * P, // count 5
    OFFER + 9 * P, // count 5, a round before
    OFFER + 16401 * P,
    OFFER + 16402 * P,
    DRAIN + 32,
    MAKE + 32764,
    MARKS + 0x80000001,
    OFFER + 32767 * P, // held
    OFFER + 32768 * P, // held by its mark
    OFFER + 32766 * P,
    OFFER + 32770 * P,
    DRAIN + 32,
    BASE_COUNT + 0,
    MAKE + 16380,
    OFFER + 16383 * P,
    OFFER + 16384 * P,
    OFFER - 1 * P,
    DRAIN + 32,
    BASE_COUNT + 16383,
    MAKE + 0,
    OFFER,
    OFFER + 1 * P,
    OFFER - 1 * P,
    OFFER + 16384 * P,
    OFFER + 16385 * P,
    DRAIN + 32,
    MAKE + 500000,
    OFFER + 500000 * P,
    OFFER + 500031 * P,
    OFFER + 500032 * P,
    OFFER + 499999 * P,
    OFFER + 483617 * P, // a round before 500,001, in the same room
    DRAIN + 32,
    HISTORY + 11, // packets of an earlier or a later round of counts
    OPEN,
    OFFER + 3 * P - 229376, // a round of the clock earlier: -16,381
    OFFER + 3 * P + 229376, // later: 16,387
    OFFER + 3 * P - 458752,
    OFFER + 3 * P + 458752,
    OFFER + 3 * P - 112000, // half a round: no position
    OFFER + 3 * P + 114688,
    OFFER + 3 * P - 225776, // a round less 3,600
    OFFER + 3 * P - 225775, // a second more, and nothing fits
    OFFER + 3 * P + 225776,
    OFFER + 3 * P + 225775,
    OFFER + 3 * P - 232976,
    OFFER + 3 * P - 232977,
    OFFER + 3 * P + 232976,
    OFFER + 3 * P + 232977,
    OFFER + 3 * P - 917504, // four rounds
    OFFER + 3 * P + 4128768, // eighteen rounds
    OFFER + 3 * P,
    OFFER + 3 * P - 229376, // the same, with 3 held
    OFFER + 3 * P + 229376,
    SERVE,
    BASE_TIME + 10000000,
    MAKE + 20000,
    OFFER + 3617 * P, // the count of 20,001, a round early
    OFFER + 20001 * P - 229376,
    OFFER + 20001 * P + 229376,
    OFFER + 20001 * P - 4587520, // twenty rounds
    OFFER + 20001 * P + 4816896,
    OFFER + 20001 * P - 3601,
    OFFER + 20001 * P + 3601,
    OFFER + 20001 * P,
    OFFER + 20001 * P - 229376,
    OFFER + 3617 * P,
    OFFER + 36385 * P,
    SERVE,
    PASS,
    SERVE,
    OFFER + 20001 * P - 229376,
    OFFER + 36385 * P + 3600,
    OFFER + 36385 * P + 3601,
    MAKE + 999980,
    OFFER + 999981 * P + 229376, // over the end
    OFFER + 999981 * P - 229376,
    OFFER + 999981 * P,
    HISTORY + 12, // the clock's tolerance
    OPEN,
    OFFER + 9 * P + 3600, // count 5 at 1,003,726
    OFFER + 9 * P, // at 1,000,126
    OFFER + 9 * P + 3601,
    OFFER + 10 * P + 3600,
    OFFER + 11 * P - 3600,
    OFFER + 12 * P + 3601,
    OFFER + 12 * P - 3601,
    OFFER + 12 * P + 3599,
    OFFER + 13 * P - 3599,
    OFFER + 14 * P + 3602,
    OFFER + 14 * P + 3607, // half a position
    OFFER + 14 * P - 3614, // a whole one
    OFFER + 14 * P + 7200,
    OFFER + 14 * P - 7200,
    OFFER + 1 * P + 3600,
    OFFER + 2 * P - 3600, // before the anchor's clock
    OFFER + 3 * P - 3601,
    OFFER - 1 * P, // -1
    OFFER - 1 * P + 3600, // its clock is after the anchor's
    OFFER - 1 * P + 3601,
    OFFER - 1 * P - 3600,
    OFFER - 1 * P - 3601,
    OFFER - 2 * P,
    OFFER - 31 * P,
    OFFER - 32 * P,
    OFFER - 16384 * P,
    OFFER - 70000 * P,
    OFFER + 3600, // 0 again
    OFFER - 3600,
    OFFER + 3601,
    OFFER - 3601,
    DRAIN + 32,
    OFFER + 16393 * P,
    HISTORY + 13, // clocks near 0 and near 2 to the 32
    BASE_TIME + 0,
    OPEN,
    OFFER + 1 * P,
    OFFER + 2 * P - 28, // clock 0
    OFFER + 258 * P - 3600,
    OFFER + 31 * P - 434, // clock 0
    OFFER - 1 * P + 14, // clock 0, count before the anchor's
    OFFER - 257 * P + 3598, // clock 0: as far off as it goes
    OFFER - 258 * P + 3612, // farther
    OFFER - 1 * P, // clock 4,294,967,282: near the other end
    OFFER + 3 * P - 43, // clock 4,294,967,295
    DRAIN + 32,
    BASE_TIME + 4294967295,
    OPEN,
    OFFER + 1 * P - 14, // clock 4,294,967,295
    OFFER + 2 * P - 28,
    OFFER + 3 * P - 43, // clock 4,294,967,294
    OFFER + 1 * P, // clock 13
    OFFER - 1 * P,
    OFFER - 1 * P + 14,
    OFFER + 31 * P - 3600,
    OFFER + 31 * P - 434,
    DRAIN + 32,
    BASE_TIME + 4294963695,
    OPEN,
    OFFER + 3600,
    OFFER + 1 * P + 3586 + OTHER, // clock 4,294,967,295
    OFFER + 2 * P + 3572 + OTHER,
    OFFER + 3 * P - 3600,
    OFFER + 4 * P + 3600, // clock 55
    DRAIN + 32,
    BASE_TIME + 2147483648,
    OPEN,
    OFFER + 1 * P - 14, // clock 2,147,483,648
    OFFER + 2 * P - 29, // clock 2,147,483,647
    OFFER - 1 * P,
    DRAIN + 32,
    BASE_TIME + 4294967295,
    MAKE + 0,
    BASE_TIME + 0,
    OFFER, // 2 to the 32 less 1 before the anchor: nothing fits
    OFFER + 2 * P,
    OFFER + 7022 * P - 98308, // clock 0: position -306,783,378
    OFFER + 7022 * P - 94705, // clock 3,603: as far off as it goes
    OFFER + 7022 * P - 94704,
    BASE_TIME + 0,
    MAKE + 0,
    BASE_TIME + 4294967295,
    OFFER,
    OFFER + 9362 * P - 131068, // clock 4,294,967,295: position 306,783,378
    OFFER + 9362 * P - 134671, // clock 4,294,963,692: as far off as it goes
    OFFER + 9362 * P - 134672,
];
