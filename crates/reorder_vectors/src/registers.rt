// What rows change: the session, the base packet, and what openings are told.
use crate::cases;
use position::Anchor;
use reorder_session::Session;
use window::Window;

#[derive(Clone, Copy)]
pub struct Registers {
    pub session: Session,
    pub base_count: u32,
    pub base_time: u32,
    pub stored: u32, // the word where packets have their sum
    pub told_threshold: u32,
    pub told_word: u32,
}

// A session that holds nothing.
fn session_of(anchor: Anchor, sum_word: u32, threshold: u32, next: u32) -> Session {
    Session {
        anchor,
        sum_word,
        threshold,
        window: Window {
            start: next,
            marks: 0,
        },
    }
}

// What a history starts with.
pub(crate) fn fresh() -> Registers {
    Registers {
        session: Session::default(),
        base_count: 16_380,
        base_time: 1_000_000,
        stored: 70,
        told_threshold: 3,
        told_word: 70,
    }
}

// A session by hand: the base packet's anchor, what openings are told, and the row's next.
pub(crate) fn make(row: u64, mut r: Registers) -> Registers {
    let anchor = Anchor {
        count: r.base_count,
        time: r.base_time,
    };
    r.session = session_of(anchor, r.told_word, r.told_threshold, cases::number(row));
    r
}

// The field of the session that a row names gets the row's number.
fn set_session(row: u64, mut session: Session) -> Session {
    let n = cases::number(row);
    match row - row % cases::FIELD {
        cases::ANCHOR_COUNT => session.anchor.count = n,
        cases::ANCHOR_TIME => session.anchor.time = n,
        cases::SUM_WORD => session.sum_word = n,
        cases::THRESHOLD => session.threshold = n,
        cases::NEXT => session.window.start = n,
        cases::MARKS => session.window.marks = n,
        _ => {}
    }
    session
}

// The register that a row names gets the row's number.
pub(crate) fn set(row: u64, mut r: Registers) -> Registers {
    let n = cases::number(row);
    match row - row % cases::FIELD {
        cases::BASE_COUNT => r.base_count = n,
        cases::BASE_TIME => r.base_time = n,
        cases::STORED => r.stored = n,
        cases::TOLD_THRESHOLD => r.told_threshold = n,
        cases::TOLD_WORD => r.told_word = n,
        _ => r.session = set_session(row, r.session),
    }
    r
}

// The word where packets have their sum; it is one of a packet's 540.
pub(crate) fn stored(r: Registers) -> usize {
    (r.stored % 540) as usize
}

// The count of a row's packet: -1,000,000 is 15,808 modulo 16,384.
pub(crate) fn count(row: u64, r: Registers) -> u64 {
    (u64::from(r.base_count) + row / cases::P % 10_000_000 + 15_808) % 16_384
}

// Its clock, modulo 2 to the 32.
pub(crate) fn time(row: u64, r: Registers) -> u64 {
    let moved = 14 * (row / cases::P % 10_000_000) + row % cases::P;
    (u64::from(r.base_time) + moved + 4_294_967_296 - 19_000_000) % 4_294_967_296
}
