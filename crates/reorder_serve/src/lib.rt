// Serving the reorder buffer in order: serve and drain (document 01, "The rack").
#![tactic(auto)]

ghost use Rattle.std.specs.Prelude.{◌≡◌, ◌+◌, ◌*◌, ◌≤◌, ◌<◌, length};
ghost use Rattle.packet_layout.specs.Layout.{packet_size};
ghost use Rattle.refusal.specs.Number.{said};
ghost use Rattle.reorder_rules.specs.Sizes.{positions, store_size, end_position};
ghost use Rattle.reorder_session.specs.Calls.{turn, turned, shown, turns, turned_all, shown_all, Serves};
ghost use Rattle.reorder_serve.specs.Report.{DrainsReport};
ghost use Rattle.reorder_serve.specs.Places.{stored_all, DrainsInto};

mod places;

use lent_record::Stepped;
use packet_layout::PACKET_SIZE;
pub use places::{Places, ReportPlaces};
use refusal::Refusal;
use reorder_rules::{MOST_ANSWERS, Turn};
use reorder_session::Session;
use window::POSITIONS;

// What a drain answers: how many answers there were, and these in order; Waiting past their count and on a refusal.
#[derive(Clone, Copy)]
pub struct Report {
    pub answer: Result<u32, Refusal>,
    pub turns: [Turn; MOST_ANSWERS],
}

// Serves once where nothing is refused; a packet's bytes go to 1,080 i of the output. Both parts' lengths are told, so that the copy compiles to wide moves.
fn step(session: Session, out: &mut [u8], store: &[u8], i: u32) -> Stepped<Turn, Session>
    requires start_bound { session.window.start < 4294967295 }
    requires store_len { length store.now ≡ store_size }
    requires room { packet_size * i + packet_size ≤ length out.old }
    ensures answer { result.answer ≡ turn session }
    ensures session { result.session ≡ turned session (turn session) }
    ensures output { out.new ≡ shown session i store.now out.old (turn session) }
{
    let window = session.window;
    let next = window.start;
    if window.is_start_held() {
        let from = PACKET_SIZE * (next % POSITIONS) as usize;
        let to = PACKET_SIZE * i as usize;
        octets::write_into(
            &store[from..from + PACKET_SIZE],
            0,
            &mut out[to..to + PACKET_SIZE],
        );
        return Stepped {
            answer: Turn::Packet(next),
            session: session.with_window(window.free()),
        };
    }
    if window.is_held_ahead(session.threshold) {
        return Stepped {
            answer: Turn::Missing(next),
            session: session.with_window(window.skip()),
        };
    }
    Stepped {
        answer: Turn::Waiting,
        session,
    }
}

// Serves the next position.
pub fn serve(
    session: Session,
    out: &mut [u8],
    store: &[u8],
) -> Stepped<Result<Turn, Refusal>, Session>
    ensures { Serves session out.old store.now (said result.answer) result.session out.new }
{
    if let Err(refusal) = reorder_turn::check_serve(session, store.len(), out.len()) {
        return Stepped {
            answer: Err(refusal),
            session,
        };
    }
    let served = step(session, out, store, 0);
    Stepped {
        answer: Ok(served.answer),
        session: served.session,
    }
}

// Serves until a serve waits or the budget is spent, and stores the answers; gives their count.
fn run<P, S: Places<P>>(
    session: Session,
    out: &mut [u8],
    store: &[u8],
    budget: u32,
    places: &mut P,
) -> Stepped<u32, Session>
    requires start_le_end_position { session.window.start ≤ end_position }
    requires store_len { length store.now ≡ store_size }
    requires out_len { length out.old ≡ store_size }
    requires budget_le_positions { budget ≤ positions }
    ensures count { result.answer ≡ length (turns budget session) }
    ensures session { result.session ≡ turned_all session (turns budget session) }
    ensures output { out.new ≡ shown_all session 0 store.now out.old (turns budget session) }
    ensures places { places.new ≡ stored_all S.stored places.old 0 (turns budget session) }
{
    let mut now = session;
    for i in 0..budget {
        let served = step(now, out, store, i);
        if let Turn::Waiting = served.answer {
            return Stepped {
                answer: i,
                session: now,
            };
        }
        S::store(places, i, served.answer);
        now = served.session;
    }
    Stepped {
        answer: budget,
        session: now,
    }
}

// Serves until a serve waits or the budget is spent; the i-th answer is stored in place i, and where it is a packet its bytes stand at 1,080 i.
pub fn drain_into<P, S: Places<P>>(
    session: Session,
    out: &mut [u8],
    store: &[u8],
    budget: u32,
    places: &mut P,
) -> Stepped<Result<u32, Refusal>, Session>
    ensures { DrainsInto S.stored session out.old store.now budget places.old
        (said result.answer) result.session out.new places.new }
{
    if let Err(refusal) = reorder_turn::check_drain(session, store.len(), out.len(), budget) {
        return Stepped {
            answer: Err(refusal),
            session,
        };
    }
    let ran = run::<P, S>(session, out, store, budget, places);
    Stepped {
        answer: Ok(ran.answer),
        session: ran.session,
    }
}

// The same, with the answers in a report.
pub fn drain(
    session: Session,
    out: &mut [u8],
    store: &[u8],
    budget: u32,
) -> Stepped<Report, Session>
    ensures { DrainsReport session out.old store.now budget result.answer result.session out.new }
{
    let mut turns = [Turn::Waiting; MOST_ANSWERS];
    let drained = drain_into::<_, ReportPlaces>(session, out, store, budget, &mut turns);
    Stepped {
        answer: Report {
            answer: drained.answer,
            turns,
        },
        session: drained.session,
    }
}
