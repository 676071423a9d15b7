// The reorder buffer's calls by value, with their answers in structs of numbers: what the functions for C and Rust stand on. Each call promises what
// the call by value does, of what its numbers stand for, and that its numbers are no others.
#![tactic(auto)]

ghost use Rattle.reorder_c.specs.Calls.{OpensAs, OffersAs, ServesAs, DrainsAs, PassesAs};

use lent_record::Stepped;
use reorder_c_answers::{Answer, Count, DESCRIPTION_NUMBERS, DescriptionPlaces};
use reorder_session::Session;

// Opens a session with this packet at position 0. A refused opening returns the session given.
pub fn open(
    session: Session,
    store: &mut [u8],
    packet: &[u8],
    threshold: u32,
    sum_word: u32,
) -> Stepped<Answer, Session>
    ensures { OpensAs session store.old packet.now threshold sum_word result.answer result.session store.new }
{
    let opened = reorder_offer::open_or(session, store, packet, threshold, sum_word);
    Stepped {
        answer: reorder_c_answers::held_answer(opened.answer),
        session: opened.session,
    }
}

// Holds the packet at its position, in the position's 1,080 bytes of the store.
pub fn offer(session: Session, store: &mut [u8], packet: &[u8]) -> Stepped<Answer, Session>
    ensures { OffersAs session store.old packet.now result.answer result.session store.new }
{
    let offered = reorder_offer::offer(session, store, packet);
    Stepped {
        answer: reorder_c_answers::held_answer(offered.answer),
        session: offered.session,
    }
}

// Serves the next position. A serve, a drain and a pass change the window alone, so that only the window is taken from the session returned.
pub fn serve(session: Session, out: &mut [u8], store: &[u8]) -> Stepped<Answer, Session>
    ensures { ServesAs session out.old store.now result.answer result.session out.new }
{
    let served = reorder_serve::serve(session, out, store);
    Stepped {
        answer: reorder_c_answers::served_answer(served.answer),
        session: session.with_window(served.session.window),
    }
}

// Serves until a serve waits or the budget is spent; the answers are described in the lent numbers as they come, over zeros, unless it is refused. One
// that has nothing to serve ends before the run.
pub fn drain(
    session: Session,
    out: &mut [u8],
    store: &[u8],
    budget: u32,
    descriptions: &mut [u32; DESCRIPTION_NUMBERS],
) -> Stepped<Count, Session>
    ensures { DrainsAs session out.old store.now budget descriptions.old
        result.answer result.session out.new descriptions.new }
{
    if let Err(refusal) = reorder_turn::check_drain(session, store.len(), out.len(), budget) {
        return Stepped {
            answer: reorder_c_answers::refused_count(u8::from(refusal)),
            session,
        };
    }
    *descriptions = [0; DESCRIPTION_NUMBERS];
    if reorder_turn::waits(session) {
        return Stepped {
            answer: Count::default(),
            session,
        };
    }
    let drained = reorder_serve::drain_into::<_, DescriptionPlaces>(
        session,
        out,
        store,
        budget,
        descriptions,
    );
    Stepped {
        answer: reorder_c_answers::drained_count(drained.answer),
        session: session.with_window(drained.session.window),
    }
}

// Passes next over, by hand.
pub fn pass(session: Session) -> Stepped<Answer, Session>
    ensures { PassesAs session result.answer result.session }
{
    let passed = reorder_pass::pass(session);
    Stepped {
        answer: reorder_c_answers::passed_answer(passed.answer),
        session: session.with_window(passed.session.window),
    }
}
