// The calls over a lent session, for callers that keep the session in a local: each lends its own copy and returns it. Not by
// `lent_record::over_local`, which asks for an impl of a trait for each call: these are longer than the calls.
#![tactic(auto)]

ghost use Rattle.refusal.specs.Number.{said};
ghost use Rattle.reorder_session.specs.Calls.{Offers, Serves, Passes};
ghost use Rattle.reorder_offer.specs.Opening.{Opens};
ghost use Rattle.reorder_serve.specs.Report.{DrainsReport};

use lent_record::Stepped;
use refusal::Refusal;
use reorder_rules::Turn;
use reorder_serve::Report;
use reorder_session::Session;

// Opens the session with this packet at position 0. A refused opening returns the session given.
pub fn open(
    mut session: Session,
    store: &mut [u8],
    packet: &[u8],
    threshold: u32,
    sum_word: u32,
) -> Stepped<Result<u32, Refusal>, Session>
    ensures { Opens session store.old packet.now threshold sum_word (said result.answer) result.session store.new }
{
    let answer = reorder_lent::open(&mut session, store, packet, threshold, sum_word);
    Stepped { answer, session }
}

// Holds the packet at its position, in the position's 1,080 bytes of the store.
pub fn offer(
    mut session: Session,
    store: &mut [u8],
    packet: &[u8],
) -> Stepped<Result<u32, Refusal>, Session>
    ensures { Offers session store.old packet.now (said result.answer) result.session store.new }
{
    let answer = reorder_lent::offer(&mut session, store, packet);
    Stepped { answer, session }
}

// Serves the next position.
pub fn serve(
    mut session: Session,
    out: &mut [u8],
    store: &[u8],
) -> Stepped<Result<Turn, Refusal>, Session>
    ensures { Serves session out.old store.now (said result.answer) result.session out.new }
{
    let answer = reorder_lent::serve(&mut session, out, store);
    Stepped { answer, session }
}

// Serves until a serve waits or the budget is spent; the i-th answer is in place i, and where it is a packet its bytes stand at 1,080 i.
pub fn drain(
    mut session: Session,
    out: &mut [u8],
    store: &[u8],
    budget: u32,
) -> Stepped<Report, Session>
    ensures { DrainsReport session out.old store.now budget result.answer result.session out.new }
{
    let answer = reorder_lent::drain(&mut session, out, store, budget);
    Stepped { answer, session }
}

// Passes next over, by hand. It is lent no bytes.
pub fn pass(mut session: Session) -> Stepped<Result<u32, Refusal>, Session>
    ensures { Passes session (said result.answer) result.session }
{
    let answer = reorder_lent::pass(&mut session);
    Stepped { answer, session }
}
