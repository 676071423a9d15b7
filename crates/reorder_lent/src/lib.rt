// The reorder buffer's calls over one session record, lent to each call and updated there (document 01, "The rack"). Not by
// `lent_record::over_lent`, which asks for an impl of a trait for each call: these are longer than the calls.
#![tactic(auto)]

ghost use Rattle.refusal.specs.Number.{said};
ghost use Rattle.reorder_session.specs.Calls.{Offers, Serves, Passes};
ghost use Rattle.reorder_offer.specs.Opening.{Opens};
ghost use Rattle.reorder_serve.specs.Report.{DrainsReport};
ghost use Rattle.reorder_lent.specs.Layout.{SessionLayout};

use refusal::Refusal;
use reorder_rules::Turn;
use reorder_serve::Report;
use reorder_session::Session;

// Opens the session with this packet at position 0. A refused opening leaves the session as it came.
pub fn open(
    session: &mut Session,
    store: &mut [u8],
    packet: &[u8],
    threshold: u32,
    sum_word: u32,
) -> Result<u32, Refusal>
    ensures { Opens session.old store.old packet.now threshold sum_word
        (said result) session.new store.new }
{
    let opened = reorder_offer::open_or(*session, store, packet, threshold, sum_word);
    *session = opened.session;
    opened.answer
}

// Holds the packet at its position, in the position's 1,080 bytes of the store.
pub fn offer(session: &mut Session, store: &mut [u8], packet: &[u8]) -> Result<u32, Refusal>
    ensures { Offers session.old store.old packet.now (said result) session.new store.new }
{
    let offered = reorder_offer::offer(*session, store, packet);
    *session = offered.session;
    offered.answer
}

// Serves the next position.
pub fn serve(session: &mut Session, out: &mut [u8], store: &[u8]) -> Result<Turn, Refusal>
    ensures { Serves session.old out.old store.now (said result) session.new out.new }
{
    let served = reorder_serve::serve(*session, out, store);
    *session = served.session;
    served.answer
}

// Serves until a serve waits or the budget is spent; the i-th answer is in place i, and where it is a packet its bytes stand at 1,080 i.
pub fn drain(session: &mut Session, out: &mut [u8], store: &[u8], budget: u32) -> Report
    ensures { DrainsReport session.old out.old store.now budget
        result session.new out.new }
{
    let drained = reorder_serve::drain(*session, out, store, budget);
    *session = drained.session;
    drained.answer
}

// Passes next over, by hand. It is lent no bytes.
pub fn pass(session: &mut Session) -> Result<u32, Refusal>
    ensures { Passes session.old (said result) session.new }
{
    let passed = reorder_pass::pass(*session);
    *session = passed.session;
    passed.answer
}

// Where the fields of the session record lie.
pub fn session_layout()
    ensures { SessionLayout }
{}
