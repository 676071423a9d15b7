// The calls of the reorder buffer with answers in numbers as steps of a history: so demand 3 holds of what they answer and leave.
#![tactic(auto)]

ghost use Rattle.reorder_session.specs.Session.{single};
ghost use Rattle.reorder_offer.specs.Opening.{open_of};
ghost use Rattle.reorder_histories.specs.History.{offer, serve, drain, offer_tells, serve_tells, drain_tells, pass_tells, IsStart, IsStep, IsPassStep};
ghost use Rattle.reorder_c_answers.specs.Answers.{position_said, turn_said, turns_said};
ghost use Rattle.reorder_c.specs.Calls.{OpensAs, OffersAs, ServesAs, DrainsAs, PassesAs};

use lent_record::Stepped;
use reorder_c_answers::{Answer, Count, DESCRIPTION_NUMBERS};
use reorder_session::Session;

// Each of these makes one call. It promises what the call does, and that the call is the start, or a step, of a history.
pub fn open_start(
    session: Session,
    store: &mut [u8],
    packet: &[u8],
    threshold: u32,
    sum_word: u32,
) -> Stepped<Answer, Session>
    ensures { OpensAs session store.old packet.now threshold sum_word result.answer result.session store.new
        × IsStart (open_of session store.old packet.now threshold sum_word) packet.now
        result.session store.new (offer_tells (position_said result.answer) packet.now) }
{
    reorder_c::open(session, store, packet, threshold, sum_word)
}

pub fn offer_step(session: Session, store: &mut [u8], packet: &[u8]) -> Stepped<Answer, Session>
    ensures { OffersAs session store.old packet.now result.answer result.session store.new
        × IsStep single session store.old (offer packet.now)
        result.session store.new (offer_tells (position_said result.answer) packet.now) }
{
    reorder_c::offer(session, store, packet)
}

pub fn serve_step(session: Session, out: &mut [u8], store: &[u8]) -> Stepped<Answer, Session>
    ensures { ServesAs session out.old store.now result.answer result.session out.new
        × IsStep single session store.now (serve out.old)
        result.session store.now (serve_tells (turn_said result.answer) out.new) }
{
    reorder_c::serve(session, out, store)
}

pub fn drain_step(
    session: Session,
    out: &mut [u8],
    store: &[u8],
    budget: u32,
    descriptions: &mut [u32; DESCRIPTION_NUMBERS],
) -> Stepped<Count, Session>
    ensures { DrainsAs session out.old store.now budget descriptions.old
        result.answer result.session out.new descriptions.new
        × IsStep single session store.now (drain out.old budget)
        result.session store.now (drain_tells (turns_said result.answer descriptions.new) out.new) }
{
    reorder_c::drain(session, out, store, budget, descriptions)
}

pub fn pass_step(session: Session) -> Stepped<Answer, Session>
    ensures { PassesAs session result.answer result.session
        × IsPassStep single session result.session (pass_tells (position_said result.answer)) }
{
    reorder_c::pass(session)
}
