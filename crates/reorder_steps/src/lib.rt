// The calls of the reorder buffer by value as steps of a history: so demand 3 holds of what they answer and leave.
#![tactic(auto)]

ghost use Rattle.refusal.specs.Number.{said};
ghost use Rattle.reorder_session.specs.Session.{single};
ghost use Rattle.reorder_session.specs.Calls.{Offers, Serves, Passes};
ghost use Rattle.reorder_offer.specs.Opening.{open_of, Opens, no_session};
ghost use Rattle.reorder_serve.specs.Report.{report_said, Reports, DrainsReport};
ghost use Rattle.reorder_histories.specs.History.{offer, serve, drain, offer_tells, serve_tells, drain_tells, pass_tells, IsStart, IsStep, IsPassStep};
ghost use Rattle.reorder_steps.specs.Short.{Short};

use lent_record::Stepped;
use refusal::Refusal;
use reorder_rules::Turn;
use reorder_serve::Report;
use reorder_session::Session;

// Each of these makes one call. It promises what the call does, and that the call is the start, or a step, of a history.
pub fn open_start(
    store: &mut [u8],
    packet: &[u8],
    threshold: u32,
    sum_word: u32,
) -> Stepped<Result<u32, Refusal>, Session>
    ensures { Opens no_session store.old packet.now threshold sum_word (said result.answer) result.session store.new
        × IsStart (open_of no_session store.old packet.now threshold sum_word) packet.now
        result.session store.new (offer_tells (said result.answer) packet.now) }
{
    reorder_offer::open(store, packet, threshold, sum_word)
}

pub fn open_or_start(
    session: Session,
    store: &mut [u8],
    packet: &[u8],
    threshold: u32,
    sum_word: u32,
) -> Stepped<Result<u32, Refusal>, Session>
    ensures { Opens session store.old packet.now threshold sum_word (said result.answer) result.session store.new
        × IsStart (open_of session store.old packet.now threshold sum_word) packet.now
        result.session store.new (offer_tells (said result.answer) packet.now) }
{
    reorder_offer::open_or(session, store, packet, threshold, sum_word)
}

pub fn offer_step(
    session: Session,
    store: &mut [u8],
    packet: &[u8],
) -> Stepped<Result<u32, Refusal>, Session>
    ensures { Offers session store.old packet.now (said result.answer) result.session store.new
        × IsStep single session store.old (offer packet.now)
        result.session store.new (offer_tells (said result.answer) packet.now) }
{
    reorder_offer::offer(session, store, packet)
}

pub fn serve_step(
    session: Session,
    out: &mut [u8],
    store: &[u8],
) -> Stepped<Result<Turn, Refusal>, Session>
    ensures { Serves session out.old store.now (said result.answer) result.session out.new
        × IsStep single session store.now (serve out.old)
        result.session store.now (serve_tells (said result.answer) out.new) }
{
    reorder_serve::serve(session, out, store)
}

pub fn drain_step(
    session: Session,
    out: &mut [u8],
    store: &[u8],
    budget: u32,
) -> Stepped<Report, Session>
    ensures { DrainsReport session out.old store.now budget result.answer result.session out.new
        × IsStep single session store.now (drain out.old budget)
        result.session store.now (drain_tells (report_said result.answer) out.new) }
{
    reorder_serve::drain(session, out, store, budget)
}

pub fn pass_step(session: Session) -> Stepped<Result<u32, Refusal>, Session>
    ensures { Passes session (said result.answer) result.session × IsPassStep single session result.session (pass_tells (said result.answer)) }
{
    reorder_pass::pass(session)
}

// A short history: an opening, an offer and a drain, each handed the session and the store that the last one left.
pub fn open_offer_drain(
    store: &mut [u8],
    out: &mut [u8],
    first: &[u8],
    packet: &[u8],
    threshold: u32,
    sum_word: u32,
) -> Stepped<Report, Session>
    ensures { Short store.old out.old first.now packet.now threshold sum_word
        (report_said result.answer) result.session store.new out.new
        × Reports result.answer (report_said result.answer) }
{
    let opened = reorder_offer::open(store, first, threshold, sum_word);
    let offered = reorder_offer::offer(opened.session, store, packet);
    reorder_serve::drain(offered.session, out, store, window::POSITIONS)
}
