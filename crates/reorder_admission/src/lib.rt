// What an offer of a packet answers: where the packet is held, or why it is refused (document 01, "The rack").
#![tactic(auto)]

ghost use Rattle.std.specs.Prelude.{◌≡◌};
ghost use Rattle.refusal.specs.Number.{said};
ghost use Rattle.position.specs.Position.{position_said};
ghost use Rattle.window.specs.Window.{held_at};
ghost use Rattle.reorder_rules.specs.Offer.{admitted};
ghost use Rattle.reorder_session.specs.Calls.{offer_due};

use refusal::Refusal;
use reorder_session::Session;
use window::Window;

// Where a packet is held, by its position: refusals 21 to 25, or the position.
fn position_answer(window: Window, located: Option<i64>) -> Result<u32, Refusal>
    ensures { said result ≡ admitted window.start (held_at window) (position_said located) }
{
    let Some(p) = located else {
        return Err(Refusal::NoPosition);
    };
    if reorder_rules::LAST_POSITION < p {
        return Err(Refusal::PositionPastEnd);
    }
    if p < i64::from(window.start) {
        return Err(Refusal::PositionBelowNext);
    }
    let n = p as u32;
    if window.is_held(n) {
        return Err(Refusal::PositionHeld);
    }
    if window::MOST_AHEAD < n - window.start {
        return Err(Refusal::PositionTooFar);
    }
    Ok(n)
}

// What an offer answers: the position that the packet is held at. An opening holds its packet at position 0.
#[tactic(auto, using(crate::proofs::Ladders::ladders))]
pub fn offer_answer(session: Session, store_size: usize, packet: &[u8]) -> Result<u32, Refusal>
    ensures { said result ≡ offer_due session store_size packet.now }
{
    session.check_store(store_size)?;
    let read = packet::read_answer(packet, session.sum_word as usize);
    let Ok(fields) = read else {
        return Err(read.unwrap_err());
    };
    let located = position::locate(
        session.anchor,
        fields.count,
        fields.coarse_time,
        position::TOLERANCE,
    );
    position_answer(session.window, located)
}
