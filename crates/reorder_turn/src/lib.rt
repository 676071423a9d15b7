// What serving the reorder buffer answers: the descriptions of its answers, and the refusals of serve and drain (document 01, "The rack").
#![tactic(auto)]

ghost use Rattle.std.specs.Prelude.{◌≡◌};
ghost use Rattle.octets.specs.Refusal.{refusal_in};
ghost use Rattle.refusal.specs.Number.{said};
ghost use Rattle.reorder_rules.specs.Turn.{is_waiting};
ghost use Rattle.reorder_session.specs.Calls.{turn, serve_refusal, drain_refusal};
ghost use Rattle.reorder_turn.specs.Described.{described, description_of};

use refusal::Refusal;
use reorder_rules::Turn;
use reorder_session::Session;

// An answer of a drain in numbers: kind 0 none, 1 a packet, 2 a missing position.
#[derive(Clone, Copy, Default)]
pub struct Description {
    pub kind: u32,
    pub position: u32,
}

// The description of an answer; of Waiting, all zeros.
impl From<Turn> for Description {
    ghost from_gives = { λ turn description. description ≡ described turn };

    fn from(turn: Turn) -> Description {
        match turn {
            Turn::Packet(position) => Description { kind: 1, position },
            Turn::Missing(position) => Description { kind: 2, position },
            Turn::Waiting => Description::default(),
        }
    }
}

// The same of what a serve answers; of a refusal, all zeros.
pub fn describe(answer: Result<Turn, Refusal>) -> Description
    ensures { result ≡ description_of (said answer) }
{
    match answer {
        Ok(turn) => Description::from(turn),
        Err(_) => Description::default(),
    }
}

// Whether a serve that isn't refused would answer Waiting.
pub fn waits(session: Session) -> bool
    ensures { result ≡ is_waiting (turn session) }
{
    !session.window.is_start_held() && !session.window.is_held_ahead(session.threshold)
}

// Refusals 30, 27 and 29 of a serve.
#[tactic(auto, using(crate::proofs::Ladders::ladders))]
pub fn check_serve(session: Session, store_size: usize, out_size: usize) -> Result<(), Refusal>
    ensures { refusal_in (said result) ≡ serve_refusal session store_size out_size }
{
    session.check_store(store_size)?;
    if out_size < packet_layout::PACKET_SIZE {
        return Err(Refusal::OutputSize);
    }
    Ok(())
}

// Refusals 30, 27, 29 and 31 of a drain.
pub fn check_drain(
    session: Session,
    store_size: usize,
    out_size: usize,
    budget: u32,
) -> Result<(), Refusal>
    ensures { refusal_in (said result) ≡ drain_refusal session store_size out_size budget }
{
    session.check_store(store_size)?;
    if out_size != reorder_rules::STORE_SIZE {
        return Err(Refusal::OutputSize);
    }
    if window::POSITIONS < budget {
        return Err(Refusal::Budget);
    }
    Ok(())
}
