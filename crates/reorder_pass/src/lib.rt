// Passing a position of the reorder buffer over, by hand (document 01, "The rack").
#![tactic(auto)]

ghost use Rattle.std.specs.Prelude.{◌≡◌};
ghost use Rattle.octets.specs.Refusal.{say};
ghost use Rattle.refusal.specs.Number.{said};
ghost use Rattle.reorder_session.specs.Calls.{pass_refusal, Passes};

use lent_record::Stepped;
use refusal::Refusal;
use reorder_session::Session;

// The position to be called missing, which is next; or refusals 30, 28 and 26.
fn passed_position(session: Session) -> Result<u32, Refusal>
    ensures { said result ≡ say (pass_refusal session) session.window.start }
{
    if session.is_broken() {
        return Err(Refusal::SessionBroken);
    }
    if session.window.start == reorder_rules::END_POSITION {
        return Err(Refusal::NextAtEnd);
    }
    if session.window.is_start_held() {
        return Err(Refusal::NextHeld);
    }
    Ok(session.window.start)
}

// Passes next over, by hand.
pub fn pass(session: Session) -> Stepped<Result<u32, Refusal>, Session>
    ensures { Passes session (said result.answer) result.session }
{
    let answer = passed_position(session);
    let session = match answer {
        Ok(_) => session.with_window(session.window.skip()),
        Err(_) => session,
    };
    Stepped { answer, session }
}
