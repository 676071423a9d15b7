// The session of a reorder buffer (document 01, "The rack").
#![tactic(auto)]

ghost use Rattle.std.specs.Prelude.{◌≡◌};
ghost use Rattle.octets.specs.Refusal.{refusal_in};
ghost use Rattle.refusal.specs.Number.{said};
ghost use Rattle.reorder_session.specs.Session.{past_end, broken, store_refusal, with_window};

use position::Anchor;
use refusal::Refusal;
use window::Window;

// The packet's numbers, in the width of the session's.
const MOST_COUNT: u32 = packet_layout::MOST_COUNT as u32;

const FIRST_SUM_WORD: u32 = packet_layout::FIRST_SUM_WORD as u32;

const LAST_SUM_WORD: u32 = packet_layout::LAST_SUM_WORD as u32;

// What a reorder buffer of one consumer keeps between calls; the held bytes live in a store that the caller lends. All its numbers have 32 bits, so
// that no byte of it is padding. The window starts at next.
#[repr(C)]
#[derive(Clone, Copy, Default)]
pub struct Session {
    pub anchor: Anchor,
    pub sum_word: u32,
    pub threshold: u32,
    pub window: Window,
}

// Whether next is over 1,000,000, or a held position over 999,999.
fn is_past_end(window: Window) -> bool
    ensures { result ≡ past_end window }
{
    reorder_rules::END_POSITION < window.start
        || window.is_held_ahead(reorder_rules::END_POSITION - window.start)
}

impl Session {
    // Whether the session is broken: refusal 30.
    pub fn is_broken(self) -> bool
        ensures { result ≡ broken self }
    {
        // Joined by `&`, so that the five tests take one branch together.
        let in_range = (self.anchor.count <= MOST_COUNT)
            & (reorder_rules::LEAST_THRESHOLD <= self.threshold)
            & (self.threshold <= reorder_rules::MOST_THRESHOLD)
            & (FIRST_SUM_WORD <= self.sum_word)
            & (self.sum_word <= LAST_SUM_WORD);
        !in_range || is_past_end(self.window)
    }

    // Refusals 30 and 27, which come first of an offer, a serve and a drain: the session is broken, and the store, of this size, not 34,560 bytes.
    pub fn check_store(self, store_size: usize) -> Result<(), Refusal>
        ensures { refusal_in (said result) ≡ store_refusal self store_size }
    {
        if self.is_broken() {
            return Err(Refusal::SessionBroken);
        }
        if store_size != reorder_rules::STORE_SIZE {
            return Err(Refusal::StoreSize);
        }
        Ok(())
    }

    // The session with another window.
    pub fn with_window(self, window: Window) -> Session
        ensures { result ≡ with_window self window }
    {
        Session { window, ..self }
    }
}
