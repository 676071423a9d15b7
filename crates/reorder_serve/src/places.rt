// Where a drain stores its answers, each in its place as it comes.
#![tactic(auto)]

ghost use Rattle.std.specs.Prelude.{◌≡◌, ℕ, set};
ghost use Rattle.reorder_rules.specs.declared.Turn as declared;

use reorder_rules::{MOST_ANSWERS, Turn};

pub trait Places<P> {
    // The places after the i-th answer.
    ghost stored: { P → ℕ → declared.Turn → P };

    fn store(places: &mut P, i: u32, turn: Turn)
        ensures { places.new ≡ stored places.old i turn };
}

// The places of a report.
pub struct ReportPlaces;

impl Places<[Turn; MOST_ANSWERS]> for ReportPlaces {
    ghost stored = { λ turns i turn. set turns i turn };

    fn store(turns: &mut [Turn; MOST_ANSWERS], i: u32, turn: Turn) {
        let i = i as usize;
        if i < turns.len() {
            turns[i] = turn;
        }
    }
}
