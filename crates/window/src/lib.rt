// The window of 32 positions from its start on, with a mark for each position held (document 01, "The rack"). With one consumer it starts at
// the consumer's next.
#![tactic(auto)]

ghost use Rattle.std.specs.Prelude.{◌≡◌, ◌+◌, ◌%◌, ◌^◌};
ghost use Rattle.window.specs.Window.{held_at, some_held, holding, freed, skipped, first_window, in32_bits, Rotated};

// How many positions a window has, and how far from its start the last one is.
pub const POSITIONS: u32 = 32;

pub const MOST_AHEAD: u32 = POSITIONS - 1;

// The first position of the window, and the marks: bit p mod 32 for position p. The default is all zeros.
#[repr(C)]
#[derive(Clone, Copy, Default)]
pub struct Window {
    pub start: u32,
    pub marks: u32,
}

// The bit of a position.
fn bit_of(p: u32) -> u32
    ensures { result ≡ 2 ^ (p % 32) }
{
    1u32 << (p % POSITIONS)
}

impl Window {
    // The window of an opening: it starts at position 0, which is held.
    pub fn first() -> Window
        ensures { result ≡ first_window }
    {
        Window { start: 0, marks: 1 }
    }

    // Whether position p is held.
    pub fn is_held(self, p: u32) -> bool
        ensures { result ≡ held_at self p }
    {
        self.start <= p && p - self.start <= MOST_AHEAD && (self.marks >> (p % POSITIONS)) & 1 == 1
    }

    // The marks rotated, so that bit j is that of position start + j.
    fn rotated(self) -> u32
        ensures { Rotated self result }
    {
        self.marks.rotate_right(self.start)
    }

    // Whether the first position of the window is held.
    pub fn is_start_held(self) -> bool
        ensures { result ≡ held_at self self.start }
    {
        self.rotated() & 1 == 1
    }

    // Whether a position at least so far ahead of the start is held: the furthest held has the fewest zeros before it.
    pub fn is_held_ahead(self, least: u32) -> bool
        ensures { result ≡ some_held self (self.start + least) }
    {
        least <= MOST_AHEAD && self.rotated().leading_zeros() + least <= MOST_AHEAD
    }

    // The window with position p held too.
    pub fn hold(self, p: u32) -> Window
        ensures { result ≡ holding self p }
    {
        Window {
            start: self.start,
            marks: self.marks | bit_of(p),
        }
    }

    // The window once its first position, which may be held, is freed.
    pub fn free(self) -> Window
        ensures { result ≡ in32_bits (freed self) }
    {
        Window {
            start: self.start.wrapping_add(1),
            marks: self.marks & !bit_of(self.start),
        }
    }

    // The window once its first position, which isn't held, is passed over.
    pub fn skip(self) -> Window
        ensures { result ≡ in32_bits (skipped self) }
    {
        Window {
            start: self.start.wrapping_add(1),
            marks: self.marks,
        }
    }
}
