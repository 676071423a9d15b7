// Document 01's rules of the reorder buffer ("The rack"), for any kind of session, and their laws. No code but numbers and the answers of serving: each
// kind of session has its calls in crates of its own.
#![tactic(auto)]

// What serving answers: the packet at a position; that a position is missing; or that nothing is to be served yet.
#[derive(Clone, Copy, Debug, PartialEq, Eq)]
pub enum Turn {
    Packet(u32),
    Missing(u32),
    Waiting,
}

// The greatest budget of a drain, and so the most answers that it gives.
pub const MOST_ANSWERS: usize = window::POSITIONS as usize;

// Held bytes live in a lent store of so many bytes: a packet's for each position.
pub const STORE_SIZE: usize = window::POSITIONS as usize * packet_layout::PACKET_SIZE;

// The least and the greatest threshold.
pub const LEAST_THRESHOLD: u32 = 1;

pub const MOST_THRESHOLD: u32 = 31;

// The last position that is served, signed as positions are worked out.
pub const LAST_POSITION: i64 = 999_999;

// Next once all positions are served: nothing can be held there.
pub const END_POSITION: u32 = 1_000_000;
