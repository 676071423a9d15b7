// The position of a packet, from its count and its clock together (document 01, "The rack").
#![tactic(auto)]

ghost use Rattle.std.specs.Prelude.{◌≡◌};
ghost use Rattle.std.specs.Int.Signed.{shr_z};
ghost use Rattle.position.specs.Position.{position_said, position};
ghost use Rattle.position.specs.Rule.{Rule};

// How far, in seconds either way, a packet's clock may be from 14 seconds for each position.
pub const TOLERANCE: u32 = 3600;

// The seconds from a position to the next, the counts before one comes again, and the seconds that these take.
const SECONDS: i64 = 14;

const COUNTS: i64 = packet_layout::COUNTS as i64;

const ROUND: i64 = SECONDS * COUNTS;

// Count and coarse time of the packet that has position 0.
#[repr(C)]
#[derive(Clone, Copy, Default)]
pub struct Anchor {
    pub count: u32,
    pub time: u32,
}

// x / 229,376 rounded down.
fn rounds(x: i64) -> i64
    ensures { result ≡ shr_z x 229376 }
{
    x.div_euclid(ROUND)
}

// The position of the packet with this count and coarse time, negative before the anchor; none where no position fits.
pub fn locate(anchor: Anchor, count: u16, time: u32, tolerance: u32) -> Option<i64>
    ensures { position_said result ≡ position anchor count time tolerance }
{
    let counted = i64::from(count) - i64::from(anchor.count);
    let elapsed = i64::from(time) - i64::from(anchor.time);
    let p = counted + COUNTS * rounds(elapsed + i64::from(tolerance) - SECONDS * counted);
    if (SECONDS * p - elapsed).unsigned_abs() <= u64::from(tolerance) {
        Some(p)
    } else {
        None
    }
}

// Document 01's rule: what `locate` answers is the one integer that fits, or that none does.
pub fn position_rule()
    ensures { Rule }
{}
