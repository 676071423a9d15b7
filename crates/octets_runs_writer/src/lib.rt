// Runs of numbers and bytes stored in lent bytes, the most significant byte first. Every function takes any slices and any index: a byte that would be stored
// past the end is left out.
#![tactic(auto)]

ghost use Rattle.std.specs.Prelude.{◌≡◌, ◌+◌, ◌*◌, ◌≤◌, length};
ghost use Rattle.octets.specs.Bytes.{put};
ghost use Rattle.octets.specs.Table.{octets_at, octets_of_all};

use octets::{Word, has_run};

// Stores n bytes, from index i on, in out from index at on; a byte past the end is read as 0.
pub fn copy_part(bytes: &[u8], i: usize, n: usize, at: usize, out: &mut [u8])
    ensures { out.new ≡ put out.old at (octets_at bytes.now i n) }
{
    let to = at.min(out.len());
    let count = n.min(out.len() - to);
    octets::read_into(bytes, i, &mut out[to..to + count]);
}

// Stores numbers, one after the other, from index i on, where there is room for all of them.
fn write_run_within<W: Word>(numbers: &[W], i: usize, out: &mut [u8])
    requires { i + W.WIDTH * length numbers.now ≤ length out.old }
    ensures { out.new ≡ put out.old i (W.run_octets numbers.now) }
{
    for (k, number) in numbers.iter().enumerate() {
        let at = i + W::WIDTH * k;
        number.write_at(0, &mut out[at..at + W::WIDTH]);
    }
}

// The same where some may be past the end.
fn write_run_past<W: Word>(numbers: &[W], i: usize, out: &mut [u8])
    ensures { out.new ≡ put out.old i (W.run_octets numbers.now) }
{
    let mut at = i;
    for number in numbers {
        number.write_at(at, out);
        at = at.saturating_add(W::WIDTH);
    }
}

// Stores numbers, one after the other, from index i on.
pub fn write_run<W: Word>(numbers: &[W], i: usize, out: &mut [u8])
    ensures { out.new ≡ put out.old i (W.run_octets numbers.now) }
{
    if has_run::<W>(out.len(), i, numbers.len()) {
        write_run_within(numbers, i, out);
    } else {
        write_run_past(numbers, i, out);
    }
}

// Stores numbers of 8 bits, one after the other, from index i on. They are copied, since `write_run` would store them one by one.
pub fn write_u8s(numbers: &[u8], i: usize, out: &mut [u8])
    ensures { out.new ≡ put out.old i (octets_of_all 1 numbers.now) }
{
    octets::write_into(numbers, i, out);
}
