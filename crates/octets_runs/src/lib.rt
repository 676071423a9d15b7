// Runs of numbers in lent bytes, the most significant byte first. Every function takes any slice and any index: a byte past the end is read as 0.
#![tactic(auto)]

ghost use Rattle.std.specs.Prelude.{◌≡◌, ◌+◌, ◌*◌, ◌<◌, ◌≤◌, length};

use octets::{Word, bytes_from, has_run};

// Fills out with the numbers from index i on, all of which are there.
fn read_run_within<W: Word>(bytes: &[u8], i: usize, out: &mut [W])
    requires { i + W.WIDTH * length out.old ≤ length bytes.now }
    ensures { out.new ≡ W.run_at bytes.now i (length out.old) }
{
    for (k, number) in out.iter_mut().enumerate() {
        let at = i + W::WIDTH * k;
        *number = W::read_at(&bytes[at..at + W::WIDTH], 0);
    }
}

// The same where some may be past the end.
fn read_run_past<W: Word>(bytes: &[u8], i: usize, out: &mut [W])
    ensures { out.new ≡ W.run_at bytes.now i (length out.old) }
{
    let mut rest = bytes_from(bytes, i);
    for number in out.iter_mut() {
        *number = W::read_at(rest, 0);
        rest = bytes_from(rest, W::WIDTH);
    }
}

// Fills out with the numbers from index i on.
pub fn read_run<W: Word>(bytes: &[u8], i: usize, out: &mut [W])
    ensures { out.new ≡ W.run_at bytes.now i (length out.old) }
{
    if has_run::<W>(bytes.len(), i, out.len()) {
        read_run_within(bytes, i, out);
    } else {
        read_run_past(bytes, i, out);
    }
}

// The N numbers from index i on.
pub fn run<W: Word, const N: usize>(bytes: &[u8], i: usize) -> [W; N]
    ensures { result ≡ W.run_at bytes.now i N }
{
    // A number of no bytes is 0.
    let mut numbers = [W::read_at(&[], 0); N];
    read_run(bytes, i, &mut numbers);
    numbers
}
