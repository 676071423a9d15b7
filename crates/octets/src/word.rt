// Numbers of a fixed width in bytes, for code over the width and the sign.

ghost use Rattle.std.specs.Prelude.{◌≡◌, ℕ, ◌+◌, ◌*◌, leb, List, map};
ghost use Rattle.octets.specs.Bytes.{nat_at, int_at, octets_of, complemented, put};
ghost use Rattle.octets.specs.Table.{nats_at, ints_at, octets_of_all};
ghost use Rattle.octets.specs.Word.{WordLaws, nat_laws, int_laws};
ghost use Rattle.std.proofs.Common.{rules};

use crate::{i16_at, i32_at, u8_at, u16_at, u32_at, write_into};

pub trait Word: Copy {
    // How many bytes it has.
    ghost WIDTH: { ℕ };

    // The number in the bytes from an index on, and as many numbers from there on as are asked for, one after the other.
    ghost at: { List ℕ → ℕ → Self };

    ghost run_at: { List ℕ → ℕ → ℕ → List Self };

    // A number's bytes, and those of numbers, one after the other.
    ghost octets: { Self → List ℕ };

    ghost run_octets: { List Self → List ℕ };

    const WIDTH: usize;

    // The number from index i on; a byte past the end is read as 0.
    fn read_at(bytes: &[u8], i: usize) -> Self
        ensures { result ≡ at bytes.now i };

    // Stores the number from index i on; a byte past the end is left out.
    fn write_at(self, i: usize, out: &mut [u8])
        ensures { out.new ≡ put out.old i (octets self) };

    ghost laws: { WordLaws WIDTH at run_at octets run_octets };
}

// Whether n numbers from index i on lie within so many bytes.
pub fn has_run<W: Word>(size: usize, i: usize, n: usize) -> bool
    ensures { result ≡ leb (i + W.WIDTH * n) size }
{
    i <= size && n <= (size - i) / W::WIDTH
}

// One impl for each type, written out: no macro of this repository may write an impl.
impl Word for u8 {
    ghost WIDTH = { 1 };

    ghost at = { λ s i. nat_at s i 1 };

    ghost run_at = { λ s i n. nats_at s i 1 n };

    ghost octets = { octets_of 1 };

    ghost run_octets = { octets_of_all 1 };

    ghost laws = { nat_laws 1 (Prim.search rules) };

    const WIDTH: usize = 1;

    fn read_at(bytes: &[u8], i: usize) -> u8 {
        u8_at(bytes, i)
    }

    fn write_at(self, i: usize, out: &mut [u8]) {
        write_into(&[self], i, out);
    }
}

impl Word for u16 {
    ghost WIDTH = { 2 };

    ghost at = { λ s i. nat_at s i 2 };

    ghost run_at = { λ s i n. nats_at s i 2 n };

    ghost octets = { octets_of 2 };

    ghost run_octets = { octets_of_all 2 };

    ghost laws = { nat_laws 2 (Prim.search rules) };

    const WIDTH: usize = 2;

    fn read_at(bytes: &[u8], i: usize) -> u16 {
        u16_at(bytes, i)
    }

    fn write_at(self, i: usize, out: &mut [u8]) {
        write_into(&u16::to_be_bytes(self), i, out);
    }
}

impl Word for u32 {
    ghost WIDTH = { 4 };

    ghost at = { λ s i. nat_at s i 4 };

    ghost run_at = { λ s i n. nats_at s i 4 n };

    ghost octets = { octets_of 4 };

    ghost run_octets = { octets_of_all 4 };

    ghost laws = { nat_laws 4 (Prim.search rules) };

    const WIDTH: usize = 4;

    fn read_at(bytes: &[u8], i: usize) -> u32 {
        u32_at(bytes, i)
    }

    fn write_at(self, i: usize, out: &mut [u8]) {
        write_into(&u32::to_be_bytes(self), i, out);
    }
}

impl Word for i16 {
    ghost WIDTH = { 2 };

    ghost at = { λ s i. int_at s i 2 };

    ghost run_at = { λ s i n. ints_at s i 2 n };

    ghost octets = { λ z. octets_of 2 (complemented 16 z) };

    ghost run_octets = { λ zs. octets_of_all 2 (map (complemented 16) zs) };

    ghost laws = { int_laws 2 (Prim.search rules) };

    const WIDTH: usize = 2;

    fn read_at(bytes: &[u8], i: usize) -> i16 {
        i16_at(bytes, i)
    }

    fn write_at(self, i: usize, out: &mut [u8]) {
        u16::write_at(self.cast_unsigned(), i, out);
    }
}

impl Word for i32 {
    ghost WIDTH = { 4 };

    ghost at = { λ s i. int_at s i 4 };

    ghost run_at = { λ s i n. ints_at s i 4 n };

    ghost octets = { λ z. octets_of 4 (complemented 32 z) };

    ghost run_octets = { λ zs. octets_of_all 4 (map (complemented 32) zs) };

    ghost laws = { int_laws 4 (Prim.search rules) };

    const WIDTH: usize = 4;

    fn read_at(bytes: &[u8], i: usize) -> i32 {
        i32_at(bytes, i)
    }

    fn write_at(self, i: usize, out: &mut [u8]) {
        u32::write_at(self.cast_unsigned(), i, out);
    }
}
