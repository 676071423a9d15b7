// Numbers stored in lent bytes, the most significant byte first. Every function takes any slice and any index: a byte that would be stored past the
// end is left out.
#![tactic(auto)]

ghost use Rattle.std.specs.Prelude.{◌≡◌};
ghost use Rattle.octets.specs.Bytes.{octets_of, complemented, put};

use octets::Word;

// The bytes of a number of 16 bits.
pub fn u16_bytes(x: u16) -> [u8; 2]
    ensures { result ≡ octets_of 2 x }
{
    x.to_be_bytes()
}

// The bits of a signed number of 16 bits in two's complement.
pub fn i16_bits(word: i16) -> u16
    ensures { result ≡ complemented 16 word }
{
    word.cast_unsigned()
}

// The bits of a signed number of 32 bits in two's complement.
pub fn i32_bits(x: i32) -> u32
    ensures { result ≡ complemented 32 x }
{
    x.cast_unsigned()
}

// Stores a number of 64 bits from index i on.
pub fn write_u64(x: u64, i: usize, out: &mut [u8])
    ensures { out.new ≡ put out.old i (octets_of 8 x) }
{
    octets::write_into(&x.to_be_bytes(), i, out);
}

// The five below store a number of one type each: their names and promises may not change.

// Stores a number of 8 bits at index i.
pub fn write_u8(x: u8, i: usize, out: &mut [u8])
    ensures { out.new ≡ put out.old i (octets_of 1 x) }
{
    x.write_at(i, out);
}

// Stores a number of 16 bits from index i on.
pub fn write_u16(x: u16, i: usize, out: &mut [u8])
    ensures { out.new ≡ put out.old i (octets_of 2 x) }
{
    octets::write_into(&u16_bytes(x), i, out);
}

// Stores a number of 32 bits from index i on.
pub fn write_u32(x: u32, i: usize, out: &mut [u8])
    ensures { out.new ≡ put out.old i (octets_of 4 x) }
{
    x.write_at(i, out);
}

// Stores a signed number of 16 bits from index i on.
pub fn write_i16(x: i16, i: usize, out: &mut [u8])
    ensures { out.new ≡ put out.old i (octets_of 2 (complemented 16 x)) }
{
    i16_bits(x).write_at(i, out);
}

// Stores a signed number of 32 bits from index i on.
pub fn write_i32(x: i32, i: usize, out: &mut [u8])
    ensures { out.new ≡ put out.old i (octets_of 4 (complemented 32 x)) }
{
    i32_bits(x).write_at(i, out);
}
