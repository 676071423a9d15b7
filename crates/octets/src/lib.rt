// Numbers in lent bytes, the most significant byte first, and bytes copied from one slice to another. Every function takes any slice and
// any index: a byte past the end is read as 0, and one that would be stored past the end is left out.
#![tactic(auto)]

ghost use Rattle.std.specs.Prelude.{◌≡◌, length, get_or, drop};
ghost use Rattle.octets.specs.Bytes.{nat_at, int_at, signed, put};
ghost use Rattle.octets.specs.Table.{octets_at};

mod word;

pub use word::{Word, has_run};

// The byte at index i.
pub fn u8_at(bytes: &[u8], i: usize) -> u8
    ensures { result ≡ get_or bytes.now i 0 }
{
    bytes.get(i).copied().unwrap_or(0)
}

// The functions for 16, 24 and 32 bits, signed and not, keep their names and promises, which may not change; `Word` reads over the type.

// The number in two bytes from index i on.
pub fn u16_at(bytes: &[u8], i: usize) -> u16
    ensures { result ≡ nat_at bytes.now i 2 }
{
    let rest = bytes_from(bytes, i);
    u16::from_be_bytes([u8_at(rest, 0), u8_at(rest, 1)])
}

// The number in three bytes from index i on.
pub fn u24_at(bytes: &[u8], i: usize) -> u32
    ensures { result ≡ nat_at bytes.now i 3 }
{
    let rest = bytes_from(bytes, i);
    u32::from_be_bytes([0, u8_at(rest, 0), u8_at(rest, 1), u8_at(rest, 2)])
}

// The number in four bytes from index i on.
pub fn u32_at(bytes: &[u8], i: usize) -> u32
    ensures { result ≡ nat_at bytes.now i 4 }
{
    let rest = bytes_from(bytes, i);
    u32::from_be_bytes([
        u8_at(rest, 0),
        u8_at(rest, 1),
        u8_at(rest, 2),
        u8_at(rest, 3),
    ])
}

// The two's complement reading of 16 bits.
pub fn to_i16(word: u16) -> i16
    ensures { result ≡ signed 16 word }
{
    word.cast_signed()
}

// The two's complement reading of 32 bits.
pub fn to_i32(x: u32) -> i32
    ensures { result ≡ signed 32 x }
{
    x.cast_signed()
}

// The signed number in two bytes from index i on.
pub fn i16_at(bytes: &[u8], i: usize) -> i16
    ensures { result ≡ int_at bytes.now i 2 }
{
    to_i16(u16_at(bytes, i))
}

// The signed number in four bytes from index i on.
pub fn i32_at(bytes: &[u8], i: usize) -> i32
    ensures { result ≡ int_at bytes.now i 4 }
{
    to_i32(u32_at(bytes, i))
}

// The bytes from index i on.
pub fn bytes_from(bytes: &[u8], i: usize) -> &[u8]
    ensures { result.now ≡ drop i bytes.now }
{
    bytes.get(i..).unwrap_or(&[])
}

// Fills out with as many bytes. No `copy_from_slice`: it calls the C library's `memmove`, and an archive for C is to need no name but `memcpy`.
fn copy(bytes: &[u8], out: &mut [u8])
    requires { length bytes.now ≡ length out.old }
    ensures { out.new ≡ bytes.now }
{
    for (k, byte) in out.iter_mut().enumerate() {
        *byte = bytes[k];
    }
}

// Fills out with the bytes of source, and zeros behind them. No `fill`: it calls the C library's `memset`.
fn copy_padded(source: &[u8], out: &mut [u8])
    ensures { out.new ≡ octets_at source.now 0 (length out.old) }
{
    for (k, byte) in out.iter_mut().enumerate() {
        *byte = u8_at(source, k);
    }
}

// Fills out with the bytes from index i on.
pub fn read_into(bytes: &[u8], i: usize, out: &mut [u8])
    ensures { out.new ≡ octets_at bytes.now i (length out.old) }
{
    let source = bytes_from(bytes, i);
    if out.len() <= source.len() {
        copy(&source[..out.len()], out);
    } else {
        copy_padded(source, out);
    }
}

// Stores the bytes in out from index i on; the rest of out stays.
pub fn write_into(bytes: &[u8], i: usize, out: &mut [u8])
    ensures { out.new ≡ put out.old i bytes.now }
{
    let from = i.min(out.len());
    let room = out.len() - from;
    if bytes.len() <= room {
        copy(bytes, &mut out[from..from + bytes.len()]);
    } else {
        copy(&bytes[..room], &mut out[from..]);
    }
}
