// The packets of the rows. Their words and sums are worked out here, apart from the library.
ghost use Rattle.std.specs.Prelude.{◌≤◌, ◌<◌};

use crate::tables;

// The number that a row gives to a field, or another where the row does not name it.
pub(crate) fn given(row: u64, field: u64, other: u64) -> u64
    requires { other < 100000 }
    ensures { result < 100000 }
{
    let first = row % tables::AND;
    let second = row / tables::AND % tables::AND;
    if first / tables::FIELD == field / tables::FIELD {
        return first % tables::FIELD;
    }
    if second / tables::FIELD == field / tables::FIELD {
        return second % tables::FIELD;
    }
    other
}

// Byte b of a fill.
fn fill_byte(fill: u64, b: usize) -> u32
    ensures { result < 256 }
{
    let k = (b % 256) as u32;
    match fill {
        tables::BASE => (37 * k + 11) % 256,
        tables::COUNTING => k,
        tables::ONES => 255,
        tables::RAW_ONES => 255,
        _ => 0,
    }
}

// Word w with its fixed fields set.
fn with_fixed(word: u32, w: usize) -> u32 {
    match w {
        0 => (word & 0x0700) ^ 35,
        1 => word | 0xC000,
        2 => 1073,
        5 => word & 0xFF00,
        _ => word,
    }
}

// Word w of a packet before any change.
fn base_word(fill: u64, w: usize) -> u32
    requires { w < 40000 }
{
    let word = fill_byte(fill, 2 * w) * 256 + fill_byte(fill, 2 * w + 1);
    if tables::RAW_ZEROS <= fill {
        return word;
    }
    with_fixed(word, w)
}

// Where a field stands: its word, its lowest bit there, and its highest number.
fn spot_of(field: u64, value: u64) -> Option<(usize, u32, u32)> {
    match field {
        tables::VERSION => Some((0, 13, 7)),
        tables::SPARE => Some((0, 12, 1)),
        tables::FLAG => Some((0, 11, 1)),
        tables::STATUS => Some((0, 8, 7)),
        tables::INSTRUMENT => Some((0, 0, 255)),
        tables::SEGMENTATION => Some((1, 14, 3)),
        tables::COUNT => Some((1, 0, 16383)),
        tables::LENGTH => Some((2, 0, 65535)),
        tables::TYPE => Some((5, 0, 255)),
        tables::BIT => Some((
            (value / 2) as usize,
            (value % 8 + 8 - value % 2 * 8) as u32,
            1,
        )),
        _ => None,
    }
}

// Word w with a change: a field that stands in it is set, or a bit turned.
fn changed(word: u32, w: usize, change: u64) -> u32 {
    let value = change % tables::FIELD;
    let field = change - value;
    match spot_of(field, value) {
        Some((at, low, _)) if at == w && field == tables::BIT => word ^ (1 << (low % 16)),
        Some((at, low, most)) if at == w => {
            word ^ ((((word >> (low % 16)) ^ value as u32) & most) << (low % 16))
        }
        _ => word,
    }
}

// Word w with the changes of a row.
fn with_changes(word: u32, w: usize, row: u64) -> u32
    ensures { result < 65536 }
{
    let once = changed(word, w, row % tables::AND);
    changed(once, w, row / tables::AND % tables::AND) % 65536
}

// Word w of a row's packet with this sum at sum_word.
fn word_of(row: u64, sum_word: usize, sum: u32, w: usize) -> u32
    requires { w < 40000 }
    ensures { result < 65536 }
{
    if w != sum_word {
        let fill = (row - row % tables::FILL) % tables::DUE;
        return with_changes(base_word(fill, w), w, row);
    }
    if (row - row % tables::SUM) % tables::FILL == tables::STALE {
        return with_changes(sum, w, row);
    }
    sum % 65536
}

// The 540 words added, with zero at sum_word and every carry kept.
fn total(row: u64, sum_word: usize) -> u32
    ensures { result ≤ 35388900 }
{
    let mut sum = 0;
    // A `for`: the proof of `(0..540).map(..).sum()` did not close, at the bound of what the closure gives.
    for w in 0..540 {
        sum += word_of(row, sum_word, 0, w);
    }
    sum
}

// The sum that is stored: the total modulo 65,536, or what the row asks for.
fn sum_of(row: u64, sum_word: usize) -> u32 {
    let unchanged = row - row % tables::SUM;
    let whole = total(row, sum_word);
    match unchanged % tables::FILL {
        tables::STALE => total(unchanged, sum_word) % 65536,
        tables::UP => (whole + 1) % 65536,
        tables::DOWN => (whole + 65535) % 65536,
        tables::FOLDED => (whole % 65536 + whole / 65536) % 65536,
        _ => whole % 65536,
    }
}

fn byte_of(row: u64, sum_word: usize, sum: u32, b: usize) -> u8 {
    if 80000 <= b {
        return 0;
    }
    let word = word_of(row, sum_word, sum, b / 2);
    if b % 2 == 0 {
        return (word / 256) as u8;
    }
    (word % 256) as u8
}

// Fills out with a row's packet, its sum at sum_word; past the packet the fill goes on.
pub(crate) fn packet_of(row: u64, sum_word: usize, out: &mut [u8]) {
    let sum = sum_of(row, sum_word);
    for (b, byte) in out.iter_mut().enumerate() {
        *byte = byte_of(row, sum_word, sum, b);
    }
}
