// The record that a row makes or changes.
use crate::{cases, rows};

// Byte b by a fill's rule alone.
fn plain_byte(fill: u64, b: usize) -> u8 {
    let k = b % 1000;
    match fill {
        cases::ONES => 255,
        cases::COUNTING => ((37 * k + 11) % 256) as u8,
        cases::STRIDING => (100 * k % 251) as u8,
        _ => 0,
    }
}

// How many shots are good in a fill.
fn counter(fill: u64) -> u8 {
    match fill {
        cases::ONES => 20,
        cases::COUNTING => 8,
        cases::STRIDING => 13,
        _ => 0,
    }
}

fn fill_byte(fill: u64, b: usize) -> u8 {
    match b {
        5 | 6 | 13 | 491 => 0,
        32 => counter(fill),
        492 => 1,
        _ => plain_byte(fill, b),
    }
}

// A new record.
pub(crate) fn filled(fill: u64) -> [u8; 800] {
    let mut room = [0; 800];
    if fill == cases::ZEROS {
        room[491] = 1;
        return room;
    }
    for (k, byte) in room.iter_mut().enumerate() {
        *byte = fill_byte(fill, k + 1);
    }
    room
}

// Puts the lowest 8 bits of a number at record byte b.
fn put_byte(b: usize, number: u64, room: &mut [u8; 800]) {
    if (1..=800).contains(&b) {
        room[b - 1] = (number % 256) as u8;
    }
}

// Puts a number in two bytes from record byte b on.
fn put_two(b: usize, number: u64, room: &mut [u8; 800]) {
    put_byte(b % 1000, number / 256, room);
    put_byte(b % 1000 + 1, number, room);
}

fn flip(b: usize, bit: u64, room: &mut [u8; 800]) {
    if (1..=800).contains(&b) {
        room[b - 1] ^= 1 << (bit % 8);
    }
}

// Carries a row's step out on the record.
pub(crate) fn change(row: u64, room: &mut [u8; 800]) {
    let number = row % cases::BYTE;
    let b = (row % cases::STEP / cases::BYTE) as usize;
    match rows::step(row) {
        cases::PUT1 => put_byte(b, number, room),
        cases::PUT2 => put_two(b, number, room),
        cases::PUT4 => {
            put_two(b, number / 65536, room);
            put_two(b + 2, number, room);
        }
        cases::FLIP => flip(b, number, room),
        _ => {}
    }
}

// The length that the library is given after a row.
pub(crate) fn length_after(row: u64, length: usize) -> usize {
    if rows::step(row) == cases::LENGTH {
        return (row % cases::BYTE) as usize;
    }
    if rows::fill(row) == 0 {
        return length;
    }
    pedr_layout::RECORD_SIZE
}
