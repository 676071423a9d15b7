// The packets of the rows. Their sums are worked out here, apart from the library.
use crate::registers::Registers;
use crate::{cases, registers, show};
use std::io::Stdout;

// The free bytes, by a number that goes with the packet.
fn filled(s: usize) -> [u8; 1081] {
    let mut bytes = [0; 1081];
    for (b, byte) in bytes.iter_mut().enumerate() {
        *byte = ((37 * b + 11 * (s % 251) + b / 100) % 251) as u8;
    }
    bytes
}

// Puts a 16-bit number at byte b.
fn put(number: u64, b: usize, bytes: &mut [u8; 1081]) {
    let both = ((number % 65536) as u16).to_be_bytes();
    octets::write_into(&both, b, bytes);
}

// Turns bits of byte b.
fn turn(b: usize, bits: u8, bytes: &mut [u8; 1081]) {
    if let Some(byte) = bytes.get_mut(b) {
        *byte ^= bits;
    }
}

fn spoil(row: u64, bytes: &mut [u8; 1081]) {
    match cases::digit(row, cases::WRONG) {
        1 => turn(0, 0x20, bytes),
        2 => turn(0, 0x10, bytes),
        3 => turn(0, 0x08, bytes),
        4 => turn(1, 1, bytes),
        5 => turn(2, 0x40, bytes),
        6 => turn(5, 1, bytes),
        7 => turn(11, 1, bytes),
        _ => {}
    }
}

// The 540 words added, but the one at sum_word, modulo 65,536.
fn sum(bytes: &[u8; 1081], sum_word: usize) -> u64 {
    let mut total = 0;
    for w in 0..540 {
        if w != sum_word {
            total = (total % 65536 + u64::from(octets::u16_at(bytes, 2 * w))) % 65536;
        }
    }
    total
}

fn spoil_after(row: u64, sum_word: usize, bytes: &mut [u8; 1081]) {
    match cases::digit(row, cases::AFTER) {
        1 => turn(sum_word % 540 * 2 + 1, 1, bytes),
        2 => turn(1079, 1, bytes),
        _ => {}
    }
}

// How many bytes of it the library is given.
pub(crate) fn length(row: u64) -> usize {
    match cases::digit(row, cases::AFTER) {
        3 => 1079,
        4 => 1081,
        5 => 0,
        6 => 1,
        _ => 1080,
    }
}

fn other(row: u64) -> u64 {
    if cases::digit(row, cases::WRONG) == 8 {
        101
    } else {
        0
    }
}

// A row's packet, and a byte more.
pub(crate) fn packet_of(row: u64, r: Registers) -> [u8; 1081] {
    let count = registers::count(row, r);
    let time = registers::time(row, r);
    let word = registers::stored(r);
    let s = (count % 16384 + time % 4294967296 * 3 + other(row) % 251) % 251;
    let mut bytes = filled(s as usize);
    put(s % 8 * 256 + 35, 0, &mut bytes);
    put(count % 16384 + 49152, 2, &mut bytes);
    put(1073, 4, &mut bytes);
    put(time / 65536, 6, &mut bytes);
    put(time, 8, &mut bytes);
    bytes[11] = 0;
    spoil(row, &mut bytes);
    let total = sum(&bytes, word);
    put(total, 2 * (word % 540), &mut bytes);
    spoil_after(row, word, &mut bytes);
    bytes
}

// What a line says of the packet; its damage is the digit at WRONG, and ten times the one at AFTER.
pub(crate) fn show(stdout: Stdout, row: u64, r: Registers) {
    show::named(stdout, " packet", registers::count(row, r));
    show::entry(stdout, registers::time(row, r));
    show::entry(stdout, length(row) as u64);
    show::entry(stdout, row / cases::WRONG % 100);
}
