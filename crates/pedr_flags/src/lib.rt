// The flags and codes of the PEDR record: quality, descriptor, class and encoder bits.
#![tactic(auto)]

ghost use Rattle.std.specs.Prelude.{◌≡◌, ◌<◌, ◌≤◌, eqb};
ghost use Rattle.numbers.specs.Bit.{bit};
ghost use Rattle.octets.specs.Bytes.{nat_at};
ghost use Rattle.refusal.specs.Number.{said};
ghost use Rattle.pedr_layout.specs.Layout.{shot_count};
ghost use Rattle.pedr_flags.specs.Quality.{good_shot, good_count, quality_of};
ghost use Rattle.pedr_flags.specs.Descriptor.{failed, descriptor_of, failures_of, all_failures_of};
ghost use Rattle.pedr_flags.specs.Shot.{flags_due};
ghost use Rattle.pedr_flags.specs.Class.{class_of, class_number};
ghost use Rattle.pedr_flags.specs.Encoder.{encoder_of};

use pedr_layout::{QUALITY_COUNTER_AT, QUALITY_NUMBER_AT, SHOTS};
use refusal::Refusal;

// Bits 0 to 19 of the quality number, of which bit 20 - s is set for a good shot s; its bits 20 to 23, carried; the counter.
#[repr(C)]
#[derive(Clone, Copy, Default)]
pub struct Quality {
    pub good: u32,
    pub carried: u8,
    pub counter: u8,
}

// The tests of the packet and frame, each true where it failed; bits 104 to 127 of the descriptor, carried.
#[repr(C)]
#[derive(Clone, Copy, Default)]
pub struct Descriptor {
    pub packet_sum: bool,
    pub software_sum: bool,
    pub mode: bool,
    pub ots: bool,
    pub carried: u32,
}

// The tests of one shot, each true where it failed.
#[repr(C)]
#[derive(Clone, Copy, Default)]
pub struct ShotFailures {
    pub power: bool,
    pub energy: bool,
    pub range: bool,
    pub window: bool,
    pub comparison: bool,
}

// Whether a shot is good, and the tests that it failed.
#[derive(Clone, Copy)]
pub struct ShotFlags {
    pub good: bool,
    pub failures: ShotFailures,
}

// What a shot met: false or no trigger (0), probable ground (1), or a number that is not assigned.
#[derive(Clone, Copy, Default)]
pub enum Class {
    #[default]
    NoTrigger,
    ProbableGround,
    Unassigned(u16),
}

// The two encoders' bits, with bits 2-3 and 6-7 of the byte, carried.
#[repr(C)]
#[derive(Clone, Copy, Default)]
pub struct Encoder {
    pub start: u8,
    pub carried_low: u8,
    pub stop: u8,
    pub carried_high: u8,
}

// How many shots are good by a quality number; its carried bits don't count.
pub fn good_count(number: u32) -> u32
    ensures { result ≡ good_count number }
{
    (number & 0xFFFFF).count_ones()
}

// Whether bit k of a word is one.
fn is_set(word: u64, k: usize) -> bool
    requires { k < 64 }
    ensures { result ≡ eqb (bit word k) 1 }
{
    (word >> k) & 1 == 1
}

// Whether a shot is good by a quality number.
fn is_good(number: u32, shot: usize) -> bool
    requires { (1 ≤ shot) × (shot ≤ shot_count) }
    ensures { result ≡ good_shot number shot }
{
    is_set(u64::from(number), 20 - shot)
}

// The quality of a record's bytes.
#[tactic(auto, unfolding(crate::specs::Quality::quality_of))]
pub fn read_quality(bytes: &[u8]) -> Quality
    ensures { result ≡ quality_of bytes.now }
{
    let number = octets::u24_at(bytes, QUALITY_NUMBER_AT);
    Quality {
        good: number & 0xFFFFF,
        carried: ((number >> 20) & 15) as u8,
        counter: octets::u8_at(bytes, QUALITY_COUNTER_AT),
    }
}

// Whether bit k of the descriptor is one.
fn has_failed(bytes: &[u8], k: usize) -> bool
    requires { k < 128 }
    ensures { result ≡ failed bytes.now k }
{
    let byte = octets::u8_at(bytes, 48 - k / 8 - 1);
    is_set(u64::from(byte), k % 8)
}

// The descriptor of a record's bytes, but for the tests of its shots.
#[tactic(auto, unfolding(crate::specs::Descriptor::descriptor_of))]
pub fn read_descriptor(bytes: &[u8]) -> Descriptor
    ensures { result ≡ descriptor_of bytes.now }
{
    Descriptor {
        packet_sum: has_failed(bytes, 0),
        software_sum: has_failed(bytes, 1),
        mode: has_failed(bytes, 2),
        ots: has_failed(bytes, 3),
        carried: octets::u24_at(bytes, 32),
    }
}

// The tests of a shot by a record's bytes.
#[tactic(auto, unfolding(crate::specs::Descriptor::failures_of))]
fn read_failures(bytes: &[u8], shot: usize) -> ShotFailures
    requires { (1 ≤ shot) × (shot ≤ shot_count) }
    ensures { result ≡ failures_of bytes.now shot }
{
    ShotFailures {
        power: has_failed(bytes, 3 + shot),
        energy: has_failed(bytes, 23 + shot),
        range: has_failed(bytes, 43 + shot),
        window: has_failed(bytes, 63 + shot),
        comparison: has_failed(bytes, 83 + shot),
    }
}

// The number in the eight bytes of the descriptor from index i on.
fn descriptor_word(bytes: &[u8], i: usize) -> u64
    requires { i ≤ 40 }
    ensures { result ≡ nat_at bytes.now i 8 }
{
    (u64::from(octets::u32_at(bytes, i)) << 32) + u64::from(octets::u32_at(bytes, i + 4))
}

// The tests of the 20 shots by a record's bytes; shot s stands at index s - 1. Bits 0 to 63 of the descriptor are one word, and bits 64 to 127 another.
pub fn read_all_failures(bytes: &[u8]) -> [ShotFailures; SHOTS]
    ensures { result ≡ all_failures_of bytes.now }
{
    let low = descriptor_word(bytes, 40);
    let high = descriptor_word(bytes, 32);
    let mut failures = [ShotFailures::default(); SHOTS];
    for (k, shot) in failures.iter_mut().enumerate() {
        *shot = ShotFailures {
            power: is_set(low, 4 + k),
            energy: is_set(low, 24 + k),
            range: is_set(low, 44 + k),
            window: is_set(high, k),
            comparison: is_set(high, 20 + k),
        };
    }
    failures
}

// Reads the flags of one shot. Any bytes, any shot; 16 is the only refusal.
pub fn read_shot_flags(bytes: &[u8], shot: usize) -> Result<ShotFlags, Refusal>
    ensures { said result ≡ flags_due bytes.now shot }
{
    if !(1..=SHOTS).contains(&shot) {
        return Err(Refusal::Shot);
    }
    Ok(ShotFlags {
        good: is_good(octets::u24_at(bytes, QUALITY_NUMBER_AT), shot),
        failures: read_failures(bytes, shot),
    })
}

impl From<u16> for Class {
    ghost from_gives = { λ number class. class ≡ class_of number };

    fn from(number: u16) -> Class {
        match number {
            0 => Class::NoTrigger,
            1 => Class::ProbableGround,
            _ => Class::Unassigned(number),
        }
    }
}

impl From<Class> for u16 {
    ghost from_gives = { λ class number. number ≡ class_number class };

    fn from(class: Class) -> u16 {
        match class {
            Class::NoTrigger => 0,
            Class::ProbableGround => 1,
            Class::Unassigned(number) => number,
        }
    }
}

impl From<u8> for Encoder {
    ghost from_gives = { λ byte encoder. encoder ≡ encoder_of byte };

    fn from(byte: u8) -> Encoder {
        Encoder {
            start: byte & 3,
            carried_low: (byte >> 2) & 3,
            stop: (byte >> 4) & 3,
            carried_high: (byte >> 6) & 3,
        }
    }
}
