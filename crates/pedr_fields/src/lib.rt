// The columns of a PEDR record that are single numbers, group by group.
#![tactic(auto)]

ghost use Rattle.std.specs.Prelude.{◌≡◌};
ghost use Rattle.pedr_fields.specs.Fields.{time_of, position_of, pointing_of, ranges_of, receiver_of, link_of, fields_of};
ghost use Rattle.pedr_fields.specs.Time.{time_in_micros};

use pedr_flags::{Descriptor, Quality};
use pedr_layout::{FRAME_INDEX_AT, LATITUDE_AT, TIME_MICROS_AT};

// The frame's mid-point, in seconds and microseconds since J2000; either may be negative.
#[repr(C)]
#[derive(Clone, Copy, Default)]
pub struct FrameTime {
    pub whole: i32,
    pub micros: i32,
}

// The orbit, where the spacecraft is, and where the frame's mid-point meets the ground.
#[repr(C)]
#[derive(Clone, Copy, Default)]
pub struct OrbitPosition {
    pub orbit: u32,
    pub latitude: i32,
    pub longitude: i32,
    pub radial_distance: u32,
    pub ground_latitude: i32,
    pub ground_longitude: i32,
}

// Where the instrument points.
#[repr(C)]
#[derive(Clone, Copy, Default)]
pub struct Pointing {
    pub right_ascension: i32,
    pub declination: i32,
    pub twist: i32,
}

// The frame's range and radius, and the range gate.
#[repr(C)]
#[derive(Clone, Copy, Default)]
pub struct Ranges {
    pub mid_point_range: u32,
    pub frame_radius: u32,
    pub delay: u32,
    pub width: u32,
}

// The receiver and its tracking algorithm.
#[repr(C)]
#[derive(Clone, Copy, Default)]
pub struct Receiver {
    pub channel_mask: u16,
    pub minimum_hits: u16,
    pub hit_count: u16,
    pub frame_counter: u16,
    pub trigger: u16,
    pub frame_index: u16,
}

// The time of the packet that the frame came in.
#[repr(C)]
#[derive(Clone, Copy, Default)]
pub struct PacketLink {
    pub seconds: i32,
    pub millis: i16,
    pub fine_time: u16,
}

// The columns that are single numbers.
#[repr(C)]
#[derive(Clone, Copy, Default)]
pub struct RecordFields {
    pub time: FrameTime,
    pub position: OrbitPosition,
    pub quality: Quality,
    pub descriptor: Descriptor,
    pub pointing: Pointing,
    pub ranges: Ranges,
    pub receiver: Receiver,
    pub link: PacketLink,
}

#[tactic(auto, unfolding(crate::specs::Fields::time_of))]
fn read_time(bytes: &[u8]) -> FrameTime
    ensures { result ≡ time_of bytes.now }
{
    FrameTime {
        whole: octets::i32_at(bytes, 0),
        micros: octets::i32_at(bytes, TIME_MICROS_AT),
    }
}

#[tactic(auto, unfolding(crate::specs::Fields::position_of))]
fn read_position(bytes: &[u8]) -> OrbitPosition
    ensures { result ≡ position_of bytes.now }
{
    OrbitPosition {
        orbit: octets::u32_at(bytes, 8),
        latitude: octets::i32_at(bytes, LATITUDE_AT),
        longitude: octets::i32_at(bytes, 16),
        radial_distance: octets::u32_at(bytes, 20),
        ground_latitude: octets::i32_at(bytes, 336),
        ground_longitude: octets::i32_at(bytes, 340),
    }
}

#[tactic(auto, unfolding(crate::specs::Fields::pointing_of))]
fn read_pointing(bytes: &[u8]) -> Pointing
    ensures { result ≡ pointing_of bytes.now }
{
    Pointing {
        right_ascension: octets::i32_at(bytes, 132),
        declination: octets::i32_at(bytes, 136),
        twist: octets::i32_at(bytes, 140),
    }
}

#[tactic(auto, unfolding(crate::specs::Fields::ranges_of))]
fn read_ranges(bytes: &[u8]) -> Ranges
    ensures { result ≡ ranges_of bytes.now }
{
    Ranges {
        mid_point_range: octets::u32_at(bytes, 24),
        frame_radius: octets::u32_at(bytes, 128),
        delay: octets::u32_at(bytes, 456),
        width: octets::u32_at(bytes, 460),
    }
}

#[tactic(auto, unfolding(crate::specs::Fields::receiver_of))]
fn read_receiver(bytes: &[u8]) -> Receiver
    ensures { result ≡ receiver_of bytes.now }
{
    Receiver {
        channel_mask: octets::u16_at(bytes, 480),
        minimum_hits: octets::u16_at(bytes, 482),
        hit_count: octets::u16_at(bytes, 484),
        frame_counter: octets::u16_at(bytes, 486),
        trigger: octets::u16_at(bytes, 488),
        frame_index: octets::u16_at(bytes, FRAME_INDEX_AT),
    }
}

#[tactic(auto, unfolding(crate::specs::Fields::link_of))]
fn read_link(bytes: &[u8]) -> PacketLink
    ensures { result ≡ link_of bytes.now }
{
    PacketLink {
        seconds: octets::i32_at(bytes, 500),
        millis: octets::i16_at(bytes, 504),
        fine_time: octets::u16_at(bytes, 506),
    }
}

// Reads the fields of any bytes, also of those that are refused as a record; a byte past the end reads as 0.
#[tactic(auto, unfolding(crate::specs::Fields::fields_of))]
pub fn read_fields(bytes: &[u8]) -> RecordFields
    ensures { result ≡ fields_of bytes.now }
{
    RecordFields {
        time: read_time(bytes),
        position: read_position(bytes),
        quality: pedr_flags::read_quality(bytes),
        descriptor: pedr_flags::read_descriptor(bytes),
        pointing: read_pointing(bytes),
        ranges: read_ranges(bytes),
        receiver: read_receiver(bytes),
        link: read_link(bytes),
    }
}

// The frame time in microseconds since J2000, exact.
pub fn time_in_micros(time: FrameTime) -> i64
    ensures { result ≡ time_in_micros time }
{
    i64::from(time.whole) * 1_000_000 + i64::from(time.micros)
}
