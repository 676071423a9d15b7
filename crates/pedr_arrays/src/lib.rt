// The columns of a PEDR record that are several numbers, and its uninterpreted bytes.
#![tactic(auto)]

ghost use Rattle.std.specs.Prelude.{◌≡◌};
ghost use Rattle.pedr_arrays.specs.Arrays.{classes_of, encoders_of, shot_arrays_of, channel_arrays_of, arrays_of, no_arrays};
ghost use Rattle.pedr_arrays.specs.Uninterpreted.{uninterpreted_of};

use pedr_flags::{Class, Encoder, ShotFailures};
use pedr_layout::{
    CLASS_AT, ENCODER_AT, ENERGY_AT, LASER_POWER_AT, OPTICAL_WIDTH_AT, PULSE_WIDTH_AT, RADIUS_AT,
    REFLECTIVITY_AT, SHOTS, TRIGGER_CHANNEL_AT, UNINTERPRETED, UNINTERPRETED_537_AT,
    UNINTERPRETED_641_AT, UNINTERPRETED_BEFORE,
};

// The columns of 20 shots; shot s stands at index s - 1.
#[derive(Clone, Copy, Default)]
pub struct ShotArrays {
    pub radius: [u32; SHOTS],
    pub energy: [u16; SHOTS],
    pub reflectivity: [u16; SHOTS],
    pub trigger_channel: [u8; SHOTS],
    pub pulse_width: [u16; SHOTS],
    pub optical_width: [u16; SHOTS],
    pub laser_power: [u16; SHOTS],
    pub class: [Class; SHOTS],
    pub encoder: [Encoder; SHOTS],
    pub failures: [ShotFailures; SHOTS],
}

// The columns of the 4 channels, in the first half of the frame and then in the second.
#[repr(C)]
#[derive(Clone, Copy, Default)]
pub struct ChannelArrays {
    pub noise: [u32; 8],
    pub thresholds: [u16; 8],
}

// The columns of several numbers.
#[derive(Clone, Copy, Default)]
pub struct RecordArrays {
    pub shots: ShotArrays,
    pub channels: ChannelArrays,
    pub xyz: [i32; 3],
    pub source_header: [u32; 2],
}

fn read_classes(bytes: &[u8]) -> [Class; SHOTS]
    ensures { result ≡ classes_of bytes.now }
{
    let mut classes = [Class::default(); SHOTS];
    for (k, class) in classes.iter_mut().enumerate() {
        *class = Class::from(octets::u16_at(bytes, CLASS_AT + 2 * k));
    }
    classes
}

fn read_encoders(bytes: &[u8]) -> [Encoder; SHOTS]
    ensures { result ≡ encoders_of bytes.now }
{
    let mut encoders = [Encoder::default(); SHOTS];
    for (k, encoder) in encoders.iter_mut().enumerate() {
        *encoder = Encoder::from(octets::u8_at(bytes, ENCODER_AT + k));
    }
    encoders
}

// The radii last, behind the loops, so that the compiler reads each number by one load.
#[tactic(auto, unfolding(crate::specs::Arrays::shot_arrays_of))]
fn read_shot_arrays(bytes: &[u8]) -> ShotArrays
    ensures { result ≡ shot_arrays_of bytes.now }
{
    ShotArrays {
        energy: octets_runs::run(bytes, ENERGY_AT),
        reflectivity: octets_runs::run(bytes, REFLECTIVITY_AT),
        trigger_channel: octets_runs::run(bytes, TRIGGER_CHANNEL_AT),
        pulse_width: octets_runs::run(bytes, PULSE_WIDTH_AT),
        optical_width: octets_runs::run(bytes, OPTICAL_WIDTH_AT),
        laser_power: octets_runs::run(bytes, LASER_POWER_AT),
        class: read_classes(bytes),
        encoder: read_encoders(bytes),
        failures: pedr_flags::read_all_failures(bytes),
        radius: octets_runs::run(bytes, RADIUS_AT),
    }
}

#[tactic(auto, unfolding(crate::specs::Arrays::channel_arrays_of))]
fn read_channel_arrays(bytes: &[u8]) -> ChannelArrays
    ensures { result ≡ channel_arrays_of bytes.now }
{
    ChannelArrays {
        noise: octets_runs::run(bytes, 424),
        thresholds: octets_runs::run(bytes, 464),
    }
}

// Reads the arrays of any bytes, also of those that are refused as a record; a byte past the end reads as 0.
#[tactic(auto, unfolding(crate::specs::Arrays::arrays_of))]
pub fn read_arrays(bytes: &[u8]) -> RecordArrays
    ensures { result ≡ arrays_of bytes.now }
{
    RecordArrays {
        shots: read_shot_arrays(bytes),
        channels: read_channel_arrays(bytes),
        xyz: octets_runs::run(bytes, 324),
        source_header: octets_runs::run(bytes, 492),
    }
}

// Reads the bytes that are not interpreted: record bytes 537 to 620, and then 641 to 776. Any bytes; a byte past the end reads as 0.
#[tactic(auto, unfolding(crate::specs::Uninterpreted::uninterpreted_of))]
pub fn read_uninterpreted(bytes: &[u8]) -> [u8; UNINTERPRETED]
    ensures { result ≡ uninterpreted_of bytes.now }
{
    let mut uninterpreted = [0; UNINTERPRETED];
    let (before, after) = uninterpreted.split_at_mut(UNINTERPRETED_BEFORE);
    octets::read_into(bytes, UNINTERPRETED_537_AT, before);
    octets::read_into(bytes, UNINTERPRETED_641_AT, after);
    uninterpreted
}

// The arrays of a refusal: all zeros.
pub fn no_arrays() -> RecordArrays
    ensures { result ≡ no_arrays }
{
    RecordArrays::default()
}
