// One shot of a PEDR record.
#![tactic(auto)]

ghost use Rattle.std.specs.Prelude.{◌≡◌, ◌≤◌};
ghost use Rattle.refusal.specs.Number.{said};
ghost use Rattle.pedr_layout.specs.Layout.{shot_count};
ghost use Rattle.pedr_flags.specs.Shot.{flags_of};
ghost use Rattle.pedr_shot.specs.Shot.{shot_of, shot_due};

use pedr_flags::{Class, Encoder, ShotFailures, ShotFlags};
use pedr_layout::{
    CLASS_AT, ENCODER_AT, ENERGY_AT, LASER_POWER_AT, OPTICAL_WIDTH_AT, PULSE_WIDTH_AT, RADIUS_AT,
    REFLECTIVITY_AT, TRIGGER_CHANNEL_AT,
};
use refusal::Refusal;

// A shot's value of each column of 20, whether it is good, and the tests that it failed.
#[derive(Clone, Copy)]
pub struct ShotFields {
    pub radius: u32,
    pub energy: u16,
    pub reflectivity: u16,
    pub trigger_channel: u8,
    pub pulse_width: u16,
    pub optical_width: u16,
    pub laser_power: u16,
    pub class: Class,
    pub encoder: Encoder,
    pub good: bool,
    pub failures: ShotFailures,
}

// The fields of a shot, with its flags as they were read.
#[tactic(auto, unfolding(crate::specs::Shot::shot_of, pedr_flags::specs::Shot::flags_of))]
fn read_fields(bytes: &[u8], shot: usize, flags: ShotFlags) -> ShotFields
    requires { (1 ≤ shot) × (shot ≤ shot_count) × (flags ≡ flags_of bytes.now shot) }
    ensures { result ≡ shot_of bytes.now shot }
{
    let k = shot - 1;
    ShotFields {
        radius: octets::u32_at(bytes, RADIUS_AT + 4 * k),
        energy: octets::u16_at(bytes, ENERGY_AT + 2 * k),
        reflectivity: octets::u16_at(bytes, REFLECTIVITY_AT + 2 * k),
        trigger_channel: octets::u8_at(bytes, TRIGGER_CHANNEL_AT + k),
        pulse_width: octets::u16_at(bytes, PULSE_WIDTH_AT + 2 * k),
        optical_width: octets::u16_at(bytes, OPTICAL_WIDTH_AT + 2 * k),
        laser_power: octets::u16_at(bytes, LASER_POWER_AT + 2 * k),
        class: Class::from(octets::u16_at(bytes, CLASS_AT + 2 * k)),
        encoder: Encoder::from(octets::u8_at(bytes, ENCODER_AT + k)),
        good: flags.good,
        failures: flags.failures,
    }
}

// Reads one shot of a record. Any bytes, any shot.
pub fn read_shot(bytes: &[u8], shot: usize) -> Result<ShotFields, Refusal>
    ensures { said result ≡ shot_due bytes.now shot }
{
    pedr_check::check_record(bytes)?;
    let flags = pedr_flags::read_shot_flags(bytes, shot)?;
    Ok(read_fields(bytes, shot, flags))
}
