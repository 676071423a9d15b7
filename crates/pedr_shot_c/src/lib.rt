// One shot of the PEDR record in a struct of numbers, for callers in languages that have no such enums: its class is its number.
#![tactic(auto)]

ghost use Rattle.std.specs.Prelude.{◌≡◌};
ghost use Rattle.pedr_shot.specs.Shot.{shot_due};
ghost use Rattle.pedr_shot_c.specs.Shot.{one_shot, shot_read};

use pedr_flags::{Encoder, ShotFailures};
use pedr_shot::ShotFields;

// A shot's value of each column of 20, its class by its number, whether it is good, and the tests that it failed.
#[repr(C)]
#[derive(Clone, Copy, Default)]
pub struct OneShot {
    pub radius: u32,
    pub energy: u16,
    pub reflectivity: u16,
    pub trigger_channel: u8,
    pub pulse_width: u16,
    pub optical_width: u16,
    pub laser_power: u16,
    pub class_number: u16,
    pub encoder: Encoder,
    pub good: bool,
    pub failures: ShotFailures,
}

// A refusal number and zeros; or 0 and the shot.
#[repr(C)]
#[derive(Clone, Copy, Default)]
pub struct ShotRead {
    pub refusal: u32,
    pub shot: OneShot,
}

impl From<ShotFields> for OneShot {
    ghost from_gives = { λ fields shot. shot ≡ one_shot fields };

    fn from(fields: ShotFields) -> OneShot {
        OneShot {
            radius: fields.radius,
            energy: fields.energy,
            reflectivity: fields.reflectivity,
            trigger_channel: fields.trigger_channel,
            pulse_width: fields.pulse_width,
            optical_width: fields.optical_width,
            laser_power: fields.laser_power,
            class_number: u16::from(fields.class),
            encoder: fields.encoder,
            good: fields.good,
            failures: fields.failures,
        }
    }
}

// Reads one shot of a record. Any bytes, any shot.
pub fn read_shot(bytes: &[u8], shot: usize) -> ShotRead
    ensures { result ≡ shot_read (shot_due bytes.now shot) }
{
    match pedr_shot::read_shot(bytes, shot) {
        Ok(fields) => ShotRead {
            refusal: 0,
            shot: OneShot::from(fields),
        },
        Err(refusal) => ShotRead {
            refusal: u8::from(refusal) as u32,
            ..ShotRead::default()
        },
    }
}
