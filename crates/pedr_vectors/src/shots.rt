// The columns of shots and channels.
ghost use Rattle.std.specs.Prelude.{◌<◌};

use crate::show;
use pedr_arrays::{ChannelArrays, ShotArrays};
use pedr_flags::Class;
use pedr_layout::SHOTS;
use pedr_shot::ShotFields;
use std::io;

fn class_case(class: Class) -> u64 {
    match class {
        Class::NoTrigger => 0,
        Class::ProbableGround => 1,
        Class::Unassigned(_) => 2,
    }
}

// The numbers of a shot in the legend's order, but for whether it is good.
pub(crate) fn numbers(f: &ShotFields) -> [u64; 18] {
    [
        u64::from(f.radius),
        u64::from(f.energy),
        u64::from(f.reflectivity),
        u64::from(f.trigger_channel),
        u64::from(f.pulse_width),
        u64::from(f.optical_width),
        u64::from(f.laser_power),
        class_case(f.class),
        u64::from(u16::from(f.class)),
        u64::from(f.encoder.start),
        u64::from(f.encoder.carried_low),
        u64::from(f.encoder.stop),
        u64::from(f.encoder.carried_high),
        u64::from(f.failures.power),
        u64::from(f.failures.energy),
        u64::from(f.failures.range),
        u64::from(f.failures.window),
        u64::from(f.failures.comparison),
    ]
}

// The shot at index k of the arrays; they don't tell whether it is good.
fn shot_of(shots: &ShotArrays, k: usize) -> ShotFields
    requires { k < 20 }
{
    ShotFields {
        radius: shots.radius[k],
        energy: shots.energy[k],
        reflectivity: shots.reflectivity[k],
        trigger_channel: shots.trigger_channel[k],
        pulse_width: shots.pulse_width[k],
        optical_width: shots.optical_width[k],
        laser_power: shots.laser_power[k],
        class: shots.class[k],
        encoder: shots.encoder[k],
        good: false,
        failures: shots.failures[k],
    }
}

// The line of a shot or channel, where these are shown.
fn show_line(rt: &impl Print, name: &str, k: usize, numbers: &[u64]) -> io::Result<()> {
    print!(rt; "\n  {name} {k}:")?;
    show::entries(rt, numbers)
}

// The digest of the shots, which are shown too in full.
pub(crate) fn show_shots(rt: &impl Print, shots: &ShotArrays, full: bool) -> io::Result<u64> {
    let mut digest = 1;
    for k in 0..SHOTS {
        let all = numbers(&shot_of(shots, k));
        if full {
            show_line(rt, "shot", k + 1, &all)?;
        }
        digest = show::digested(digest, &all);
    }
    Ok(digest)
}

// The digest of the channels, which are shown too in full.
pub(crate) fn show_channels(
    rt: &impl Print,
    channels: &ChannelArrays,
    full: bool,
) -> io::Result<u64> {
    let mut digest = 1;
    for k in 0..8 {
        let both = [
            u64::from(channels.noise[k]),
            u64::from(channels.thresholds[k]),
        ];
        if full {
            show_line(rt, "channel", k + 1, &both)?;
        }
        digest = show::digested(digest, &both);
    }
    Ok(digest)
}
