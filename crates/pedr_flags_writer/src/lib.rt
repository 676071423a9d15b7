// The flags and codes of the PEDR record put together: quality number, encoder byte and descriptor.
#![tactic(auto)]

ghost use Rattle.std.specs.Prelude.{◌≡◌, ◌+◌, ◌*◌, ◌^◌, ◌<◌, map};
ghost use Rattle.numbers.specs.Bit.{digit, from_bits};
ghost use Rattle.pedr_flags.specs.Quality.{good_count};
ghost use Rattle.pedr_flags_writer.specs.Quality.{quality_bits};
ghost use Rattle.pedr_flags_writer.specs.Encoder.{encoder_byte};
ghost use Rattle.pedr_flags_writer.specs.Descriptor.{descriptor_bits};

use pedr_flags::{Descriptor, Encoder, Quality, ShotFailures};
use pedr_layout::SHOTS;

// The descriptor's 128 bits as two numbers: bits 64 to 127, and bits 0 to 63.
#[derive(Clone, Copy)]
pub struct DescriptorWords {
    pub high: u64,
    pub low: u64,
}

// The number of a quality's good and carried bits; bits over their widths are left out.
fn quality_bits(quality: Quality) -> u32
    ensures { result ≡ quality_bits quality }
{
    quality.good % (1 << SHOTS) + (u32::from(quality.carried % 16) << SHOTS)
}

// The four bytes of a quality as one number: its bits, and the counter, which is worked out.
pub fn quality_word(quality: Quality) -> u32
    ensures { result ≡ quality_bits quality * 256 + good_count quality.good }
{
    (quality_bits(quality) << 8) + pedr_flags::good_count(quality.good)
}

// The byte of the encoder bits; bits over two are left out.
pub fn encoder_byte(encoder: Encoder) -> u8
    ensures { result ≡ encoder_byte encoder }
{
    encoder.start % 4
        + ((encoder.carried_low % 4) << 2)
        + ((encoder.stop % 4) << 4)
        + ((encoder.carried_high % 4) << 6)
}

// The shots' tests: window and comparison in 20 bits each, and power, energy and range.
fn shot_words(failures: &[ShotFailures; SHOTS]) -> DescriptorWords
    ensures { (result.high ≡ from_bits (map (λ f. f.window) failures.now) + from_bits (map (λ f. f.comparison) failures.now) * 2 ^ 20)
        × (result.low ≡ from_bits (map (λ f. f.power) failures.now) + from_bits (map (λ f. f.energy) failures.now) * 2 ^ 20
        + from_bits (map (λ f. f.range) failures.now) * 2 ^ 40)
        × (result.high < 2 ^ 40) × (result.low < 2 ^ 60) }
{
    let mut high: u64 = 0;
    let mut low: u64 = 0;
    // Of a copy, since the compiler keeps the whole struct in memory that a loop reads a part of.
    let failures = *failures;
    for shot in failures.iter().rev() {
        high = (high << 1) + u64::from(shot.window) + (u64::from(shot.comparison) << SHOTS);
        low = (low << 1)
            + u64::from(shot.power)
            + (u64::from(shot.energy) << SHOTS)
            + (u64::from(shot.range) << (2 * SHOTS));
    }
    DescriptorWords { high, low }
}

// The descriptor of a frame's tests and carried bits and of its shots' tests; carried bits over 24 are left out.
pub fn descriptor_words(descriptor: Descriptor, failures: &[ShotFailures; SHOTS]) -> DescriptorWords
    ensures { (result.high * 2 ^ 64 + result.low ≡ from_bits (descriptor_bits descriptor failures.now)) × (result.low < 2 ^ 64) }
{
    let shots = shot_words(failures);
    let carried = u64::from(descriptor.carried) % (1 << 24);
    DescriptorWords {
        high: shots.high + (carried << 40),
        low: u64::from(descriptor.packet_sum)
            + (u64::from(descriptor.software_sum) << 1)
            + (u64::from(descriptor.mode) << 2)
            + (u64::from(descriptor.ots) << 3)
            + (shots.low << 4),
    }
}
