// The classes and encoder bits of a PEDR record's 20 shots, to be written: whether they can be, and their numbers.
#![tactic(auto)]

ghost use Rattle.std.specs.Prelude.{◌≡◌, map};
ghost use Rattle.octets.specs.Table.{each};
ghost use Rattle.pedr_flags.specs.Class.{class_number};
ghost use Rattle.pedr_flags_writer.specs.Encoder.{encoder_byte};
ghost use Rattle.pedr_codes.specs.Codes.{is_proper, has_two_bits};

use pedr_flags::{Class, Encoder};
use pedr_layout::SHOTS;

// Whether a class is given by its name, if it has one.
fn is_proper(class: Class) -> bool
    ensures { result ≡ is_proper class }
{
    match class {
        Class::NoTrigger | Class::ProbableGround => true,
        Class::Unassigned(number) => 1 < number,
    }
}

// Whether each class is.
pub fn are_proper(classes: &[Class; SHOTS]) -> bool
    ensures { result ≡ each is_proper classes.now }
{
    classes.iter().all(|&class| is_proper(class))
}

// Whether each part of an encoder byte has two bits.
fn has_two_bits(encoder: Encoder) -> bool
    ensures { result ≡ has_two_bits encoder }
{
    encoder.start < 4 && encoder.carried_low < 4 && encoder.stop < 4 && encoder.carried_high < 4
}

// Whether each part of each encoder byte has two bits.
pub fn have_two_bits(encoders: &[Encoder; SHOTS]) -> bool
    ensures { result ≡ each has_two_bits encoders.now }
{
    encoders.iter().all(|&encoder| has_two_bits(encoder))
}

// The numbers of 20 classes.
pub fn class_numbers(classes: &[Class; SHOTS]) -> [u16; SHOTS]
    ensures { result ≡ map class_number classes.now }
{
    std::array::from_fn(|k| u16::from(classes[k]))
}

// The bytes of 20 encoders' bits.
pub fn encoder_bytes(encoders: &[Encoder; SHOTS]) -> [u8; SHOTS]
    ensures { result ≡ map encoder_byte encoders.now }
{
    std::array::from_fn(|k| pedr_flags_writer::encoder_byte(encoders[k]))
}
