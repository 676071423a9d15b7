// The refusals, each with its number (document 01, "Refusal numbers").
#![tactic(auto)]

ghost use Rattle.std.specs.Prelude.{◌≡◌};
ghost use Rattle.octets.specs.Refusal.{refusal_in};
ghost use Rattle.refusal.specs.Number.{number, said, NumbersDiffer};

use std::error::Error;
use std::fmt;

// Why an entry refuses: the packet's reader, the record's, the two writers', and the reorder buffer's calls.
#[derive(Clone, Copy, Debug, PartialEq, Eq)]
pub enum Refusal {
    PacketSize,
    SumPlace,
    Version,
    Spare,
    Flag,
    Instrument,
    Segmentation,
    Length,
    PacketType,
    Sum,
    RecordSize,
    QualityCounter,
    TimeMicros,
    Latitude,
    FrameIndex,
    Shot,
    FreeField,
    PacketOutput,
    Threshold,
    NoPosition,
    PositionPastEnd,
    PositionBelowNext,
    PositionHeld,
    PositionTooFar,
    NextHeld,
    StoreSize,
    NextAtEnd,
    OutputSize,
    SessionBroken,
    Budget,
    Class,
    RecordOutput,
    FrameDiffers,
    RecordField,
}

// The refusal's number.
impl From<Refusal> for u8 {
    ghost from_gives = { λ refusal n. n ≡ number refusal };

    fn from(refusal: Refusal) -> u8 {
        match refusal {
            Refusal::PacketSize => 1,
            Refusal::SumPlace => 2,
            Refusal::Version => 3,
            Refusal::Spare => 4,
            Refusal::Flag => 5,
            Refusal::Instrument => 6,
            Refusal::Segmentation => 7,
            Refusal::Length => 8,
            Refusal::PacketType => 9,
            Refusal::Sum => 10,
            Refusal::RecordSize => 11,
            Refusal::QualityCounter => 12,
            Refusal::TimeMicros => 13,
            Refusal::Latitude => 14,
            Refusal::FrameIndex => 15,
            Refusal::Shot => 16,
            Refusal::FreeField => 17,
            Refusal::PacketOutput => 18,
            Refusal::Threshold => 20,
            Refusal::NoPosition => 21,
            Refusal::PositionPastEnd => 22,
            Refusal::PositionBelowNext => 23,
            Refusal::PositionHeld => 24,
            Refusal::PositionTooFar => 25,
            Refusal::NextHeld => 26,
            Refusal::StoreSize => 27,
            Refusal::NextAtEnd => 28,
            Refusal::OutputSize => 29,
            Refusal::SessionBroken => 30,
            Refusal::Budget => 31,
            Refusal::Class => 40,
            Refusal::RecordOutput => 41,
            Refusal::FrameDiffers => 42,
            Refusal::RecordField => 49,
        }
    }
}

impl fmt::Display for Refusal {
    fn fmt<W: fmt::Write>(&self, f: &mut fmt::Formatter<W>) -> fmt::Result {
        f.write_str(match self {
            Refusal::PacketSize => "packet not 1,080 bytes",
            Refusal::SumPlace => "sum's place not 53 to 539",
            Refusal::Version => "version not 0",
            Refusal::Spare => "spare not 0",
            Refusal::Flag => "flag not 0",
            Refusal::Instrument => "instrument not 35",
            Refusal::Segmentation => "segmentation not 3",
            Refusal::Length => "length not 1,073",
            Refusal::PacketType => "type not 0",
            Refusal::Sum => "sum disagrees",
            Refusal::RecordSize => "record not 776 bytes",
            Refusal::QualityCounter => "quality counter wrong",
            Refusal::TimeMicros => "microseconds out of range",
            Refusal::Latitude => "latitude beyond 90,000,000",
            Refusal::FrameIndex => "frame index not 1 to 7",
            Refusal::Shot => "shot not 1 to 20",
            Refusal::FreeField => "count over 16,383, error status over 7 or carried bytes not 974",
            Refusal::PacketOutput => "output not 1,080 bytes",
            Refusal::Threshold => "threshold not 1 to 31",
            Refusal::NoPosition => "no position fits",
            Refusal::PositionPastEnd => "position over 999,999",
            Refusal::PositionBelowNext => "position below next",
            Refusal::PositionHeld => "position already held",
            Refusal::PositionTooFar => "position over next + 31",
            Refusal::NextHeld => "pass while next is held",
            Refusal::StoreSize => "store not 34,560 bytes",
            Refusal::NextAtEnd => "pass while next is 1,000,000",
            Refusal::OutputSize => "output under 1,080 bytes, or not 34,560 for a drain",
            Refusal::SessionBroken => "session broken",
            Refusal::Budget => "budget over 32",
            Refusal::Class => "class with a name given as unassigned",
            Refusal::RecordOutput => "output not 776 bytes",
            Refusal::FrameDiffers => "engineering block not of the frame index",
            Refusal::RecordField =>
                "field wider than its bits, or bytes not as many as the layout leaves",
        })
    }
}

impl Error for Refusal {}

// The number of a refusal, or 0 for an answer.
pub fn number_of<A: Drop>(answer: Result<A, Refusal>) -> u8
    ensures { result ≡ refusal_in (said answer) }
{
    match answer {
        Ok(_) => 0,
        Err(refusal) => u8::from(refusal),
    }
}

// No two refusals have one number, and none has 0.
pub fn numbers_differ()
    ensures { NumbersDiffer }
{}
