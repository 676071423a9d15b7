// The refusals of a PEDR record.
#![tactic(auto)]

ghost use Rattle.std.specs.Prelude.{◌≡◌};
ghost use Rattle.octets.specs.Refusal.{refusal_in};
ghost use Rattle.refusal.specs.Number.{said};
ghost use Rattle.pedr_check.specs.Refusal.{values_refusal, record_refusal};

use pedr_layout::{
    FRAME_INDEX_AT, LATITUDE_AT, QUALITY_COUNTER_AT, QUALITY_NUMBER_AT, RECORD_SIZE, TIME_MICROS_AT,
};
use refusal::Refusal;

// The most µs and the most millionths of a degree of latitude that a frame may have, either way from 0.
const MOST_MICROS: u32 = 999_999;

const MOST_LATITUDE: u32 = 90_000_000;

// Refusals 13 to 15 of a frame's microseconds, latitude and frame index.
pub fn check_values(micros: i32, latitude: i32, frame_index: u16) -> Result<(), Refusal>
    ensures { refusal_in (said result) ≡ values_refusal micros latitude frame_index }
{
    if micros.unsigned_abs() > MOST_MICROS {
        return Err(Refusal::TimeMicros);
    }
    if latitude.unsigned_abs() > MOST_LATITUDE {
        return Err(Refusal::Latitude);
    }
    if !(1..=7).contains(&frame_index) {
        return Err(Refusal::FrameIndex);
    }
    Ok(())
}

// Refusals 11 to 15.
pub fn check_record(bytes: &[u8]) -> Result<(), Refusal>
    ensures { refusal_in (said result) ≡ record_refusal bytes.now }
{
    if bytes.len() != RECORD_SIZE {
        return Err(Refusal::RecordSize);
    }
    let good = pedr_flags::good_count(octets::u24_at(bytes, QUALITY_NUMBER_AT));
    if good != octets::u8_at(bytes, QUALITY_COUNTER_AT) as u32 {
        return Err(Refusal::QualityCounter);
    }
    let micros = octets::i32_at(bytes, TIME_MICROS_AT);
    let latitude = octets::i32_at(bytes, LATITUDE_AT);
    check_values(micros, latitude, octets::u16_at(bytes, FRAME_INDEX_AT))
}
