// The refusals of the fields and arrays of a PEDR record to be written.
#![tactic(auto)]

ghost use Rattle.std.specs.Prelude.{◌≡◌};
ghost use Rattle.octets.specs.Refusal.{refusal_in};
ghost use Rattle.refusal.specs.Number.{said};
ghost use Rattle.pedr_write_check.specs.Refusal.{given_refusal};

use pedr_arrays::RecordArrays;
use pedr_fields::RecordFields;
use pedr_layout::SHOTS;
use refusal::Refusal;

// Refusals 13 to 15, 40 and 49.
pub fn check_given(fields: &RecordFields, arrays: &RecordArrays) -> Result<(), Refusal>
    ensures { refusal_in (said result) ≡ given_refusal fields.now arrays.now }
{
    pedr_check::check_values(
        fields.time.micros,
        fields.position.latitude,
        fields.receiver.frame_index,
    )?;
    if !pedr_codes::are_proper(&arrays.shots.class) {
        return Err(Refusal::Class);
    }
    if fields.quality.good >= 1 << SHOTS
        || fields.quality.carried >= 1 << 4
        || fields.descriptor.carried >= 1 << 24
        || !pedr_codes::have_two_bits(&arrays.shots.encoder)
    {
        return Err(Refusal::RecordField);
    }
    Ok(())
}
