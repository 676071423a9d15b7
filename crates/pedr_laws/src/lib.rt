// The PEDR record's theorems: the shot entry agrees with the reader, flags and codes lose no bit, and a block is of its frame index.
#![tactic(auto)]

ghost use Rattle.std.specs.Prelude.{◌≡◌};
ghost use Rattle.pedr_laws.specs.Frame.{CaseIsIndex, frame_read};
ghost use Rattle.pedr_laws.specs.Shots.{ShotsAgree};
ghost use Rattle.pedr_laws.specs.Flags.{FlagsKept};

// A shot's values by the shot entry are those at its index in the record's arrays.
pub fn shots_agree()
    ensures { ShotsAgree }
{}

// Quality, descriptor, class and encoder bits, taken apart, can be put together again.
pub fn flags_kept()
    ensures { FlagsKept }
{}

// The case of an accepted record's block is its frame index.
pub fn case_is_index()
    ensures { CaseIsIndex }
{}

// The frame of the block that is read of any bytes: an accepted record's frame index, or 0.
pub fn frame_read(bytes: &[u8]) -> u16
    ensures { result ≡ frame_read bytes.now }
{
    match pedr::read_record(bytes) {
        Ok(record) => pedr_block::frame_number(record.block),
        Err(_) => 0,
    }
}
