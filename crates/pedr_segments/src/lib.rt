// Segments of the 776-byte PEDR record, stored: its columns from byte 1 to byte 508. Each stores as many bytes as its columns have.
#![tactic(auto)]

ghost use Rattle.std.specs.Prelude.{◌≡◌, length};
ghost use Rattle.octets.specs.Bytes.{put};
ghost use Rattle.layout.specs.Column.{join};
ghost use Rattle.pedr_segments.specs.Parts as parts;

use octets_runs_writer::{write_run, write_u8s};
use octets_writer::{write_i16, write_i32, write_u16, write_u32, write_u64};
use pedr_arrays::{ChannelArrays, RecordArrays, ShotArrays};
use pedr_fields::RecordFields;
use pedr_layout::{
    CLASS_AT, ENERGY_AT, FRAME_INDEX_AT, LASER_POWER_AT, LATITUDE_AT, OPTICAL_WIDTH_AT,
    PULSE_WIDTH_AT, QUALITY_NUMBER_AT, RADIUS_AT, REFLECTIVITY_AT, TIME_MICROS_AT,
    TRIGGER_CHANNEL_AT,
};

// Bytes 1 to 32: time, position, the range at mid-point, quality.
pub fn put_head(fields: &RecordFields, out: &mut [u8])
    ensures stored { out.new ≡ put out.old 0 (join (parts.head_parts fields.now)) }
    ensures size { length (join (parts.head_parts fields.now)) ≡ 32 }
{
    write_i32(fields.time.whole, 0, out);
    write_i32(fields.time.micros, TIME_MICROS_AT, out);
    write_u32(fields.position.orbit, 8, out);
    write_i32(fields.position.latitude, LATITUDE_AT, out);
    write_i32(fields.position.longitude, 16, out);
    write_u32(fields.position.radial_distance, 20, out);
    write_u32(fields.ranges.mid_point_range, 24, out);
    write_u32(
        pedr_flags_writer::quality_word(fields.quality),
        QUALITY_NUMBER_AT,
        out,
    );
}

// Bytes 33 to 144: the tests, the shots' radii, the frame's radius, pointing.
pub fn put_radii(fields: &RecordFields, shots: &ShotArrays, out: &mut [u8])
    ensures stored { out.new ≡ put out.old 32 (join (parts.radii_parts fields.now shots.now)) }
    ensures size { length (join (parts.radii_parts fields.now shots.now)) ≡ 112 }
{
    let descriptor = pedr_flags_writer::descriptor_words(fields.descriptor, &shots.failures);
    write_u64(descriptor.high, 32, out);
    write_u64(descriptor.low, 40, out);
    write_run(&shots.radius, RADIUS_AT, out);
    write_u32(fields.ranges.frame_radius, 128, out);
    write_i32(fields.pointing.right_ascension, 132, out);
    write_i32(fields.pointing.declination, 136, out);
    write_i32(fields.pointing.twist, 140, out);
}

// Bytes 145 to 324: the shots' energies, reflectivities, trigger channels and pulse widths.
pub fn put_pulses(shots: &ShotArrays, out: &mut [u8])
    ensures stored { out.new ≡ put out.old 144 (join (parts.pulse_parts shots.now)) }
    ensures size { length (join (parts.pulse_parts shots.now)) ≡ 180 }
{
    write_run(&shots.energy, ENERGY_AT, out);
    write_run(&shots.reflectivity, REFLECTIVITY_AT, out);
    write_u8s(&shots.trigger_channel, TRIGGER_CHANNEL_AT, out);
    write_run(&shots.pulse_width, PULSE_WIDTH_AT, out);
    write_run(&shots.optical_width, OPTICAL_WIDTH_AT, out);
}

// Bytes 325 to 424: coordinates on the ground, the shots' laser powers and classes.
pub fn put_ground(fields: &RecordFields, arrays: &RecordArrays, out: &mut [u8])
    ensures stored { out.new ≡ put out.old 324 (join (parts.ground_parts fields.now arrays.now)) }
    ensures size { length (join (parts.ground_parts fields.now arrays.now)) ≡ 100 }
{
    write_run(&arrays.xyz, 324, out);
    let position = &fields.position;
    write_run(
        &[position.ground_latitude, position.ground_longitude],
        336,
        out,
    );
    write_run(&arrays.shots.laser_power, LASER_POWER_AT, out);
    write_run(
        &pedr_codes::class_numbers(&arrays.shots.class),
        CLASS_AT,
        out,
    );
}

// Bytes 425 to 480: noise, the range gate, thresholds.
pub fn put_gate(fields: &RecordFields, channels: &ChannelArrays, out: &mut [u8])
    ensures stored { out.new ≡ put out.old 424 (join (parts.gate_parts fields.now channels.now)) }
    ensures size { length (join (parts.gate_parts fields.now channels.now)) ≡ 56 }
{
    write_run(&channels.noise, 424, out);
    write_u32(fields.ranges.delay, 456, out);
    write_u32(fields.ranges.width, 460, out);
    write_run(&channels.thresholds, 464, out);
}

// Bytes 481 to 492: the receiver's numbers, the frame index.
pub fn put_receiver(fields: &RecordFields, out: &mut [u8])
    ensures stored { out.new ≡ put out.old 480 (join (parts.receiver_parts fields.now)) }
    ensures size { length (join (parts.receiver_parts fields.now)) ≡ 12 }
{
    write_u16(fields.receiver.channel_mask, 480, out);
    write_u16(fields.receiver.minimum_hits, 482, out);
    write_u16(fields.receiver.hit_count, 484, out);
    write_u16(fields.receiver.frame_counter, 486, out);
    write_u16(fields.receiver.trigger, 488, out);
    write_u16(fields.receiver.frame_index, FRAME_INDEX_AT, out);
}

// Bytes 493 to 508: the packet's header and time.
pub fn put_link(fields: &RecordFields, source_header: &[u32; 2], out: &mut [u8])
    ensures stored { out.new ≡ put out.old 492 (join (parts.link_parts fields.now source_header.now)) }
    ensures size { length (join (parts.link_parts fields.now source_header.now)) ≡ 16 }
{
    write_run(source_header, 492, out);
    write_i32(fields.link.seconds, 500, out);
    write_i16(fields.link.millis, 504, out);
    write_u16(fields.link.fine_time, 506, out);
}
