// A field, an item of an array or a size, set to a row's number. A signed field is given by its bits.
use crate::given::Given;
use crate::{cases, rows};
use pedr_arrays::{RecordArrays, ShotArrays};
use pedr_block_runs::BlockRuns;
use pedr_fields::RecordFields;
use pedr_flags::{Class, Encoder, ShotFailures};

fn low_8(n: u64) -> u8 {
    (n % 256) as u8
}

fn low_16(n: u64) -> u16 {
    (n % 65536) as u16
}

fn low_32(n: u64) -> u32 {
    (n % 4294967296) as u32
}

fn signed(n: u64) -> i32 {
    low_32(n).cast_signed()
}

// Puts an item in an array that has a place for it.
fn put<T: Copy>(items: &mut [T], k: usize, item: T) {
    if let Some(place) = items.get_mut(k) {
        *place = item;
    }
}

fn fields(to: &mut RecordFields, field: u64, n: u64) {
    match field {
        cases::WHOLE => to.time.whole = signed(n),
        cases::MICROS => to.time.micros = signed(n),
        cases::ORBIT => to.position.orbit = low_32(n),
        cases::LATITUDE => to.position.latitude = signed(n),
        cases::LONGITUDE => to.position.longitude = signed(n),
        cases::RADIAL_DISTANCE => to.position.radial_distance = low_32(n),
        cases::GROUND_LATITUDE => to.position.ground_latitude = signed(n),
        cases::GROUND_LONGITUDE => to.position.ground_longitude = signed(n),
        cases::GOOD => to.quality.good = low_32(n),
        cases::QUALITY_CARRIED => to.quality.carried = low_8(n),
        cases::COUNTER => to.quality.counter = low_8(n),
        cases::PACKET_SUM => to.descriptor.packet_sum = n != 0,
        cases::SOFTWARE_SUM => to.descriptor.software_sum = n != 0,
        cases::MODE => to.descriptor.mode = n != 0,
        cases::OTS => to.descriptor.ots = n != 0,
        cases::DESCRIPTOR_CARRIED => to.descriptor.carried = low_32(n),
        cases::RIGHT_ASCENSION => to.pointing.right_ascension = signed(n),
        cases::DECLINATION => to.pointing.declination = signed(n),
        cases::TWIST => to.pointing.twist = signed(n),
        cases::MID_POINT_RANGE => to.ranges.mid_point_range = low_32(n),
        cases::FRAME_RADIUS => to.ranges.frame_radius = low_32(n),
        cases::DELAY => to.ranges.delay = low_32(n),
        cases::WIDTH => to.ranges.width = low_32(n),
        cases::CHANNEL_MASK => to.receiver.channel_mask = low_16(n),
        cases::MINIMUM_HITS => to.receiver.minimum_hits = low_16(n),
        cases::HIT_COUNT => to.receiver.hit_count = low_16(n),
        cases::FRAME_COUNTER => to.receiver.frame_counter = low_16(n),
        cases::TRIGGER => to.receiver.trigger = low_16(n),
        cases::FRAME_INDEX => to.receiver.frame_index = low_16(n),
        cases::SECONDS => to.link.seconds = signed(n),
        cases::MILLIS => to.link.millis = low_16(n).cast_signed(),
        cases::FINE_TIME => to.link.fine_time = low_16(n),
        _ => {}
    }
}

fn encoder(to: &mut Encoder, field: u64, n: u64) {
    match field {
        cases::START => to.start = low_8(n),
        cases::CARRIED_LOW => to.carried_low = low_8(n),
        cases::STOP => to.stop = low_8(n),
        cases::CARRIED_HIGH => to.carried_high = low_8(n),
        _ => {}
    }
}

fn failures(to: &mut ShotFailures, field: u64, n: u64) {
    match field {
        cases::POWER_TEST => to.power = n != 0,
        cases::ENERGY_TEST => to.energy = n != 0,
        cases::RANGE_TEST => to.range = n != 0,
        cases::WINDOW_TEST => to.window = n != 0,
        cases::COMPARISON_TEST => to.comparison = n != 0,
        _ => {}
    }
}

// The columns of a shot.
fn shot(to: &mut ShotArrays, field: u64, k: usize, n: u64) {
    match field {
        cases::RADIUS => put(&mut to.radius, k, low_32(n)),
        cases::ENERGY => put(&mut to.energy, k, low_16(n)),
        cases::REFLECTIVITY => put(&mut to.reflectivity, k, low_16(n)),
        cases::TRIGGER_CHANNEL => put(&mut to.trigger_channel, k, low_8(n)),
        cases::PULSE_WIDTH => put(&mut to.pulse_width, k, low_16(n)),
        cases::OPTICAL_WIDTH => put(&mut to.optical_width, k, low_16(n)),
        cases::LASER_POWER => put(&mut to.laser_power, k, low_16(n)),
        cases::NO_TRIGGER => put(&mut to.class, k, Class::NoTrigger),
        cases::PROBABLE_GROUND => put(&mut to.class, k, Class::ProbableGround),
        cases::UNASSIGNED => put(&mut to.class, k, Class::Unassigned(low_16(n))),
        _ => {}
    }
    if let Some(bits) = to.encoder.get_mut(k) {
        encoder(bits, field, n);
    }
    if let Some(tests) = to.failures.get_mut(k) {
        failures(tests, field, n);
    }
}

// The other arrays.
fn arrays(to: &mut RecordArrays, field: u64, k: usize, n: u64) {
    match field {
        cases::NOISE => put(&mut to.channels.noise, k, low_32(n)),
        cases::THRESHOLDS => put(&mut to.channels.thresholds, k, low_16(n)),
        cases::XYZ => put(&mut to.xyz, k, signed(n)),
        cases::SOURCE_HEADER => put(&mut to.source_header, k, low_32(n)),
        _ => {}
    }
}

// The runs of the block.
fn runs(to: &mut BlockRuns, field: u64, k: usize, n: u64) {
    match field {
        cases::STATUS_FLAGS => put(&mut to.status_flags, k, low_16(n)),
        cases::RANGE_GATE_TRACKER_ARRAY => put(&mut to.range_gate_tracker_array, k, low_16(n)),
        cases::MEMORY_DUMP_SEGMENT => put(&mut to.memory_dump_segment, k, low_16(n)),
        cases::COMMAND_ECHO => put(&mut to.command_echo, k, low_16(n)),
        _ => {}
    }
}

// The carried and uninterpreted bytes, and the sizes.
fn lent(to: &mut Given, field: u64, k: usize, n: u64) {
    match field {
        cases::BLOCK_CARRIED => put(&mut to.carried, k, low_8(n)),
        cases::BLOCK_CARRIED_SIZE => to.carried_size = n as usize,
        cases::UNINTERPRETED => put(&mut to.uninterpreted, k, low_8(n)),
        cases::UNINTERPRETED_SIZE => to.uninterpreted_size = n as usize,
        cases::OUTPUT_SIZE => to.output_size = n as usize,
        _ => {}
    }
}

pub(crate) fn change(given: &mut Given, row: u64) {
    let field = rows::field(row);
    let k = rows::item(row);
    let n = rows::number(row);
    fields(&mut given.fields, field, n);
    shot(&mut given.arrays.shots, field, k, n);
    arrays(&mut given.arrays, field, k, n);
    runs(&mut given.runs, field, k, n);
    lent(given, field, k, n);
}
