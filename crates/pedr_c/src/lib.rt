// The PEDR record's answers in structs of numbers, for callers in languages that have no such enums: a class is its number.
#![tactic(auto)]

ghost use Rattle.std.specs.Prelude.{◌≡◌, map};
ghost use Rattle.pedr_flags.specs.Class.{class_of, class_number};
ghost use Rattle.pedr_arrays.specs.Arrays.{classes_of, arrays_of};
ghost use Rattle.pedr.specs.Read.{read_due, read_arrays, read_runs, read_carried, read_uninterpreted};
ghost use Rattle.pedr_c.specs.Refused.{no_position, no_descriptor, no_receiver, no_fields, no_numbers, refused_record};
ghost use Rattle.pedr_c.specs.Numbers.{shot_numbers, array_numbers, record_numbers};
ghost use Rattle.pedr_c.specs.Back.{shots_of_numbers, arrays_of_numbers};

use pedr_arrays::{ChannelArrays, RecordArrays, ShotArrays};
use pedr_block_c::BlockNumbers;
use pedr_block_runs::BlockRuns;
use pedr_fields::RecordFields;
use pedr_flags::{Class, Encoder, ShotFailures};
use pedr_layout::{CARRIED_MOST, CLASS_AT, SHOTS, UNINTERPRETED};

// The columns of 20 shots, a class by its number; shot s stands at index s - 1.
#[repr(C)]
#[derive(Clone, Copy, Default)]
pub struct ShotNumbers {
    pub radius: [u32; SHOTS],
    pub energy: [u16; SHOTS],
    pub reflectivity: [u16; SHOTS],
    pub trigger_channel: [u8; SHOTS],
    pub pulse_width: [u16; SHOTS],
    pub optical_width: [u16; SHOTS],
    pub laser_power: [u16; SHOTS],
    pub class_number: [u16; SHOTS],
    pub encoder: [Encoder; SHOTS],
    pub failures: [ShotFailures; SHOTS],
}

// The columns of several numbers.
#[repr(C)]
#[derive(Clone, Copy, Default)]
pub struct ArrayNumbers {
    pub shots: ShotNumbers,
    pub channels: ChannelArrays,
    pub xyz: [i32; 3],
    pub source_header: [u32; 2],
}

// A record's refusal number and zeros; or 0 and what the record holds.
#[repr(C)]
#[derive(Clone, Copy, Default)]
pub struct RecordNumbers {
    pub refusal: u32,
    pub fields: RecordFields,
    pub block: BlockNumbers,
    pub arrays: ArrayNumbers,
    pub runs: BlockRuns,
    pub carried: [u8; CARRIED_MOST],
    pub uninterpreted: [u8; UNINTERPRETED],
}

// The numbers of the classes: their column, as it stands.
fn read_class_numbers(bytes: &[u8]) -> [u16; SHOTS]
    ensures { result ≡ map class_number (classes_of bytes.now) }
{
    octets_runs::run(bytes, CLASS_AT)
}

// The columns of 20 shots, with the numbers of their classes. A field that is an array goes by a variable into a struct's literal, as the check asks.
fn shot_numbers(arrays: ShotArrays, numbers: [u16; SHOTS]) -> ShotNumbers
    requires { numbers ≡ map class_number arrays.class }
    ensures { result ≡ shot_numbers arrays }
{
    let radius = arrays.radius;
    let energy = arrays.energy;
    let reflectivity = arrays.reflectivity;
    let trigger_channel = arrays.trigger_channel;
    let pulse_width = arrays.pulse_width;
    let optical_width = arrays.optical_width;
    let laser_power = arrays.laser_power;
    let encoder = arrays.encoder;
    let failures = arrays.failures;
    ShotNumbers {
        radius,
        energy,
        reflectivity,
        trigger_channel,
        pulse_width,
        optical_width,
        laser_power,
        class_number: numbers,
        encoder,
        failures,
    }
}

fn read_arrays(bytes: &[u8]) -> ArrayNumbers
    ensures { result ≡ array_numbers (arrays_of bytes.now) }
{
    let arrays = pedr_arrays::read_arrays(bytes);
    let shots = arrays.shots;
    let channels = arrays.channels;
    let xyz = arrays.xyz;
    let source_header = arrays.source_header;
    ArrayNumbers {
        shots: shot_numbers(shots, read_class_numbers(bytes)),
        channels,
        xyz,
        source_header,
    }
}

fn no_fields() -> RecordFields
    ensures { result ≡ no_fields }
{
    RecordFields::default()
}

fn no_arrays() -> ArrayNumbers
    ensures { result ≡ no_numbers }
{
    ArrayNumbers::default()
}

// The numbers of a refused record.
fn refused_record(refusal: u32) -> RecordNumbers
    ensures { result ≡ refused_record refusal }
{
    RecordNumbers {
        refusal,
        fields: no_fields(),
        block: pedr_block_c::no_block(),
        arrays: no_arrays(),
        runs: pedr_block_runs::no_runs(),
        carried: [0; CARRIED_MOST],
        uninterpreted: [0; UNINTERPRETED],
    }
}

// Reads a record. Any bytes. The fields last, behind the loops, so that the compiler reads each number by one load.
pub fn read_record(bytes: &[u8]) -> RecordNumbers
    ensures { result ≡ record_numbers (read_due bytes.now) (read_arrays bytes.now) (read_runs bytes.now)
        (read_carried bytes.now) (read_uninterpreted bytes.now) }
{
    if let Err(refusal) = pedr_check::check_record(bytes) {
        return refused_record(u8::from(refusal) as u32);
    }
    let uninterpreted = pedr_arrays::read_uninterpreted(bytes);
    let carried = pedr_block_runs::read_carried(bytes);
    let runs = pedr_block_runs::read_runs(bytes);
    let arrays = read_arrays(bytes);
    let block = pedr_block_c::read_block(bytes);
    let fields = pedr_fields::read_fields(bytes);
    RecordNumbers {
        refusal: 0,
        fields,
        block,
        arrays,
        runs,
        carried,
        uninterpreted,
    }
}

fn classes_of(numbers: [u16; SHOTS]) -> [Class; SHOTS]
    ensures { result ≡ map class_of numbers }
{
    std::array::from_fn(|k| Class::from(numbers[k]))
}

fn shots_of(numbers: ShotNumbers) -> ShotArrays
    ensures { result ≡ shots_of_numbers numbers }
{
    let radius = numbers.radius;
    let energy = numbers.energy;
    let reflectivity = numbers.reflectivity;
    let trigger_channel = numbers.trigger_channel;
    let pulse_width = numbers.pulse_width;
    let optical_width = numbers.optical_width;
    let laser_power = numbers.laser_power;
    let class_number = numbers.class_number;
    let encoder = numbers.encoder;
    let failures = numbers.failures;
    ShotArrays {
        radius,
        energy,
        reflectivity,
        trigger_channel,
        pulse_width,
        optical_width,
        laser_power,
        class: classes_of(class_number),
        encoder,
        failures,
    }
}

// The arrays that numbers stand for: each class is that of its number.
pub fn arrays_of(numbers: ArrayNumbers) -> RecordArrays
    ensures { result ≡ arrays_of_numbers numbers }
{
    let shots = numbers.shots;
    let channels = numbers.channels;
    let xyz = numbers.xyz;
    let source_header = numbers.source_header;
    RecordArrays {
        shots: shots_of(shots),
        channels,
        xyz,
        source_header,
    }
}
