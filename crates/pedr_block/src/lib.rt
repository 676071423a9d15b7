// The engineering block of a PEDR record: the fields of its frame that are single numbers, by their names in document 000, appendices C.3 to C.9.
#![tactic(auto)]

ghost use Rattle.std.specs.Prelude.{◌≡◌};
ghost use Rattle.pedr_block.specs.Frames.{frame1_of, frame2_of, frame3_of, frame5_of, frame6_of, frame7_of};
ghost use Rattle.pedr_block.specs.Block.{block_of, frame_number, carried_count};

use pedr_layout::{CARRIED_MOST, FRAME_INDEX_AT};

// Frame 1: temperatures.
#[repr(C)]
#[derive(Clone, Copy, Default)]
pub struct Frame1Fields {
    pub computer_memory_temperature: i16,
    pub computer_cpu_temperature: i16,
    pub power_supply_temperature: i16,
    pub computer_io_temperature: i16,
    pub laser_diode_array_temperature: i16,
    pub laser_diode_drive_elecs_temp: i16,
    pub optical_test_source_led_temp: i16,
    pub hundred_mhz_oscillator_temp: i16,
    pub start_detector_temperature: i16,
    pub outside_detector_housing_temp: i16,
    pub lasr_radiatr_opp_opt_port_temp: i16,
    pub lser_radiator_output_port_temp: i16,
    pub interface_plate_hot_foot_temp: i16,
    pub honeycomb_panel_temperature: i16,
}

// Frame 2: two temperatures, voltages and currents.
#[repr(C)]
#[derive(Clone, Copy, Default)]
pub struct Frame2Fields {
    pub electronics_box_top_sc_thrmstr: i16,
    pub laser_case_hot_foot_temp: i16,
    pub plus_28_volt_voltage_monitor: u16,
    pub reference_voltage_monitor: u16,
    pub plus_12_volt_voltage_monitor: u16,
    pub plus_24_volt_voltage_monitor: u16,
    pub plus_5_volt_voltage_monitor: u16,
    pub minus_12_volt_voltage_monitor: u16,
    pub laser_thermal_current_monitor: u16,
    pub minus_5_volt_voltage_monitor: u16,
    pub power_supply_current_monitor: u16,
    pub high_voltage_monitor: u16,
    pub minus_12_volt_current_monitor: u16,
    pub plus_12_volt_current_monitor: u16,
}

// Frame 3: currents, the instrument's status and software.
#[repr(C)]
#[derive(Clone, Copy, Default)]
pub struct Frame3Fields {
    pub minus_5_volt_current_monitor: u16,
    pub plus_5_volt_current_monitor: u16,
    pub current_status_register_value: u8,
    pub software_version_number: u8,
    pub flag_word: u16,
    pub software_validity_checksum: u16,
    pub received_command_count: u8,
    pub command_error_count: u8,
    pub transmitter_threshold_setting: u8,
    pub range_tracking_status: u8,
}

// Frame 4: no single field: the range gate tracker's array fills it.
#[repr(C)]
#[derive(Clone, Copy, Default)]
pub struct Frame4Fields {}

// Frame 5: HSTART for the histogram dump, commands received.
#[repr(C)]
#[derive(Clone, Copy, Default)]
pub struct Frame5Fields {
    pub hstart_value_histogram_dump: u32,
    pub valid_commands_received_count: u16,
}

// Frame 6: the packet's checksum.
#[repr(C)]
#[derive(Clone, Copy, Default)]
pub struct Frame6Fields {
    pub packet_validity_checksum: u16,
}

// Frame 7: the optical test shot, the packet's type, the Sun.
#[repr(C)]
#[derive(Clone, Copy, Default)]
pub struct Frame7Fields {
    pub ots_range: u32,
    pub first_ch_received_energy: u32,
    pub ots_transmit_power: u32,
    pub ots_pulse_width: u8,
    pub ots_pulse_amplitude: u8,
    pub ots_qual_flag: u8,
    pub packet_type: u8,
    pub areocentric_longitude_of_sun: u16,
}

// The block by its frame.
#[derive(Clone, Copy)]
pub enum Block {
    Frame1(Frame1Fields),
    Frame2(Frame2Fields),
    Frame3(Frame3Fields),
    Frame4(Frame4Fields),
    Frame5(Frame5Fields),
    Frame6(Frame6Fields),
    Frame7(Frame7Fields),
}

// The fields of each frame, read of any bytes, whatever their frame index.
pub fn read_frame_1(bytes: &[u8]) -> Frame1Fields
    ensures { result ≡ frame1_of bytes.now }
{
    Frame1Fields {
        computer_memory_temperature: octets::i16_at(bytes, 508),
        computer_cpu_temperature: octets::i16_at(bytes, 510),
        power_supply_temperature: octets::i16_at(bytes, 512),
        computer_io_temperature: octets::i16_at(bytes, 514),
        laser_diode_array_temperature: octets::i16_at(bytes, 516),
        laser_diode_drive_elecs_temp: octets::i16_at(bytes, 518),
        optical_test_source_led_temp: octets::i16_at(bytes, 520),
        hundred_mhz_oscillator_temp: octets::i16_at(bytes, 522),
        start_detector_temperature: octets::i16_at(bytes, 524),
        outside_detector_housing_temp: octets::i16_at(bytes, 526),
        lasr_radiatr_opp_opt_port_temp: octets::i16_at(bytes, 528),
        lser_radiator_output_port_temp: octets::i16_at(bytes, 530),
        interface_plate_hot_foot_temp: octets::i16_at(bytes, 532),
        honeycomb_panel_temperature: octets::i16_at(bytes, 534),
    }
}

#[tactic(auto, unfolding(crate::specs::Frames::frame2_of))]
pub fn read_frame_2(bytes: &[u8]) -> Frame2Fields
    ensures { result ≡ frame2_of bytes.now }
{
    Frame2Fields {
        electronics_box_top_sc_thrmstr: octets::i16_at(bytes, 508),
        laser_case_hot_foot_temp: octets::i16_at(bytes, 510),
        plus_28_volt_voltage_monitor: octets::u16_at(bytes, 512),
        reference_voltage_monitor: octets::u16_at(bytes, 514),
        plus_12_volt_voltage_monitor: octets::u16_at(bytes, 516),
        plus_24_volt_voltage_monitor: octets::u16_at(bytes, 518),
        plus_5_volt_voltage_monitor: octets::u16_at(bytes, 520),
        minus_12_volt_voltage_monitor: octets::u16_at(bytes, 522),
        laser_thermal_current_monitor: octets::u16_at(bytes, 524),
        minus_5_volt_voltage_monitor: octets::u16_at(bytes, 526),
        power_supply_current_monitor: octets::u16_at(bytes, 528),
        high_voltage_monitor: octets::u16_at(bytes, 530),
        minus_12_volt_current_monitor: octets::u16_at(bytes, 532),
        plus_12_volt_current_monitor: octets::u16_at(bytes, 534),
    }
}

#[tactic(auto, unfolding(crate::specs::Frames::frame3_of))]
pub fn read_frame_3(bytes: &[u8]) -> Frame3Fields
    ensures { result ≡ frame3_of bytes.now }
{
    Frame3Fields {
        minus_5_volt_current_monitor: octets::u16_at(bytes, 508),
        plus_5_volt_current_monitor: octets::u16_at(bytes, 510),
        current_status_register_value: octets::u8_at(bytes, 512),
        software_version_number: octets::u8_at(bytes, 513),
        flag_word: octets::u16_at(bytes, 514),
        software_validity_checksum: octets::u16_at(bytes, 520),
        received_command_count: octets::u8_at(bytes, 522),
        command_error_count: octets::u8_at(bytes, 523),
        transmitter_threshold_setting: octets::u8_at(bytes, 524),
        range_tracking_status: octets::u8_at(bytes, 525),
    }
}

#[tactic(auto, unfolding(crate::specs::Frames::frame5_of))]
pub fn read_frame_5(bytes: &[u8]) -> Frame5Fields
    ensures { result ≡ frame5_of bytes.now }
{
    Frame5Fields {
        hstart_value_histogram_dump: octets::u32_at(bytes, 520),
        valid_commands_received_count: octets::u16_at(bytes, 528),
    }
}

#[tactic(auto, unfolding(crate::specs::Frames::frame6_of))]
pub fn read_frame_6(bytes: &[u8]) -> Frame6Fields
    ensures { result ≡ frame6_of bytes.now }
{
    Frame6Fields {
        packet_validity_checksum: octets::u16_at(bytes, 534),
    }
}

#[tactic(auto, unfolding(crate::specs::Frames::frame7_of))]
pub fn read_frame_7(bytes: &[u8]) -> Frame7Fields
    ensures { result ≡ frame7_of bytes.now }
{
    Frame7Fields {
        ots_range: octets::u32_at(bytes, 508),
        first_ch_received_energy: octets::u32_at(bytes, 512),
        ots_transmit_power: octets::u32_at(bytes, 520),
        ots_pulse_width: octets::u8_at(bytes, 524),
        ots_pulse_amplitude: octets::u8_at(bytes, 525),
        ots_qual_flag: octets::u8_at(bytes, 526),
        packet_type: octets::u8_at(bytes, 527),
        areocentric_longitude_of_sun: octets::u16_at(bytes, 528),
    }
}

// Reads the block of any bytes, also of those that are refused as a record; a byte past the end reads as 0, and a frame index that is none of 1 to 6 as 7.
#[tactic(auto, unfolding(crate::specs::Block::block_of))]
pub fn read_block(bytes: &[u8]) -> Block
    ensures { result ≡ block_of bytes.now }
{
    match octets::u16_at(bytes, FRAME_INDEX_AT) {
        1 => Block::Frame1(read_frame_1(bytes)),
        2 => Block::Frame2(read_frame_2(bytes)),
        3 => Block::Frame3(read_frame_3(bytes)),
        4 => Block::Frame4(Frame4Fields {}),
        5 => Block::Frame5(read_frame_5(bytes)),
        6 => Block::Frame6(read_frame_6(bytes)),
        _ => Block::Frame7(read_frame_7(bytes)),
    }
}

// The frame of a block, 1 to 7.
pub fn frame_number(block: Block) -> u16
    ensures { result ≡ frame_number block }
{
    match block {
        Block::Frame1(_) => 1,
        Block::Frame2(_) => 2,
        Block::Frame3(_) => 3,
        Block::Frame4(_) => 4,
        Block::Frame5(_) => 5,
        Block::Frame6(_) => 6,
        Block::Frame7(_) => 7,
    }
}

// How many bytes of the block its frame's layout leaves unnamed.
pub fn carried_count(block: Block) -> usize
    ensures { result ≡ carried_count block }
{
    match block {
        Block::Frame3(_) => 2,
        Block::Frame5(_) => 4,
        Block::Frame7(_) => CARRIED_MOST,
        Block::Frame1(_) | Block::Frame2(_) | Block::Frame4(_) | Block::Frame6(_) => 0,
    }
}
