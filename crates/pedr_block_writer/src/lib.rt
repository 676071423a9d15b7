// The engineering block of a PEDR record, stored: record bytes 509 to 536.
#![tactic(auto)]

ghost use Rattle.std.specs.Prelude.{◌≡◌, length};
ghost use Rattle.octets.specs.Bytes.{put};
ghost use Rattle.layout.specs.Column.{join};
ghost use Rattle.layout.specs.Row.{row_parts};
ghost use Rattle.pedr_layout.specs.Block as columns;
ghost use Rattle.pedr_block_writer.specs.Rows as rows;

use octets_runs_writer::{copy_part, write_run};
use octets_writer::{write_u8, write_u16, write_u32};
use pedr_block::{
    Block, Frame1Fields, Frame2Fields, Frame3Fields, Frame5Fields, Frame6Fields, Frame7Fields,
};
use pedr_block_runs::BlockRuns;

fn put_frame_1(fields: Frame1Fields, out: &mut [u8])
    ensures { let bytes = join (row_parts (columns.columns_in columns.frame1) (rows.frame1_row fields)) in
        (out.new ≡ put out.old columns.block_start bytes) × (length bytes ≡ 28) }
{
    let temperatures = [
        fields.computer_memory_temperature,
        fields.computer_cpu_temperature,
        fields.power_supply_temperature,
        fields.computer_io_temperature,
        fields.laser_diode_array_temperature,
        fields.laser_diode_drive_elecs_temp,
        fields.optical_test_source_led_temp,
        fields.hundred_mhz_oscillator_temp,
        fields.start_detector_temperature,
        fields.outside_detector_housing_temp,
        fields.lasr_radiatr_opp_opt_port_temp,
        fields.lser_radiator_output_port_temp,
        fields.interface_plate_hot_foot_temp,
        fields.honeycomb_panel_temperature,
    ];
    write_run(&temperatures, 508, out);
}

fn put_frame_2(fields: Frame2Fields, out: &mut [u8])
    ensures { let bytes = join (row_parts (columns.columns_in columns.frame2) (rows.frame2_row fields)) in
        (out.new ≡ put out.old columns.block_start bytes) × (length bytes ≡ 28) }
{
    let temperatures = [
        fields.electronics_box_top_sc_thrmstr,
        fields.laser_case_hot_foot_temp,
    ];
    write_run(&temperatures, 508, out);
    let monitors = [
        fields.plus_28_volt_voltage_monitor,
        fields.reference_voltage_monitor,
        fields.plus_12_volt_voltage_monitor,
        fields.plus_24_volt_voltage_monitor,
        fields.plus_5_volt_voltage_monitor,
        fields.minus_12_volt_voltage_monitor,
        fields.laser_thermal_current_monitor,
        fields.minus_5_volt_voltage_monitor,
        fields.power_supply_current_monitor,
        fields.high_voltage_monitor,
        fields.minus_12_volt_current_monitor,
        fields.plus_12_volt_current_monitor,
    ];
    write_run(&monitors, 512, out);
}

fn put_frame_3(fields: Frame3Fields, runs: &BlockRuns, carried: &[u8], out: &mut [u8])
    ensures { let bytes = join (row_parts (columns.columns_in columns.frame3) (rows.frame3_row fields runs.now.status_flags runs.now.range_gate_tracker_array carried.now)) in
        (out.new ≡ put out.old columns.block_start bytes) × (length bytes ≡ 28) }
{
    write_u16(fields.minus_5_volt_current_monitor, 508, out);
    write_u16(fields.plus_5_volt_current_monitor, 510, out);
    write_u8(fields.current_status_register_value, 512, out);
    write_u8(fields.software_version_number, 513, out);
    write_u16(fields.flag_word, 514, out);
    write_run(&runs.status_flags, 516, out);
    write_u16(fields.software_validity_checksum, 520, out);
    write_u8(fields.received_command_count, 522, out);
    write_u8(fields.command_error_count, 523, out);
    write_u8(fields.transmitter_threshold_setting, 524, out);
    write_u8(fields.range_tracking_status, 525, out);
    copy_part(carried, 0, 2, 526, out);
    write_run(&runs.range_gate_tracker_array[..4], 528, out);
}

fn put_frame_4(runs: &BlockRuns, out: &mut [u8])
    ensures { let bytes = join (row_parts (columns.columns_in columns.frame4) (rows.frame4_row runs.now.range_gate_tracker_array)) in
        (out.new ≡ put out.old columns.block_start bytes) × (length bytes ≡ 28) }
{
    write_run(&runs.range_gate_tracker_array, 508, out);
}

fn put_frame_5(fields: Frame5Fields, runs: &BlockRuns, carried: &[u8], out: &mut [u8])
    ensures { let bytes = join (row_parts (columns.columns_in columns.frame5) (rows.frame5_row fields runs.now.range_gate_tracker_array runs.now.memory_dump_segment carried.now)) in
        (out.new ≡ put out.old columns.block_start bytes) × (length bytes ≡ 28) }
{
    write_run(&runs.range_gate_tracker_array[..6], 508, out);
    write_u32(fields.hstart_value_histogram_dump, 520, out);
    copy_part(carried, 0, 4, 524, out);
    write_u16(fields.valid_commands_received_count, 528, out);
    write_run(&runs.memory_dump_segment[..3], 530, out);
}

fn put_frame_6(fields: Frame6Fields, runs: &BlockRuns, out: &mut [u8])
    ensures { let bytes = join (row_parts (columns.columns_in columns.frame6) (rows.frame6_row fields runs.now.memory_dump_segment runs.now.command_echo)) in
        (out.new ≡ put out.old columns.block_start bytes) × (length bytes ≡ 28) }
{
    write_run(&runs.memory_dump_segment, 508, out);
    write_run(&runs.command_echo, 518, out);
    write_u16(fields.packet_validity_checksum, 534, out);
}

fn put_frame_7(fields: Frame7Fields, carried: &[u8], out: &mut [u8])
    ensures { let bytes = join (row_parts (columns.columns_in columns.frame7) (rows.frame7_row fields carried.now)) in
        (out.new ≡ put out.old columns.block_start bytes) × (length bytes ≡ 28) }
{
    write_u32(fields.ots_range, 508, out);
    write_u32(fields.first_ch_received_energy, 512, out);
    copy_part(carried, 0, 4, 516, out);
    write_u32(fields.ots_transmit_power, 520, out);
    write_u8(fields.ots_pulse_width, 524, out);
    write_u8(fields.ots_pulse_amplitude, 525, out);
    write_u8(fields.ots_qual_flag, 526, out);
    write_u8(fields.packet_type, 527, out);
    write_u16(fields.areocentric_longitude_of_sun, 528, out);
    copy_part(carried, 4, 6, 530, out);
}

// Stores the 28 bytes of the block of its frame, with the frame's runs and carried bytes. A carried byte past the end of what is given is stored as 0.
pub fn put_block(block: &Block, runs: &BlockRuns, carried: &[u8], out: &mut [u8])
    ensures stored { out.new ≡ put out.old columns.block_start (rows.block_octets block.now runs.now carried.now) }
    ensures size { length (rows.block_octets block.now runs.now carried.now) ≡ 28 }
{
    match *block {
        Block::Frame1(fields) => put_frame_1(fields, out),
        Block::Frame2(fields) => put_frame_2(fields, out),
        Block::Frame3(fields) => put_frame_3(fields, runs, carried, out),
        Block::Frame4(_) => put_frame_4(runs, out),
        Block::Frame5(fields) => put_frame_5(fields, runs, carried, out),
        Block::Frame6(fields) => put_frame_6(fields, runs, out),
        Block::Frame7(fields) => put_frame_7(fields, carried, out),
    }
}
