// The engineering block: the columns of its frame that are single numbers, the runs of items, and the bytes that its layout leaves unnamed.
use crate::show;
use pedr_block::{
    Block, Frame1Fields, Frame2Fields, Frame3Fields, Frame5Fields, Frame6Fields, Frame7Fields,
};
use pedr_block_runs::BlockRuns;
use pedr_layout::CARRIED_MOST;
use std::io;

fn show_frame_1(rt: &impl Print, f: Frame1Fields) -> io::Result<()> {
    show::entries(
        rt,
        &[
            f.computer_memory_temperature,
            f.computer_cpu_temperature,
            f.power_supply_temperature,
            f.computer_io_temperature,
            f.laser_diode_array_temperature,
            f.laser_diode_drive_elecs_temp,
            f.optical_test_source_led_temp,
            f.hundred_mhz_oscillator_temp,
            f.start_detector_temperature,
            f.outside_detector_housing_temp,
            f.lasr_radiatr_opp_opt_port_temp,
            f.lser_radiator_output_port_temp,
            f.interface_plate_hot_foot_temp,
            f.honeycomb_panel_temperature,
        ],
    )
}

fn show_frame_2(rt: &impl Print, f: Frame2Fields) -> io::Result<()> {
    show::entries(
        rt,
        &[f.electronics_box_top_sc_thrmstr, f.laser_case_hot_foot_temp],
    )?;
    show::entries(
        rt,
        &[
            f.plus_28_volt_voltage_monitor,
            f.reference_voltage_monitor,
            f.plus_12_volt_voltage_monitor,
            f.plus_24_volt_voltage_monitor,
            f.plus_5_volt_voltage_monitor,
            f.minus_12_volt_voltage_monitor,
            f.laser_thermal_current_monitor,
            f.minus_5_volt_voltage_monitor,
            f.power_supply_current_monitor,
            f.high_voltage_monitor,
            f.minus_12_volt_current_monitor,
            f.plus_12_volt_current_monitor,
        ],
    )
}

fn show_frame_3(rt: &impl Print, f: Frame3Fields) -> io::Result<()> {
    show::entries(
        rt,
        &[
            f.minus_5_volt_current_monitor,
            f.plus_5_volt_current_monitor,
        ],
    )?;
    show::entries(
        rt,
        &[f.current_status_register_value, f.software_version_number],
    )?;
    show::entries(rt, &[f.flag_word, f.software_validity_checksum])?;
    show::entries(
        rt,
        &[
            f.received_command_count,
            f.command_error_count,
            f.transmitter_threshold_setting,
            f.range_tracking_status,
        ],
    )
}

fn show_frame_5(rt: &impl Print, f: Frame5Fields) -> io::Result<()> {
    print!(rt;
        " {} {}",
        f.hstart_value_histogram_dump, f.valid_commands_received_count
    )
}

fn show_frame_6(rt: &impl Print, f: Frame6Fields) -> io::Result<()> {
    print!(rt; " {}", f.packet_validity_checksum)
}

fn show_frame_7(rt: &impl Print, f: Frame7Fields) -> io::Result<()> {
    show::entries(
        rt,
        &[
            f.ots_range,
            f.first_ch_received_energy,
            f.ots_transmit_power,
        ],
    )?;
    show::entries(
        rt,
        &[
            f.ots_pulse_width,
            f.ots_pulse_amplitude,
            f.ots_qual_flag,
            f.packet_type,
        ],
    )?;
    print!(rt; " {}", f.areocentric_longitude_of_sun)
}

// The frame, and its single numbers in the order of its appendix.
pub(crate) fn show_block(rt: &impl Print, block: Block) -> io::Result<()> {
    print!(rt; ", block {}", pedr_block::frame_number(block))?;
    match block {
        Block::Frame1(f) => show_frame_1(rt, f),
        Block::Frame2(f) => show_frame_2(rt, f),
        Block::Frame3(f) => show_frame_3(rt, f),
        Block::Frame4(_) => Ok(()),
        Block::Frame5(f) => show_frame_5(rt, f),
        Block::Frame6(f) => show_frame_6(rt, f),
        Block::Frame7(f) => show_frame_7(rt, f),
    }
}

pub(crate) fn show_runs(
    rt: &impl Print,
    runs: &BlockRuns,
    carried: &[u8; CARRIED_MOST],
) -> io::Result<()> {
    rt.print(", flags")?;
    show::entries(rt, &runs.status_flags)?;
    rt.print(", tracker")?;
    show::entries(rt, &runs.range_gate_tracker_array)?;
    rt.print(", dump")?;
    show::entries(rt, &runs.memory_dump_segment)?;
    rt.print(", echo")?;
    show::entries(rt, &runs.command_echo)?;
    rt.print(", carried")?;
    show::entries(rt, carried)
}
