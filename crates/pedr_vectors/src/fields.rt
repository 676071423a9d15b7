// The columns that are single numbers, group by group, and the legend.
use pedr_fields::{FrameTime, OrbitPosition, PacketLink, Pointing, Ranges, Receiver, RecordFields};
use pedr_flags::{Descriptor, Quality};
use std::io;

pub(crate) fn legend(rt: &impl Print) -> io::Result<()> {
    rt.println(
        "record: time whole micros in_micros, position orbit latitude longitude radial_distance ground_latitude \
        ground_longitude, quality good carried counter, descriptor packet_sum software_sum mode ots carried, \
        pointing right_ascension declination twist, ranges mid_point_range frame_radius delay width, \
        receiver channel_mask minimum_hits hit_count frame_counter trigger frame_index, \
        packet seconds millis fine_time, block frame and its single columns in the order of appendices C.3 to C.9, \
        flags, tracker, dump and echo of the block, its carried bytes, xyz, header, \
        digests of the 20 shots, of the 8 channels and of the uninterpreted bytes\n\
        shot: radius energy reflectivity trigger_channel pulse_width optical_width laser_power, \
        class_case (0 no trigger, 1 probable ground, 2 unassigned) class_number, \
        encoder start carried_low stop carried_high, failures power energy range window comparison, good\n\
        channel: noise threshold",
    )
}

fn show_time(rt: &impl Print, t: FrameTime) -> io::Result<()> {
    let in_micros = pedr_fields::time_in_micros(t);
    print!(rt; ": time {} {} {in_micros}", t.whole, t.micros)
}

fn show_position(rt: &impl Print, p: OrbitPosition) -> io::Result<()> {
    print!(rt; ", position {} {} {}", p.orbit, p.latitude, p.longitude)?;
    print!(rt;
        " {} {} {}",
        p.radial_distance, p.ground_latitude, p.ground_longitude
    )
}

fn show_quality(rt: &impl Print, q: Quality) -> io::Result<()> {
    print!(rt; ", quality {} {} {}", q.good, q.carried, q.counter)
}

fn show_descriptor(rt: &impl Print, d: Descriptor) -> io::Result<()> {
    print!(rt;
        ", descriptor {} {}",
        u8::from(d.packet_sum),
        u8::from(d.software_sum)
    )?;
    print!(rt; " {} {} {}", u8::from(d.mode), u8::from(d.ots), d.carried)
}

fn show_pointing(rt: &impl Print, p: Pointing) -> io::Result<()> {
    print!(rt;
        ", pointing {} {} {}",
        p.right_ascension, p.declination, p.twist
    )
}

fn show_ranges(rt: &impl Print, r: Ranges) -> io::Result<()> {
    print!(rt; ", ranges {} {}", r.mid_point_range, r.frame_radius)?;
    print!(rt; " {} {}", r.delay, r.width)
}

fn show_receiver(rt: &impl Print, r: Receiver) -> io::Result<()> {
    print!(rt;
        ", receiver {} {} {}",
        r.channel_mask, r.minimum_hits, r.hit_count
    )?;
    print!(rt; " {} {} {}", r.frame_counter, r.trigger, r.frame_index)
}

fn show_link(rt: &impl Print, l: PacketLink) -> io::Result<()> {
    print!(rt; ", packet {} {} {}", l.seconds, l.millis, l.fine_time)
}

pub(crate) fn show_fields(rt: &impl Print, f: &RecordFields) -> io::Result<()> {
    show_time(rt, f.time)?;
    show_position(rt, f.position)?;
    show_quality(rt, f.quality)?;
    show_descriptor(rt, f.descriptor)?;
    show_pointing(rt, f.pointing)?;
    show_ranges(rt, f.ranges)?;
    show_receiver(rt, f.receiver)?;
    show_link(rt, f.link)
}
