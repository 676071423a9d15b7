// Packets that are read, one line each.
use crate::{build, show, tables};
use packet::{Packet, PacketArrays, PacketFields};
use packet_layout::{FIRST_SUM_WORD, LAST_SUM_WORD, PACKET_SIZE, PUBLISHED_SUM_WORD};
use std::io;

pub(crate) fn legend(rt: &impl Print) -> io::Result<()> {
    rt.println(
        "fields: error_status count coarse_time fine_time status_register software_version ram_flag_word \
        status_word_1 status_word_2 software_checksum commands_received command_errors transmitter_threshold \
        tracking_status hstart",
    )
}

fn show_fields(rt: &impl Print, f: &PacketFields) -> io::Result<()> {
    print!(rt; ", fields {} {} {}", f.error_status, f.count, f.coarse_time)?;
    print!(rt;
        " {} {} {}",
        f.fine_time, f.status_register, f.software_version
    )?;
    print!(rt;
        " {} {} {}",
        f.ram_flag_word, f.status_word_1, f.status_word_2
    )?;
    print!(rt; " {} {}", f.software_checksum, f.commands_received)?;
    print!(rt; " {} {}", f.command_errors, f.transmitter_threshold)?;
    print!(rt; " {} {}", f.tracking_status, f.hstart)
}

// The temperatures, the readings and the bins after one another.
fn laid_out(arrays: &PacketArrays) -> [u8; 78] {
    let mut all = [0; 78];
    octets::write_into(&arrays.temperatures, 0, &mut all);
    octets::write_into(&arrays.readings, 16, &mut all);
    octets::write_into(&arrays.bins, 30, &mut all);
    all
}

// That the arrays are all zero, or their digest, and all of them where the row asks for that.
fn show_arrays(rt: &impl Print, row: u64, arrays: &PacketArrays) -> io::Result<()> {
    let all = laid_out(arrays);
    if all == [0; 78] {
        return rt.print(", arrays zero");
    }
    print!(rt; ", arrays {}", show::digest(&all))?;
    if build::given(row, tables::IN_FULL, 0) == 1 {
        show::list(rt, &all)?;
    }
    Ok(())
}

// Whether what was read of a packet, written again, gives its own bytes.
fn comes_back(bytes: &[u8], word: usize, packet: &Packet) -> bool {
    let mut again = [0; PACKET_SIZE];
    let written = packet_writer::write_packet(packet, packet::carried(bytes), word, &mut again);
    written.is_ok() && bytes == again.as_slice()
}

fn accepted(
    rt: &impl Print,
    bytes: &[u8],
    word: usize,
    row: u64,
    packet: &Packet,
) -> io::Result<()> {
    rt.print(": accepted, sum")?;
    if word < 540 {
        print!(rt; " {}", octets::u16_at(bytes, word * 2))?;
    }
    show_fields(rt, &packet.fields)?;
    print!(rt; ", carried {}", show::digest(packet::carried(bytes)))?;
    if comes_back(bytes, word, packet) {
        rt.print(", rewritten the same")?;
    }
    show_arrays(rt, row, &packet.arrays)
}

// What the reader says of bytes, and the arrays that the one for C gives beside a refusal.
pub(crate) fn judge(rt: &impl Print, bytes: &[u8], word: usize, row: u64) -> io::Result<()> {
    let answer = packet::read_packet(bytes, word);
    match answer {
        Ok(packet) => accepted(rt, bytes, word, row, &packet)?,
        Err(refusal) => {
            show::refused(rt, refusal)?;
            show_arrays(rt, row, &mola::mola_read_packet(bytes, word).arrays)?;
        }
    }
    show::check(rt, refusal::number_of(answer), row / tables::DUE)
}

// Row i with its sum stored at one word, where the reader is told that word or another.
pub(crate) fn read_at(
    rt: &impl Print,
    i: usize,
    row: u64,
    stored: usize,
    told: usize,
) -> io::Result<()> {
    let mut room = [0; 2160];
    let length = build::given(row, tables::SIZE, PACKET_SIZE as u64) as usize;
    show::head(rt, "read", i, told)?;
    print!(rt; " len {length}")?;
    if let Some(bytes) = room.get_mut(..length) {
        build::packet_of(row, stored, bytes);
        judge(rt, bytes, told, row)?;
    }
    println!(rt)
}

pub(crate) fn read(rt: &impl Print, i: usize, row: u64) -> io::Result<()> {
    let stored = build::given(row, tables::AT, PUBLISHED_SUM_WORD as u64);
    let told = build::given(row, tables::WORD, stored);
    read_at(rt, i, row, stored as usize, told as usize)
}

pub(crate) fn read_at_three_words(rt: &impl Print, i: usize, row: u64) -> io::Result<()> {
    for word in [FIRST_SUM_WORD, PUBLISHED_SUM_WORD, LAST_SUM_WORD] {
        read_at(rt, i, row, word, word)?;
    }
    Ok(())
}

// The first bin of an HSTART, and where bins 0, 1 and 47 start.
pub(crate) fn hstart(rt: &impl Print, h: u16) -> io::Result<()> {
    let starts = packet_bins::bin_starts(h);
    print!(rt; "hstart {h} {}", packet_bins::first_bin(h))?;
    println!(rt; " {} {} {}", starts[0], starts[1], starts[47])
}
