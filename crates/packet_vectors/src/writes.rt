// Packets that are written, one line each.
use crate::{build, reads, show, tables};
use packet::{Packet, PacketFields};
use packet_layout::{CARRIED_AT, CARRIED_SIZE, PACKET_SIZE, PUBLISHED_SUM_WORD};
use refusal::Refusal;
use std::io;

// What the writer says of a packet: its refusal, or the digest of what was written and what the reader says of it.
fn judge(
    rt: &impl Print,
    row: u64,
    word: usize,
    packet: &Packet,
    carried: &[u8],
    out: &mut [u8],
) -> io::Result<()> {
    match packet_writer::write_packet(packet, carried, word, out) {
        Ok(()) => {
            print!(rt; ": written, digest {}, read back", show::digest(out))?;
            reads::judge(rt, out, word, row)
        }
        Err(refusal) => {
            show::refused(rt, refusal)?;
            show::check(rt, u8::from(refusal), row / tables::DUE)
        }
    }
}

// What the library reads of a packet that is filled as the row's and has no changes.
fn source(row: u64) -> Result<Packet, Refusal> {
    let mut bytes = [0; PACKET_SIZE];
    build::packet_of(row - row % tables::FILL, 60, &mut bytes);
    packet::read_packet(&bytes, 60)
}

// The fields of such a packet, with the count and the error status that the row gives.
fn fields_of(row: u64, fields: PacketFields) -> PacketFields {
    PacketFields {
        count: (build::given(row, tables::COUNT, fields.count as u64) % 65536) as u16,
        error_status: (build::given(row, tables::STATUS, fields.error_status as u64) % 256) as u8,
        ..fields
    }
}

// The carried bytes are as they are filled, so that they hold something else than the sum at its word.
fn write_into(rt: &impl Print, row: u64, word: usize, out: &mut [u8]) -> io::Result<()> {
    let mut filled = [0; 2160];
    build::packet_of(row - row % tables::FILL, 0, &mut filled);
    let end = CARRIED_AT + build::given(row, tables::CARRIED, CARRIED_SIZE as u64) as usize;
    if let (Some(carried), Ok(Packet { fields, arrays })) = (
        filled.get(CARRIED_AT..end),
        source(row),
    ) {
        let fields = fields_of(row, fields);
        judge(rt, row, word, &Packet { fields, arrays }, carried, out)?;
    }
    Ok(())
}

// Row i with its sum at a word, into an output whose bytes are all 165.
pub(crate) fn write_at(rt: &impl Print, i: usize, row: u64, word: usize) -> io::Result<()> {
    let mut room = [165; 2160];
    let length = build::given(row, tables::OUTPUT, PACKET_SIZE as u64) as usize;
    show::head(rt, "write", i, word)?;
    if let Some(out) = room.get_mut(..length) {
        write_into(rt, row, word, out)?;
    }
    if room == [165; 2160] {
        rt.print(", output the same")?;
    }
    println!(rt)
}

pub(crate) fn write(rt: &impl Print, i: usize, row: u64) -> io::Result<()> {
    let word = build::given(row, tables::WORD, PUBLISHED_SUM_WORD as u64);
    write_at(rt, i, row, word as usize)
}
