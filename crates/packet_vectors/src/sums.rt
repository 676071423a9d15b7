// The sums of the words of bytes: of all of them, and of the two parts that a cut before a word gives.
use crate::{build, show, tables};
use packet_layout::{PACKET_SIZE, PUBLISHED_SUM_WORD};
use std::io;

fn show_sums(rt: &impl Print, bytes: &[u8], word: usize) -> io::Result<()> {
    let n = bytes.len();
    let (front, back) = bytes.split_at((word.min(n) * 2).min(n));
    print!(rt; ": sum {}", checksum::word_sum(bytes))?;
    print!(rt;
        ", parts {} {}",
        checksum::word_sum(front),
        checksum::word_sum(back)
    )
}

// As many bytes of row i as it asks for.
pub(crate) fn sum(rt: &impl Print, i: usize, row: u64) -> io::Result<()> {
    let mut room = [0; 2160];
    let length = build::given(row, tables::SIZE, PACKET_SIZE as u64) as usize;
    let word = build::given(row, tables::WORD, 0) as usize;
    show::head(rt, "sum", i, word)?;
    print!(rt; " len {length}")?;
    if let Some(bytes) = room.get_mut(..length) {
        build::packet_of(row, PUBLISHED_SUM_WORD, bytes);
        show_sums(rt, bytes, word)?;
    }
    println!(rt)
}
