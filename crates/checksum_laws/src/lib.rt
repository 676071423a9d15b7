// The sum of words of bytes that are cut in two, of the definition and of the code.
#![tactic(auto)]

ghost use Rattle.std.specs.Prelude.{◌≡◌};
ghost use Rattle.checksum_laws.specs.Parts.{PartsAdd, part_sums};

// The sums of the words of two parts, and both added.
#[derive(Clone, Copy)]
pub struct PartSums {
    pub before: u16,
    pub after: u16,
    pub whole: u16,
}

// Cut at any even byte, the sums of the two parts add to that of the whole.
pub fn parts_add()
    ensures { PartsAdd }
{}

// Cuts the bytes before a word, sums both parts and adds the two sums, carries out of 16 bits dropped: the sum of the whole. Any bytes, and any
// word: past the end the second part is empty.
pub fn sum_in_parts(bytes: &[u8], word: usize) -> PartSums
    ensures { result ≡ part_sums bytes.now word }
{
    let n = bytes.len();
    // At most n first, so that twice the word does not overflow.
    let cut = (word.min(n) * 2).min(n);
    let (first, second) = bytes.split_at(cut);
    let before = checksum::word_sum(first);
    let after = checksum::word_sum(second);
    PartSums {
        before,
        after,
        whole: before.wrapping_add(after),
    }
}
