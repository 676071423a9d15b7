// The sum of the words of any bytes, and the packet sum. Both are added from the lent bytes in place.
#![tactic(auto)]

ghost use Rattle.std.specs.Prelude.{◌≡◌, ◌+◌, ◌*◌, ◌%◌, length, slice_index};
ghost use Rattle.checksum.specs.Sum.{word_sum, packet_sum};

// Two bytes, the lower half of a word and the upper half of the next, as they count in the sum.
fn halves(pair: &[u8]) -> u16
    requires { length pair.now ≡ 2 }
    ensures { result ≡ slice_index pair.now 0 + slice_index pair.now 1 * 256 }
{
    u16::from_le_bytes([pair[0], pair[1]])
}

// The sum of all words of any bytes, carries out of 16 bits dropped. After the first byte it takes the bytes in pairs that lie across two words:
// such a pair is a number in the machine's own byte order, so that the loop compiles to wide loads and adds.
pub fn word_sum(bytes: &[u8]) -> u16
    ensures { result ≡ word_sum bytes.now % 65536 }
{
    let Some((first, rest)) = bytes.split_first() else {
        return 0;
    };
    let mut sum = u16::from(*first) * 256;
    let pairs = rest.chunks_exact(2);
    let last = octets::u8_at(pairs.remainder(), 0);
    for pair in pairs {
        let added = halves(pair);
        sum = sum.wrapping_add(added);
    }
    sum.wrapping_add(u16::from(last))
}

// The packet sum of any bytes, with the word sum_word taken as zero. Any word.
pub fn packet_sum(bytes: &[u8], sum_word: usize) -> u16
    ensures { result ≡ packet_sum bytes.now sum_word }
{
    let all = word_sum(bytes);
    if bytes.len() <= sum_word {
        return all;
    }
    all.wrapping_sub(octets::u16_at(bytes, sum_word * 2))
}
