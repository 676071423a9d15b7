// The check of an AEDR file's pieces: what document 01's program prints, as text in lent bytes.
#![tactic(auto)]

ghost use Rattle.std.specs.Prelude.{◌≡◌, ◌+◌, ◌*◌, ◌<◌, ◌≤◌, ◌^◌, length, take};
ghost use Rattle.octets.specs.Bytes.{put};
ghost use Rattle.octets.specs.Refusal.{refusal_in};
ghost use Rattle.refusal.specs.Number.{said};
ghost use Rattle.aedr.specs.Decimal.{decimal};
ghost use Rattle.aedr.specs.Text.{TextAt};
ghost use Rattle.aedr.specs.Printed.{pieces_in, piece_count, answer_of, line, all_lines};
ghost use Rattle.aedr.specs.Chunks.{line_room, report as Chunks·report, closing, ChunksPrintTheWhole};

use refusal::Refusal;

// The size of an AEDR record, and of each piece but a short last one.
pub const PIECE: usize = 1230;

// The bytes of its transport header; the packet stands after them.
pub const HEADER: usize = 150;

// The room that `report` asks for each piece: a number of at most 20 digits, an answer of at most 2, and two bytes more.
pub const LINE_ROOM: usize = 24;

// The room that `close` asks: a word of 8 bytes, a number of at most 20 digits, and one byte more.
pub const TOTAL_ROOM: usize = 29;

// The pieces of a full chunk, its bytes, and the room for its lines: a program reads and prints so many at a time.
pub const CHUNK_PIECES: usize = 213;

pub const CHUNK: usize = CHUNK_PIECES * PIECE;

pub const CHUNK_ROOM: usize = CHUNK_PIECES * LINE_ROOM;

// Stores the text from index at on, and answers where it ends.
// No struct of out and at: a contract would have to follow out through its field, where TextAt names both.
fn put_text(out: &mut [u8], at: usize, text: &[u8]) -> usize
    requires { at + length text.now ≤ length out.old }
    ensures { TextAt out.old at text.now result out.new }
{
    octets::write_into(text, at, out);
    at + text.len()
}

// Stores n in decimal from index at on, and answers where it ends.
fn put_number(out: &mut [u8], at: usize, n: u64) -> usize
    requires { at + length (decimal n) ≤ length out.old }
    ensures { TextAt out.old at (decimal n) result out.new }
{
    let mut digits = itoa::Buffer::new();
    put_text(out, at, digits.format(n).as_bytes())
}

// Stores the line of one piece from index at on, and answers where it ends.
fn put_line(out: &mut [u8], at: usize, number: u64, answer: u8) -> usize
    requires { (at + line_room ≤ length out.old) × (answer < 100) }
    ensures text_at { TextAt out.old at (line number answer) result out.new }
    ensures upper_bound { result ≤ at + line_room }
{
    let space = put_number(out, at, number);
    let second = put_text(out, space, b" ");
    let end = put_number(out, second, answer as u64);
    put_text(out, end, b"\n")
}

// How many pieces n bytes are cut into, the last perhaps short.
pub fn count_pieces(n: usize) -> usize
    ensures { result ≡ pieces_in n }
{
    n.div_ceil(PIECE)
}

// The answer for a piece: that of its packet's check by the published sum word. A piece shorter than its header has an empty packet.
pub fn answer(piece: &[u8]) -> Result<(), Refusal>
    ensures { refusal_in (said result) ≡ answer_of piece.now }
{
    let start = HEADER.min(piece.len());
    packet_check::check_packet(&piece[start..], packet_layout::PUBLISHED_SUM_WORD)
}

// The number that is printed for a piece.
fn answer_number(piece: &[u8]) -> u8
    ensures { (result ≡ answer_of piece.now) × (result < 100) }
{
    refusal::number_of(answer(piece))
}

// Stores the lines of all the pieces, the first of which has the number done + 1.
fn put_lines(input: &[u8], done: u64, out: &mut [u8]) -> usize
    requires { (line_room * piece_count input.now ≤ length out.old) × (done + piece_count input.now < 2 ^ 64) }
    ensures text_at { TextAt out.old 0 (all_lines input.now done) result out.new }
    ensures upper_bound { result ≤ line_room * piece_count input.now }
{
    let mut at = 0;
    let mut number = done;
    for piece in input.chunks(PIECE) {
        number += 1;
        at = put_line(out, at, number, answer_number(piece));
    }
    at
}

// Stores the lines of the input's pieces at the start of out, and answers how many bytes they take. Where out has no
// LINE_ROOM bytes for each piece, or a number would not fit, it stores nothing and answers 0.
pub fn report(input: &[u8], done: u64, out: &mut [u8]) -> usize
    ensures value { (result ≡ length (Chunks·report input.now done (length out.old)))
        × (out.new ≡ put out.old 0 (Chunks·report input.now done (length out.old))) }
    ensures upper_bound { (result ≤ length out.new) × (result ≡ length (take result out.new)) }
{
    let count = count_pieces(input.len());
    if out.len() / LINE_ROOM < count || u64::MAX - done < count as u64 {
        return 0;
    }
    put_lines(input, done, out)
}

// Stores the closing line at the start of out, and answers how many bytes it takes. Where out has fewer than TOTAL_ROOM bytes, it stores
// nothing and answers 0.
pub fn close(n: u64, out: &mut [u8]) -> usize
    ensures value { (result ≡ length (closing n (length out.old)))
        × (out.new ≡ put out.old 0 (closing n (length out.old))) }
    ensures upper_bound { (result ≤ length out.new) × (result ≡ length (take result out.new)) }
{
    if out.len() < TOTAL_ROOM {
        return 0;
    }
    let word = put_text(out, 0, b"records ");
    let end = put_number(out, word, n);
    put_text(out, end, b"\n")
}

// The texts of an input that is read in chunks, one after the other, are what is to be printed for the whole input.
pub fn chunks_print_the_whole()
    ensures { ChunksPrintTheWhole }
{}
