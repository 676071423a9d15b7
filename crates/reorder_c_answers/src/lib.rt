// The answers of a reorder buffer's calls in structs of numbers, and the descriptions of a drain's answers as 64 lent numbers, for callers in languages that
// have no such enums and structs.
#![tactic(auto)]

ghost use Rattle.std.specs.Prelude.{◌≡◌, ◌+◌, ◌*◌, ◌<◌, [], ◌∷◌, length};
ghost use Rattle.octets.specs.Bytes.{put};
ghost use Rattle.octets.specs.Refusal.{refused};
ghost use Rattle.refusal.specs.Number.{number, said};
ghost use Rattle.reorder_c_answers.specs.Listed.{listed, described_in};
ghost use Rattle.reorder_c_answers.specs.Answers.{refused_answer, turn_answer, held_answer, served_answer, passed_answer, drained_count};

use refusal::Refusal;
use reorder_rules::{MOST_ANSWERS, Turn};
use reorder_serve::Places;
use reorder_turn::Description;

// A refusal's number and zeros; or 0, a kind (0 Waiting, 1 a packet, 2 a missing position) and a position.
#[repr(C)]
#[derive(Clone, Copy, Default)]
pub struct Answer {
    pub refusal: u32,
    pub kind: u32,
    pub position: u32,
}

// A refusal's number and 0; or 0 and how many answers there were.
#[repr(C)]
#[derive(Clone, Copy, Default)]
pub struct Count {
    pub refusal: u32,
    pub count: u32,
}

// What a refusal with this number answers.
pub fn refused_answer(number: u8) -> Answer
    ensures { result ≡ refused_answer number }
{
    Answer {
        refusal: number as u32,
        ..Answer::default()
    }
}

// The same of a drain.
pub fn refused_count(number: u8) -> Count
    ensures { result ≡ drained_count (refused number) }
{
    Count {
        refusal: number as u32,
        count: 0,
    }
}

impl From<Refusal> for Answer {
    ghost from_gives = { λ refusal answer. answer ≡ refused_answer (number refusal) };

    fn from(refusal: Refusal) -> Answer {
        refused_answer(u8::from(refusal))
    }
}

// An answer of serving, by its description.
impl From<Turn> for Answer {
    ghost from_gives = { λ turn answer. answer ≡ turn_answer turn };

    fn from(turn: Turn) -> Answer {
        let told = Description::from(turn);
        Answer {
            refusal: 0,
            kind: told.kind,
            position: told.position,
        }
    }
}

// The numbers of what a serve answers: its number, and its description.
pub fn served_answer(answer: Result<Turn, Refusal>) -> Answer
    ensures { result ≡ served_answer (said answer) }
{
    let description = reorder_turn::describe(answer);
    Answer {
        refusal: refusal::number_of(answer) as u32,
        kind: description.kind,
        position: description.position,
    }
}

// The numbers of what an opening or an offer answers: a packet, at the position that it is held at.
pub fn held_answer(answer: Result<u32, Refusal>) -> Answer
    ensures { result ≡ held_answer (said answer) }
{
    match answer {
        Ok(position) => Answer::from(Turn::Packet(position)),
        Err(refusal) => Answer::from(refusal),
    }
}

// The numbers of what a pass answers: that a position is missing.
pub fn passed_answer(answer: Result<u32, Refusal>) -> Answer
    ensures { result ≡ passed_answer (said answer) }
{
    match answer {
        Ok(position) => Answer::from(Turn::Missing(position)),
        Err(refusal) => Answer::from(refusal),
    }
}

// The numbers of what a drain answers.
pub fn drained_count(answer: Result<u32, Refusal>) -> Count
    ensures { result ≡ drained_count (said answer) }
{
    match answer {
        Ok(count) => Count { refusal: 0, count },
        Err(refusal) => refused_count(u8::from(refusal)),
    }
}

// How many numbers describe the answers of a drain: a kind and a position for each that it can give.
pub const DESCRIPTION_NUMBERS: usize = 2 * MOST_ANSWERS;

// Stores a description's kind and position in its two places.
fn put_description(description: Description, i: usize, numbers: &mut [u32])
    requires { 2 * i + 1 < length numbers.old }
    ensures { numbers.new ≡ put numbers.old (2 * i) (listed (description ∷ [])) }
{
    numbers[2 * i] = description.kind;
    numbers[2 * i + 1] = description.position;
}

// Stores the kind and the position of each description. They are lent as a slice, whose length is known.
pub fn put_descriptions(
    descriptions: [Description; MOST_ANSWERS],
    out: &mut [u32; DESCRIPTION_NUMBERS],
)
    ensures { out.new ≡ listed descriptions }
{
    let numbers = &mut out[..];
    for (i, description) in descriptions.iter().enumerate() {
        put_description(*description, i, numbers);
    }
}

// A drain's places in the lent numbers: an answer's description.
pub struct DescriptionPlaces;

impl Places<[u32; DESCRIPTION_NUMBERS]> for DescriptionPlaces {
    ghost stored = { described_in };

    #[tactic(auto, using(octets::proofs::Store::put_past))]
    fn store(numbers: &mut [u32; DESCRIPTION_NUMBERS], i: u32, turn: Turn) {
        let i = i as usize;
        if i < MOST_ANSWERS {
            put_description(Description::from(turn), i, numbers);
        }
    }
}
