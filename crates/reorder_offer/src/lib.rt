// The opening of a reorder buffer, and the offer of a packet (document 01, "The rack").
#![tactic(auto)]

ghost use Rattle.std.specs.Prelude.{◌≡◌, length};
ghost use Rattle.octets.specs.Bytes.{put};
ghost use Rattle.octets.specs.Refusal.{say};
ghost use Rattle.refusal.specs.Number.{said};
ghost use Rattle.packet_layout.specs.Layout.{packet_size};
ghost use Rattle.packet.specs.Fields.{fields_of};
ghost use Rattle.reorder_session.specs.Calls.{Offers};
ghost use Rattle.reorder_offer.specs.Opening.{opened, open_refusal, Opens, no_session};

use lent_record::Stepped;
use packet_layout::PACKET_SIZE;
use position::Anchor;
use refusal::Refusal;
use reorder_session::Session;
use window::{POSITIONS, Window};

// Stores an accepted packet in the store. Its length is told, so that the copy compiles to wide moves.
fn put_packet(packet: &[u8], at: usize, store: &mut [u8])
    requires { length packet.now ≡ packet_size }
    ensures { store.new ≡ put store.old at packet.now }
{
    octets::write_into(&packet[..PACKET_SIZE], at, store);
}

// Holds the packet at its position, in the position's 1,080 bytes of the store.
pub fn offer(
    session: Session,
    store: &mut [u8],
    packet: &[u8],
) -> Stepped<Result<u32, Refusal>, Session>
    ensures { Offers session store.old packet.now (said result.answer) result.session store.new }
{
    let answer = reorder_admission::offer_answer(session, store.len(), packet);
    let Ok(p) = answer else {
        return Stepped { answer, session };
    };
    put_packet(packet, PACKET_SIZE * (p % POSITIONS) as usize, store);
    let window = session.window.hold(p);
    Stepped {
        answer,
        session: session.with_window(window),
    }
}

// A session of all zeros.
pub fn no_session() -> Session
    ensures { result ≡ no_session }
{
    Session::default()
}

// The session that a packet opens, whose packets have their sum at sum_word; or refusals 20, 27 and the reader's 1 to 10.
fn opened_session(
    store_size: usize,
    packet: &[u8],
    threshold: u32,
    sum_word: u32,
) -> Result<Session, Refusal>
    ensures { said result ≡ say (open_refusal store_size packet.now threshold sum_word) (opened (fields_of packet.now) threshold sum_word) }
{
    if threshold < reorder_rules::LEAST_THRESHOLD || reorder_rules::MOST_THRESHOLD < threshold {
        return Err(Refusal::Threshold);
    }
    if store_size != reorder_rules::STORE_SIZE {
        return Err(Refusal::StoreSize);
    }
    let read = packet::read_answer(packet, sum_word as usize);
    let Ok(fields) = read else {
        return Err(read.unwrap_err());
    };
    Ok(Session {
        anchor: Anchor {
            count: u32::from(fields.count),
            time: fields.coarse_time,
        },
        sum_word,
        threshold,
        window: Window::first(),
    })
}

// Opens a session with this packet at position 0. A refused opening returns the session given.
pub fn open_or(
    session: Session,
    store: &mut [u8],
    packet: &[u8],
    threshold: u32,
    sum_word: u32,
) -> Stepped<Result<u32, Refusal>, Session>
    ensures { Opens session store.old packet.now threshold sum_word (said result.answer) result.session store.new }
{
    match opened_session(store.len(), packet, threshold, sum_word) {
        Ok(opened) => {
            put_packet(packet, 0, store);
            Stepped {
                answer: Ok(0),
                session: opened,
            }
        }
        Err(refusal) => Stepped {
            answer: Err(refusal),
            session,
        },
    }
}

// The same where no session is given: a refused opening returns one of all zeros.
pub fn open(
    store: &mut [u8],
    packet: &[u8],
    threshold: u32,
    sum_word: u32,
) -> Stepped<Result<u32, Refusal>, Session>
    ensures { Opens no_session store.old packet.now threshold sum_word (said result.answer) result.session store.new }
{
    open_or(no_session(), store, packet, threshold, sum_word)
}
