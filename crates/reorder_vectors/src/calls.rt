// The calls, one line each. Each but the opening by value goes by way of a lent session record to the call by value.
use crate::cases::Call;
use crate::registers::Registers;
use crate::{build, cases, show};
use lent_record::Stepped;
use refusal::Refusal;
use reorder_rules::{MOST_ANSWERS, Turn};
use reorder_serve::Report;
use reorder_session::Session;
use reorder_turn::Description;
use std::io::Stdout;

fn store_length(row: u64) -> usize {
    match cases::digit(row, cases::STORE) {
        1 => 0,
        2 => 34559,
        3 => 34561,
        4 => 1080,
        _ => 34560,
    }
}

fn output_length(row: u64) -> usize {
    match cases::digit(row, cases::OUTPUT) {
        1 => 0,
        2 => 1079,
        3 => 1080,
        4 => 1081,
        5 => 34559,
        6 => 34561,
        7 => 2160,
        8 => 1,
        _ => 34560,
    }
}

fn refused(stdout: Stdout, refusal: Refusal) {
    show::named(stdout, ": refused", u64::from(u8::from(refusal)));
}

fn offered(stdout: Stdout, answer: Result<u32, Refusal>) {
    match answer {
        Ok(p) => show::named(stdout, ": held", u64::from(p)),
        Err(refusal) => refused(stdout, refusal),
    }
}

// An opening by value or over the session, or an offer.
fn call_with(
    row: u64,
    r: Registers,
    store: &mut [u8],
    packet: &[u8],
) -> Stepped<Result<u32, Refusal>, Session> {
    let threshold = r.told_threshold;
    let sum_word = r.told_word;
    match cases::call_of(row) {
        Call::Open => reorder_offer::open(store, packet, threshold, sum_word),
        Call::OpenOr => reorder_local::open(r.session, store, packet, threshold, sum_word),
        _ => reorder_local::offer(r.session, store, packet),
    }
}

// The same with the row's packet. What a call leaves is the session that it returns.
fn call_packet(stdout: Stdout, row: u64, r: Registers, store: &mut [u8]) -> Session {
    let bytes = build::packet_of(row, r);
    let length = build::length(row);
    if 1081 < length {
        return r.session;
    }
    let made = call_with(row, r, store, &bytes[0..length]);
    offered(stdout, made.answer);
    made.session
}

fn served(stdout: Stdout, answer: Result<Turn, Refusal>) {
    match answer {
        Ok(Turn::Packet(p)) => show::named(stdout, ": packet", u64::from(p)),
        Ok(Turn::Missing(p)) => show::named(stdout, ": missing", u64::from(p)),
        Ok(Turn::Waiting) => show::text(stdout, ": waiting"),
        Err(refusal) => refused(stdout, refusal),
    }
}

fn call_serve(stdout: Stdout, session: Session, store: &[u8], out: &mut [u8]) -> Session {
    let made = reorder_local::serve(session, out, store);
    served(stdout, made.answer);
    made.session
}

// The descriptions of the first n turns, and the digest of all.
fn described(stdout: Stdout, n: usize, turns: &[Turn; MOST_ANSWERS]) {
    let mut digest = 1;
    for (k, turn) in turns.iter().enumerate() {
        let one = Description::from(*turn);
        if k < n {
            show::entry(stdout, u64::from(one.kind));
            show::entry(stdout, u64::from(one.position));
        }
        digest = show::digested(digest, u64::from(one.kind));
        digest = show::digested(digest, u64::from(one.position));
    }
    show::named(stdout, ", all 32", digest);
}

fn drained(stdout: Stdout, report: &Report) {
    match report.answer {
        Ok(n) => {
            show::named(stdout, ": count", u64::from(n));
            described(stdout, n as usize, &report.turns);
        }
        Err(refusal) => {
            refused(stdout, refusal);
            described(stdout, 0, &report.turns);
        }
    }
}

fn call_drain(
    stdout: Stdout,
    budget: u32,
    session: Session,
    store: &[u8],
    out: &mut [u8],
) -> Session {
    let made = reorder_local::drain(session, out, store, budget);
    drained(stdout, &made.answer);
    made.session
}

// A serve or a drain, with as much of the output as it is to be given.
fn call_with_output(
    stdout: Stdout,
    row: u64,
    session: Session,
    store: &[u8],
    out: &mut [u8],
) -> Session {
    let length = output_length(row);
    show::named(stdout, " output", length as u64);
    if out.len() < length {
        return session;
    }
    match cases::call_of(row) {
        Call::Serve => call_serve(stdout, session, store, &mut out[0..length]),
        _ => call_drain(
            stdout,
            cases::number(row),
            session,
            store,
            &mut out[0..length],
        ),
    }
}

fn passed(stdout: Stdout, answer: Result<u32, Refusal>) {
    match answer {
        Ok(p) => show::named(stdout, ": missing", u64::from(p)),
        Err(refusal) => refused(stdout, refusal),
    }
}

fn call_pass(stdout: Stdout, session: Session) -> Session {
    let made = reorder_local::pass(session);
    passed(stdout, made.answer);
    made.session
}

// A call of any kind. What it leaves is the session that it returns.
fn call_any(stdout: Stdout, row: u64, r: Registers, store: &mut [u8], out: &mut [u8]) -> Session {
    let session = r.session;
    match cases::call_of(row) {
        Call::Serve | Call::Drain => call_with_output(stdout, row, session, store, out),
        Call::Pass => call_pass(stdout, session),
        _ => call_packet(stdout, row, r, store),
    }
}

// The same with as much of the store as it is to be given.
fn call_with_store(
    stdout: Stdout,
    row: u64,
    r: Registers,
    store: &mut [u8],
    out: &mut [u8],
) -> Session {
    let length = store_length(row);
    show::named(stdout, " store", length as u64);
    if store.len() < length {
        return r.session;
    }
    call_any(stdout, row, r, &mut store[0..length], out)
}

// How the line of an opening starts: what it is told, and its packet.
fn head_opening(stdout: Stdout, name: &str, row: u64, r: Registers) {
    show::text(stdout, name);
    show::named(stdout, " threshold", u64::from(r.told_threshold));
    show::entry(stdout, u64::from(r.told_word));
    build::show(stdout, row, r);
}

// What a line starts with: the call, and what it is told.
fn head(stdout: Stdout, row: u64, r: Registers) {
    match cases::call_of(row) {
        Call::Open => head_opening(stdout, "open", row, r),
        Call::OpenOr => head_opening(stdout, "open_or", row, r),
        Call::Offer => {
            show::text(stdout, "offer");
            build::show(stdout, row, r);
        }
        Call::Serve => show::text(stdout, "serve"),
        Call::Drain => show::named(stdout, "drain budget", u64::from(cases::number(row))),
        Call::Pass => show::text(stdout, "pass"),
        _ => {}
    }
}

// What it ends with: the session, and digests of the whole store and output.
fn tail(stdout: Stdout, session: Session, store: &[u8], out: &[u8]) {
    show::session(stdout, session);
    show::named(stdout, ", bytes", show::digest(store));
    show::entry(stdout, show::digest(out));
    show::text(stdout, "\n");
}

// A call, one line of it, and the session that it leaves.
pub(crate) fn call(
    stdout: Stdout,
    row: u64,
    r: Registers,
    store: &mut [u8],
    out: &mut [u8],
) -> Session {
    head(stdout, row, r);
    // What the output has before a call.
    out.fill(165);
    let after = call_with_store(stdout, row, r, store, out);
    tail(stdout, after, store, out);
    after
}
