// What a row does.
use crate::cases::Call;
use crate::registers::Registers;
use crate::{calls, cases, registers, show};
use std::io::Stdout;

// The store at the start of a history.
fn fill(store: &mut [u8]) {
    for (k, byte) in store.iter_mut().enumerate() {
        *byte = ((31 * (k % 65536) + k % 65536 / 256) % 256) as u8;
    }
}

fn start(stdout: Stdout, row: u64, store: &mut [u8]) -> Registers {
    show::named(stdout, "history", u64::from(cases::number(row)));
    show::text(stdout, "\n");
    fill(store);
    registers::fresh()
}

// A row's call for the k-th time, from 0: an offer's position grows.
fn again(row: u64, k: u64) -> u64 {
    match cases::call_of(row) {
        Call::Offer => cases::offer_of(row, k),
        _ => row,
    }
}

fn call_row(
    stdout: Stdout,
    row: u64,
    mut r: Registers,
    store: &mut [u8],
    out: &mut [u8],
) -> Registers {
    for k in 0..=cases::digit(row, cases::MORE) % 10 {
        r.session = calls::call(stdout, again(row, k), r, store, out);
    }
    r
}

// The calls of EACH that take no packet.
fn call_without_packet(stdout: Stdout, row: u64, r: Registers, store: &mut [u8], out: &mut [u8]) {
    let at_store = cases::digit(row, cases::STORE) % 10 * cases::STORE;
    calls::call(stdout, cases::PASS + at_store, r, store, out);
    calls::call(stdout, cases::DRAIN + at_store + 32, r, store, out);
    calls::call(stdout, cases::SERVE + at_store, r, store, out);
}

// The calls of EACH. None keeps its session, so that each is made from the same one.
fn call_each(stdout: Stdout, row: u64, r: Registers, store: &mut [u8], out: &mut [u8]) {
    call_without_packet(stdout, row, r, store, out);
    calls::call(stdout, cases::offer_of(row, 0), r, store, out);
}

pub(crate) fn run(
    stdout: Stdout,
    row: u64,
    r: Registers,
    store: &mut [u8],
    out: &mut [u8],
) -> Registers {
    match cases::call_of(row) {
        Call::Each => {
            call_each(stdout, row, r, store, out);
            r
        }
        Call::Set => registers::set(row, r),
        Call::History => start(stdout, row, store),
        Call::Make => registers::make(row, r),
        _ => call_row(stdout, row, r, store, out),
    }
}
