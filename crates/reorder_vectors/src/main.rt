// Vectors of the reorder buffer: histories of calls, on both sides of every boundary that decides about them. The table files have the rows,
// cases.rt says what a row means, and each call prints one line. What they have to print, in the file stdout, was worked out apart from this
// program and the library.
#![tactic(auto)]

mod arrivals;
mod build;
mod calls;
mod cases;
mod clocks;
mod ends;
mod mixed;
mod refusals;
mod registers;
mod rows;
mod show;

use std::io::Stdout;

// The rows of a table, the first of which starts a history.
fn run_all(stdout: Stdout, table: &[u64], store: &mut [u8], out: &mut [u8]) {
    let mut r = registers::fresh();
    for row in table {
        r = rows::run(stdout, *row, r, store, out);
    }
}

fn run_first(stdout: Stdout, store: &mut [u8], out: &mut [u8]) {
    run_all(stdout, &arrivals::ROWS, store, out);
    run_all(stdout, &clocks::ROWS, store, out);
}

fn run_ends(stdout: Stdout, store: &mut [u8], out: &mut [u8]) {
    run_all(stdout, &ends::ROWS, store, out);
}

fn run_last(stdout: Stdout, store: &mut [u8], out: &mut [u8]) {
    run_all(stdout, &refusals::ROWS, store, out);
    run_all(stdout, &mixed::ROWS, store, out);
}

fn run_tables(stdout: Stdout, store: &mut [u8], out: &mut [u8]) {
    run_first(stdout, store, out);
    run_ends(stdout, store, out);
    run_last(stdout, store, out);
}

// Store and output have a byte more than the calls take, so that a length over the right one can be given too.
fn main(rt: HostRuntime) {
    let stdout = rt.stdout();
    let mut store = [0; 34561];
    let mut out = [0; 34561];
    show::text(
        stdout,
        "threshold and sum word; packet: count, coarse time, bytes, damage\n",
    );
    show::text(
        stdout,
        "session: anchor count, anchor time, sum word, threshold, next, marks\n",
    );
    show::text(stdout, "bytes: digests of the store and the output\n");
    run_tables(stdout, &mut store, &mut out);
}
