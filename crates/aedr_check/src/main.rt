// Checks the AEDR file on standard input: a line for each 1,230-byte piece, with its number and its answer, then the total.
#![tactic(auto)]

fn main(rt: HostRuntime) {
    aedr_io::check_file(&mut rt.stdin(), &mut rt.stdout(), &mut rt.stderr());
}
