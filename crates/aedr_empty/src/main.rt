// The check program on an empty input.
#![tactic(auto)]

fn main(rt: HostRuntime) {
    aedr_io::check_file(&mut rt.stdin(), &mut rt.stdout(), &mut rt.stderr());
}
