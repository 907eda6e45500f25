// The program as `rt` starts it. Its status is always 0, since `main` returns nothing: `tools/dustmap` starts the same function from C, and
// hands its status on.
#![tactic(auto)]

fn main(rt: HostRuntime) {
    program::whole_run(&mut rt.stdin(), &mut rt.stdout(), &rt.stderr());
}
