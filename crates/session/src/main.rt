// The session on standard input.

#![tactic(auto)]

fn main(rt: HostRuntime) {
    console::session(&rt, &mut rt.stdin(), &mut rt.stdout());
}
