// The command that its words are: see program.
#![tactic(auto)]

fn main(rt: HostRuntime) {
    program::run(&rt);
}
