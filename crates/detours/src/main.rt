// detours SHEET FAULTS ASKS: a line for each ask.
#![tactic(auto)]

fn main(rt: HostRuntime) {
    desk::run(&rt, 1);
}
