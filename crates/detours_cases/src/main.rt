// The program over one triple of arguments after another, with a line before each: the cases that one run of it cannot hold. The last two
// triples lie partly and wholly past the arguments.
#![tactic(auto)]

fn main(rt: HostRuntime) {
    for number in 1..23 {
        let _ = println!(rt; "-- {number}");
        desk::run(&rt, 3 * number - 2);
    }
}
