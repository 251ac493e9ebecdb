// Runs a load from standard input, and prints what each line gives.
#![tactic(auto)]

use input::answer;
use std::io;

fn main(rt: HostRuntime) -> io::Result<()> {
    answer(rt.stdin(), &mut rt.stdout(), rt.alloc())
}
