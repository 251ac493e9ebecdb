// The load program on an input of one byte more than a load may have, which it must tell from a load.
#![tactic(auto)]

use input::answer;
use std::io;

fn main(rt: HostRuntime) -> io::Result<()> {
    answer(rt.stdin(), &mut rt.stdout(), rt.alloc())
}
