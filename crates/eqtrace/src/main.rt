// The program `eqtrace`.
#![tactic(auto)]

use std::io;

fn main(rt: HostRuntime) -> io::Result<()> {
    eqtrace_console::run(&mut rt.stdin(), &mut rt.stdout())
}
