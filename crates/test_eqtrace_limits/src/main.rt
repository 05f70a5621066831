// Document 001, section 2; then 64 nodes and 65, 256 equations and 257, a place freed and taken again.
#![tactic(auto)]

use std::io;

fn main(rt: HostRuntime) -> io::Result<()> {
    eqtrace_console::run(&mut rt.stdin(), &mut rt.stdout())
}
