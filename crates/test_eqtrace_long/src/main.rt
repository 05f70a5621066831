// An input of 65,537 bytes, `K` among them.
#![tactic(auto)]

use std::io;

fn main(rt: HostRuntime) -> io::Result<()> {
    eqtrace_console::run(&mut rt.stdin(), &mut rt.stdout())
}
