// An input of 65,536 bytes, `K` among them, most of them one order.
#![tactic(auto)]

use std::io;

fn main(rt: HostRuntime) -> io::Result<()> {
    eqtrace_console::run(&mut rt.stdin(), &mut rt.stdout())
}
