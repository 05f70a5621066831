// Examples at the limits, class numbers, numbers of children, and damaged workspaces.
#![tactic(auto)]

mod arities; // refusal 18
mod classes; // which node a class shows
mod damaged; // workspaces with one bad field
mod edges; // 64 nodes, 256 equations, 8,192 lines, 65,536 bytes

use std::io;
use test_tools::bytes::FILLER;

fn main(rt: HostRuntime) -> io::Result<()> {
    let mut proof = [FILLER; 65536];
    edges::nodes(&rt)?;
    edges::equations(&rt, &mut proof)?;
    edges::lines(&rt)?;
    edges::buffers(&rt, &mut proof)?;
    classes::all(&rt)?;
    arities::all(&rt)?;
    damaged::all(&rt, &mut proof)
}
