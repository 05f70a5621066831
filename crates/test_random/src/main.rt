// The library held against another solver and another checker, over random graphs and random lists of calls from a fixed seed.
#![tactic(auto)]

mod calls; // the calls that change the workspace
mod counts; // what is counted
mod picks; // what is random
mod proofs; // written proofs, and damaged ones
mod questions; // the calls that change nothing
mod run; // what a run is made of

use run::Run;
use std::io;

const ROUNDS: usize = 200;

fn main(rt: HostRuntime) -> io::Result<()> {
    let mut run = Run::new(88172645463325252);
    for _ in 0..ROUNDS {
        run.round();
    }
    run.counts.show(&rt)
}
