// Proof files, the line reader and the shorter of two proofs, on real proofs and on damaged ones.
#![tactic(auto)]

mod choosing; // the shorter of two
mod damage; // a file with each bit damaged in turn
mod files; // the limits of writing and reading
mod no_workspace; // refusal 1's small example
mod proved; // what must hold of every proof
mod random; // random workspaces and their proofs
mod reading; // line by line
mod replies; // what the library replies here
mod sample; // a workspace that has a proof of every kind

use std::io;
use test_tools::bytes::FILLER;

// The proofs of the sample's calls.
fn proofs(rt: &impl Print, proof: &mut [u8]) -> io::Result<()> {
    let w = sample::workspace(proof);
    let n = sample::prove(w, proof);
    if let Some(lines) = proof.get(..n) {
        damage::all(rt, w, lines)?;
        choosing::lists(rt, w, lines)?;
    }
    choosing::earlies(rt, w)?;
    choosing::clash(rt, w, proof)
}

fn main(rt: HostRuntime) -> io::Result<()> {
    let mut proof = [FILLER; 65536];
    let w = no_workspace::own_child();
    no_workspace::changes(&rt, w, &mut proof)?;
    no_workspace::questions(&rt, w, &mut proof)?;
    files::all(&rt)?;
    reading::all(&rt)?;
    proofs(&rt, &mut proof)?;
    random::all(&rt, &mut proof)
}
