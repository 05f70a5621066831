// Class numbers and sizes: a class's lowest functor node, or else its lowest variable.
use super::edges;
use std::io;
use test_tools::replies::{Answer, Reply};
use test_tools::workspaces::{equated, functor, variable};
use unifier::Workspace;

fn class(rt: &impl Print, what: &str, w: Workspace, u: u16) -> io::Result<()> {
    let reply = Answer::class(w.class_of(u)).reply;
    match reply {
        Reply::Class { number, size } => {
            println!(rt; "{what}, class of {u}: number {number}, size {size}")
        }
        _ => println!(rt; "{what}, class of {u}: refused {}", reply.number()),
    }
}

// 0 and 3 are variables, 1 is symbol 0, 2 and 4 are symbol 7, all without children.
fn five() -> Workspace {
    let a = functor(edges::declared(1), 0, &[]);
    let b = variable(functor(a, 7, &[]));
    functor(b, 7, &[])
}

fn alone(rt: &impl Print, w: Workspace) -> io::Result<()> {
    class(rt, "alone", w, 0)?;
    class(rt, "alone", w, 1)?;
    class(rt, "alone", w, 5)
}

// Symbol 0 is a type as any other.
fn two(rt: &impl Print, w: Workspace, proof: &mut [u8]) -> io::Result<Workspace> {
    let a = equated(w, 1, 0, 1, proof);
    class(rt, "0 = 1", a, 0)?;
    class(rt, "0 = 1", a, 1)?;
    let b = a.withdraw(1).workspace;
    class(rt, "withdrawn", b, 0)?;
    class(rt, "withdrawn", b, 1)?;
    Ok(b)
}

fn four(rt: &impl Print, w: Workspace, proof: &mut [u8]) -> io::Result<()> {
    let a = equated(w, 2, 0, 3, proof);
    class(rt, "0 = 3", a, 3)?;
    let b = equated(a, 3, 3, 4, proof);
    class(rt, "0 = 3 = 4", b, 0)?;
    let c = equated(b, 4, 4, 2, proof);
    class(rt, "0 = 3 = 4 = 2", c, 0)?;
    class(rt, "0 = 3 = 4 = 2", c, 4)
}

// Equations from 0 = 1 on, each of a node with the next.
fn chained(w: Workspace, proof: &mut [u8], times: u8) -> Workspace {
    let mut w = w;
    for u in 0..times {
        let u = u16::from(u);
        w = equated(w, u, u, u + 1, proof);
    }
    w
}

// Node 63 is a functor node, the others are variables.
fn all_nodes(rt: &impl Print, proof: &mut [u8]) -> io::Result<()> {
    let w = chained(functor(edges::declared(63), 7, &[]), proof, 62);
    class(rt, "63 variables", w, 62)?;
    let full = equated(w, 62, 62, 63, proof);
    class(rt, "64 nodes", full, 0)?;
    class(rt, "64 nodes", full, 63)?;
    class(rt, "64 nodes", full, 64)
}

pub fn all(rt: &impl Print) -> io::Result<()> {
    let mut proof = [0; 65536];
    let w = five();
    alone(rt, w)?;
    let back = two(rt, w, &mut proof)?;
    four(rt, back, &mut proof)?;
    all_nodes(rt, &mut proof)
}
