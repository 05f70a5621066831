// Refusal 1's small example: node 0 has child 0. Every call refuses it; clear takes it, and what it gives is a workspace without nodes.
use super::{replies, sample};
use std::io;
use test_tools::replies::Answer;
use test_tools::workspaces;
use unifier::Workspace;

pub fn own_child() -> Workspace {
    let mut w = Workspace::fresh();
    w.terms.count = 1;
    w.terms.kind[0] = 1;
    w.terms.arity[0] = 1;
    w
}

// A refusal's number, or 0.
fn told(rt: &impl Print, call: &str, number: u8) -> io::Result<()> {
    println!(rt; "{call}: refused {number}")
}

fn asked(rt: &impl Print, call: &str, a: Answer) -> io::Result<()> {
    told(rt, call, a.reply.number())
}

pub fn changes(rt: &impl Print, w: Workspace, proof: &mut [u8]) -> io::Result<()> {
    asked(
        rt,
        "node 0 has child 0, declare a variable",
        Answer::node(w.declare_variable()),
    )?;
    asked(
        rt,
        "declare a functor node",
        Answer::node(w.declare_functor(1, &[])),
    )?;
    asked(rt, "equate", Answer::held(w.equate(10, 0, 0, proof)))?;
    asked(rt, "withdraw", Answer::gone(w.withdraw(10)))
}

pub fn questions(rt: &impl Print, w: Workspace, proof: &mut [u8]) -> io::Result<()> {
    let line = [3, 0, 0, 0, 0, 0, 0, 0];
    let x = sample::same(0, 0);
    asked(rt, "compare", Answer::stand(w.compare(0, 0, proof)))?;
    asked(rt, "class", Answer::class(w.class_of(0)))?;
    asked(rt, "check", workspaces::check(w, x, &line))?;
    let neither = replies::choose(w, x, &line, &line).err();
    let number = neither.map_or(
        0,
        |n| if n.list.is_none() {
            n.refusal.number()
        } else {
            0
        },
    );
    told(rt, "shorter of two", number)?;
    asked(
        rt,
        "clear, then class of node 0",
        Answer::class(w.clear().class_of(0)),
    )
}
