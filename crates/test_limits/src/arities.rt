// One symbol, one number of children: a declaration that differs is refused with 18, and changes nothing.
use super::edges::{declared, told};
use std::io;
use test_tools::replies::Answer;
use test_tools::workspaces::{functor, variable};
use unifier::Workspace;

// A variable, and symbol 7 of it.
fn unary() -> Workspace {
    functor(declared(1), 7, &[0])
}

fn another(rt: &impl Print, w: Workspace) -> io::Result<()> {
    told(
        rt,
        "7(0), then 7(0, 0)",
        Answer::node(w.declare_functor(7, &[0, 0])),
    )?;
    told(
        rt,
        "7(0), then 7()",
        Answer::node(w.declare_functor(7, &[])),
    )?;
    told(
        rt,
        "7(0), then 7(1)",
        Answer::node(w.declare_functor(7, &[1])),
    )?;
    told(
        rt,
        "7(0), then 8(0, 0)",
        Answer::node(w.declare_functor(8, &[0, 0])),
    )?;
    told(
        rt,
        "7(0), then 71(0, 0)",
        Answer::node(w.declare_functor(71, &[0, 0])),
    )?;
    told(
        rt,
        "7(0), then a variable",
        Answer::node(w.declare_variable()),
    )?;
    Ok(())
}

// 71 and 7 leave one remainder by 64.
fn remainders(rt: &impl Print, w: Workspace) -> io::Result<()> {
    let a = functor(w, 71, &[0, 1]);
    told(
        rt,
        "7(0), 71(0, 1), then 71(0, 1)",
        Answer::node(a.declare_functor(71, &[0, 1])),
    )?;
    told(
        rt,
        "7(0), 71(0, 1), then 71(0)",
        Answer::node(a.declare_functor(71, &[0])),
    )?;
    told(
        rt,
        "7(0), 71(0, 1), then 7(0)",
        Answer::node(a.declare_functor(7, &[0])),
    )?;
    Ok(())
}

// A variable is no functor node of symbol 0.
fn symbol_0(rt: &impl Print) -> io::Result<()> {
    let w = declared(1);
    told(
        rt,
        "a variable, then 0(0)",
        Answer::node(w.declare_functor(0, &[0])),
    )?;
    told(
        rt,
        "a variable, 0(), then 0(0)",
        Answer::node(functor(w, 0, &[]).declare_functor(0, &[0])),
    )?;
    Ok(())
}

// Refusals 2, 3 and 4 come before 18; 64 nodes with symbol 7 of the first.
fn order(rt: &impl Print, w: Workspace) -> io::Result<()> {
    let full = functor(declared(63), 7, &[0]);
    told(
        rt,
        "64 nodes, 7(0) among them, then 7(0, 0)",
        Answer::node(full.declare_functor(7, &[0, 0])),
    )?;
    told(
        rt,
        "7(0), then 7 of five",
        Answer::node(w.declare_functor(7, &[0, 0, 0, 0, 0])),
    )?;
    told(
        rt,
        "7(0), then 7(0, 2)",
        Answer::node(w.declare_functor(7, &[0, 2])),
    )?;
    Ok(())
}

// A refused declaration fixes no number.
fn refused_before(rt: &impl Print) -> io::Result<()> {
    let fresh = Workspace::fresh();
    let a = variable(told(
        rt,
        "fresh, 7(0)",
        Answer::node(fresh.declare_functor(7, &[0])),
    )?);
    let b = told(
        rt,
        "then a variable and 7(0, 0)",
        Answer::node(a.declare_functor(7, &[0, 0])),
    )?;
    let c = told(rt, "then 7(0)", Answer::node(b.declare_functor(7, &[0])))?;
    told(
        rt,
        "then 7(0, 0)",
        Answer::node(c.declare_functor(7, &[0, 0])),
    )?;
    Ok(())
}

// A withdrawal frees no symbol, a clearing does.
fn freed(rt: &impl Print, w: Workspace, proof: &mut [u8]) -> io::Result<()> {
    let a = told(rt, "7(0), 1 = 1", Answer::held(w.equate(5, 1, 1, proof)))?;
    let b = told(rt, "then withdrawn", Answer::gone(a.withdraw(5)))?;
    let c = told(rt, "then 7()", Answer::node(b.declare_functor(7, &[])))?;
    told(
        rt,
        "then cleared and 7()",
        Answer::node(c.clear().declare_functor(7, &[])),
    )?;
    Ok(())
}

pub fn all(rt: &impl Print) -> io::Result<()> {
    let mut proof = [0; 65536];
    let w = unary();
    another(rt, w)?;
    remainders(rt, w)?;
    symbol_0(rt)?;
    order(rt, w)?;
    refused_before(rt)?;
    freed(rt, w, &mut proof)
}
