// The limits, each reached and passed by one.
ghost use Rattle.std.specs.Prelude.{◌≡◌, ◌≤◌, length};

use std::io;
use test_solver::checker::{Claim, Goal, Question};
use test_tools::replies::{Answer, Reply};
use test_tools::workspaces;
use unifier::Workspace;

// A reply, in words. No `Display` of `Reply`: its arms would be these, with one word for eight replies that only this program uses.
fn said(rt: &impl Print, what: &str, reply: Reply) -> io::Result<()> {
    match reply {
        Reply::Refused(r) => println!(rt; "{what}: refused {}", r.number()),
        Reply::Node(u) => println!(rt; "{what}: node {u}"),
        Reply::Held => println!(rt; "{what}: held"),
        Reply::Gone => println!(rt; "{what}: gone"),
        _ => println!(rt; "{what}: passed"),
    }
}

pub fn told(rt: &impl Print, what: &str, a: Answer) -> io::Result<Workspace> {
    said(rt, what, a.reply)?;
    Ok(a.workspace)
}

// 64 nodes, and one more

pub fn declared(times: usize) -> Workspace {
    let mut w = Workspace::fresh();
    for _ in 0..times {
        w = workspaces::variable(w);
    }
    w
}

pub fn nodes(rt: &impl Print) -> io::Result<()> {
    let w = told(
        rt,
        "64th declaration",
        Answer::node(declared(63).declare_variable()),
    )?;
    told(rt, "65th declaration", Answer::node(w.declare_variable()))?;
    told(
        rt,
        "65th declaration, of a functor node",
        Answer::node(w.declare_functor(1, &[])),
    )?;
    println!(rt; "nodes: {}", w.terms.count)
}

// 256 equations, one more, and one place freed and taken again. Names from 0 on, of node 0 with node 1.

fn equated(proof: &mut [u8], times: u16) -> Workspace {
    let mut w = declared(2);
    for name in 0..times {
        w = workspaces::equated(w, name, 0, 1, proof);
    }
    w
}

fn equate(
    rt: &impl Print,
    what: &str,
    w: Workspace,
    name: u16,
    proof: &mut [u8],
) -> io::Result<Workspace> {
    told(rt, what, Answer::held(w.equate(name, 1, 0, proof)))
}

fn say_name(rt: &impl Print, w: &Workspace, k: u8) -> io::Result<()> {
    let name = w.equations.name[usize::from(k)];
    println!(rt; "name at place {k}: {name}")
}

pub fn equations(rt: &impl Print, proof: &mut [u8]) -> io::Result<()> {
    let a = equate(rt, "256th equation", equated(proof, 255), 256, proof)?;
    let b = equate(rt, "257th equation", a, 257, proof)?;
    let c = told(rt, "withdraw 100", Answer::gone(b.withdraw(100)))?;
    say_name(rt, &c, 100)?;
    say_name(rt, &c, 255)?;
    let d = equate(rt, "257th equation again", c, 257, proof)?;
    say_name(rt, &d, 255)?;
    let e = equate(rt, "one more", d, 258, proof)?;
    println!(rt; "equations: {}", e.equations.count)
}

// 8,192 lines, and one more: each line says that node 0 is itself

// The first n bytes of them.
fn check(rt: &impl Print, what: &str, w: Workspace, lines: &[u8], n: usize) -> io::Result<()>
    requires { n ≤ length lines.now }
{
    let x = Question {
        offer: None,
        goal: Goal::Claim(Claim::same(0, 0)),
    };
    said(rt, what, workspaces::check(w, x, &lines[..n]).reply)
}

fn checks(rt: &impl Print, lines: &[u8]) -> io::Result<()>
    requires { length lines.now ≡ 65544 }
{
    let w = declared(1);
    check(rt, "8192 lines", w, lines, 65536)?;
    check(rt, "8193 lines", w, lines, 65544)?;
    check(rt, "no lines", w, lines, 0)?;
    check(rt, "9 bytes", w, lines, 9)
}

fn selves(lines: &mut [u8]) {
    for line in lines.chunks_exact_mut(8) {
        line[0] = 3;
    }
}

pub fn lines(rt: &impl Print) -> io::Result<()> {
    let mut lines = [0; 65544];
    selves(&mut lines);
    checks(rt, &lines)
}

// 65,536 bytes, and one less

pub fn buffers(rt: &impl Print, proof: &mut [u8; 65536]) -> io::Result<()> {
    let w = declared(2);
    let short = &mut proof[..65535];
    told(
        rt,
        "equate in 65535 bytes",
        Answer::held(w.equate(10, 0, 1, short)),
    )?;
    told(
        rt,
        "equate in 65536 bytes",
        Answer::held(w.equate(10, 0, 1, proof)),
    )?;
    let short = Answer::stand(w.compare(0, 1, &mut proof[..65535]));
    said(rt, "compare in 65535 bytes", short.reply)?;
    let long = Answer::stand(w.compare(0, 1, proof));
    said(rt, "compare in 65536 bytes", long.reply)
}
