// Nodes lent whole, by a crate above the solver: heads as Options, and passes with a visitor of its own.
#![tactic(auto)]

ghost use Rattle.std.specs.Prelude.{◌≡◌, ◌≤◌, ◌<◌, get_or};
ghost use Rattle.graph.specs.Limits.{node_limit};
ghost use Rattle.store.specs.Views.{kind_at};

use solve_heights::passes::{self, Visitor};
use std::io;
use store::Terms;

// The number behind the last functor node that stands for its class.
#[derive(Clone, Copy)]
struct Last {
    behind: u8,
}

impl Visitor for Last {
    ghost between = { λ t table a. t.count ≤ node_limit };

    ghost counted = { λ a. a.behind };

    ghost closed = { λ t table a u. get_or table u 0 ≡ u → kind_at t u ≡ 1 → u < a.behind };

    ghost fixed = { λ a. 0 };

    fn counted(&self) -> u8 {
        self.behind
    }

    fn visit(&mut self, table: &[u8; 64], t: &Terms, u: usize) {
        if usize::from(table[u]) == u && t.is_functor(u) && usize::from(self.behind) <= u {
            self.behind = u as u8 + 1;
        }
    }
}

// Nodes of which two are functor nodes: the last, and the one before.
fn nodes(count: usize) -> Terms
    requires { (2 ≤ count) × (count ≤ node_limit) }
    ensures { result.count ≤ node_limit }
{
    let mut t = Terms::fresh();
    t.kind[count - 2] = 1;
    t.kind[count - 1] = 1;
    t.count = count;
    t
}

// The head that node `u` meets in group `c`, and the head after that.
fn met(rt: &impl Print, c: usize, head: Option<u8>, t: &Terms, u: usize) -> io::Result<()>
    requires { (c < 64) × (u < node_limit) }
{
    let mut heads = [None; 64];
    heads[c] = head;
    match store::visit(&mut heads, c, t, u) {
        Some(v) => print!(rt; "group {c}: node {u} meets {v}")?,
        None => print!(rt; "group {c}: node {u} meets none")?,
    }
    match heads[c] {
        Some(v) => println!(rt; ", then the head is {v}"),
        None => println!(rt; ", then there is no head"),
    }
}

// Passes that end where nothing counts, and, of 64 nodes, where `most` are counted; none where they were counted before.
fn passed(rt: &impl Print, table: &[u8; 64], t: &Terms, behind: u8, down: bool) -> io::Result<()>
    requires { t.now.count ≤ node_limit }
{
    let mut last = Last { behind };
    passes::run(&mut last, table, t, 64, down);
    println!(rt;
        "behind the last functor node of its class: {}",
        last.behind
    )
}

// No head, a head, and 255, which no head of one byte can be; a variable; the first and the last group and node.
fn heads(rt: &impl Print, t: &Terms, all: &Terms) -> io::Result<()> {
    met(rt, 63, None, t, 1)?;
    met(rt, 63, Some(2), t, 1)?;
    met(rt, 63, None, t, 2)?;
    met(rt, 63, Some(2), t, 3)?;
    met(rt, 63, Some(254), t, 3)?;
    met(rt, 63, Some(255), t, 3)?;
    met(rt, 0, None, all, 0)?;
    met(rt, 0, None, all, 63)?;
    met(rt, 63, None, all, 63)
}

fn main(rt: HostRuntime) -> io::Result<()> {
    let t = nodes(4);
    let all = nodes(64);
    heads(&rt, &t, &all)?;
    let mut table = solve_classes::fresh();
    passed(&rt, &table, &t, 0, true)?;
    passed(&rt, &table, &t, 0, false)?;
    passed(&rt, &table, &all, 0, true)?;
    passed(&rt, &table, &all, 0, false)?;
    passed(&rt, &table, &all, 64, true)?;
    passed(&rt, &table, &Terms::fresh(), 0, true)?;
    table[3] = 2;
    passed(&rt, &table, &t, 0, true)?;
    passed(&rt, &table, &t, 0, false)
}
