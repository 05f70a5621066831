// The other solver: rules applied to every pair of nodes until nothing changes. A set of nodes is the bits of a number.
ghost use Rattle.std.specs.Prelude.{◌≤◌, ◌<◌, length};

use super::book::{Book, Equation, Node};
use super::checker::{Claim, Goal, Relation};
use std::array;

// The set of u alone.
fn only(u: usize) -> u64 {
    if u < 64 { 1 << u } else { 0 }
}

fn has(set: u64, u: u16) -> bool {
    set & only(usize::from(u)) != 0
}

fn children(node: &Node) -> u64 {
    match node {
        Node::Variable => 0,
        Node::Functor(f) => f
            .children()
            .iter()
            .fold(0, |set, u| set | only(usize::from(*u))),
    }
}

/// Which nodes are same as each, and which lie below it; and whether there is a clash or a cycle.
#[derive(Clone, Copy, PartialEq, Eq, Debug)]
pub struct Closure {
    same: [u64; 64],
    below: [u64; 64],
    clashes: bool,
    cycles: bool,
}

impl Closure {
    /// The closure of the book's equations, and of one more.
    pub fn of(book: &Book, more: Option<Equation>) -> Closure {
        let nodes = book.nodes.as_slice();
        let mut closure = Closure {
            same: array::from_fn(only),
            below: array::from_fn(|u| nodes.get(u).map_or(0, children)),
            clashes: false,
            cycles: false,
        };
        for e in book.held.as_slice() {
            closure.equate(e.left, e.right);
        }
        if let Some(e) = more {
            closure.equate(e.left, e.right);
        }
        closure.saturate(nodes);
        closure
    }

    fn add_same(&mut self, u: u16, v: u16) {
        if let Some(set) = self.same.get_mut(usize::from(u)) {
            *set |= only(usize::from(v));
        }
    }

    fn equate(&mut self, u: u16, v: u16) {
        self.add_same(u, v);
        self.add_same(v, u);
    }

    // Two nodes that are same: where both are functor nodes, they clash, or their children are same.
    fn meet(&mut self, a: &Node, b: &Node) {
        let (Node::Functor(f), Node::Functor(g)) = (a, b) else {
            return;
        };
        if f.symbol != g.symbol {
            self.clashes = true;
            return;
        }
        for (u, v) in f.children().iter().zip(g.children()) {
            self.equate(*u, *v);
        }
    }

    // The rules for each node with v.
    fn pass(&mut self, nodes: &[Node], v: usize, b: &Node)
        requires { (length nodes.now ≤ 64) × (v < 64) }
    {
        let v_alone = only(v);
        for (u, a) in nodes.iter().enumerate() {
            if self.same[u] & v_alone != 0 {
                self.same[u] |= self.same[v];
                self.below[u] |= self.below[v];
                self.meet(a, b);
            }
            if self.below[u] & v_alone != 0 {
                self.below[u] |= self.same[v] | self.below[v];
                self.cycles |= u == v;
            }
        }
    }

    fn pass_all(&mut self, nodes: &[Node])
        requires { length nodes.now ≤ 64 }
    {
        for (v, b) in nodes.iter().enumerate() {
            self.pass(nodes, v, b);
        }
    }

    // Passes until one changes nothing. The count is no limit: `while` would want a proof that passes end, for which each function above
    // would have to promise that it only adds to the sets.
    fn saturate(&mut self, nodes: &[Node])
        requires { length nodes.now ≤ 64 }
    {
        for _ in 0..u64::MAX {
            let before = *self;
            self.pass_all(nodes);
            if *self == before {
                return;
            }
        }
    }

    fn same_as(&self, u: u16) -> u64 {
        self.same.get(usize::from(u)).copied().unwrap_or(0)
    }

    fn below(&self, u: u16) -> u64 {
        self.below.get(usize::from(u)).copied().unwrap_or(0)
    }

    fn holds(&self, c: Claim) -> bool {
        match c.relation {
            Relation::Same => has(self.same_as(c.start), c.end),
            Relation::Below => has(self.below(c.start), c.end),
        }
    }

    /// Whether the goal is true.
    pub fn shows(&self, goal: Goal) -> bool {
        match goal {
            Goal::Clash => self.clashes,
            Goal::Cycle => self.cycles,
            Goal::Claim(c) => self.holds(c),
        }
    }

    fn lowest(&self, u: u16) -> usize {
        self.same_as(u).trailing_zeros() as usize
    }

    /// The class number: the first functor node that is same as u, or else the lowest node.
    pub fn number(&self, book: &Book, u: u16) -> usize {
        let class = self.same_as(u);
        let mut nodes = book.nodes.as_slice().iter().enumerate();
        let first = nodes.find(|(v, n)| class & only(*v) != 0 && n.functor().is_some());
        first.map_or(self.lowest(u), |(v, _)| v)
    }

    /// Whether the class number is not the lowest node.
    pub fn variable_first(&self, book: &Book, u: u16) -> bool {
        self.lowest(u) < self.number(book, u)
    }

    /// How many nodes are same as u.
    pub fn size(&self, u: u16) -> usize {
        self.same_as(u).count_ones() as usize
    }

    /// The first node from `from` on that is same as u, or u.
    pub fn mate(&self, u: u16, from: u16) -> u16 {
        let class = self.same_as(u);
        (from..64).find(|v| has(class, *v)).unwrap_or(u)
    }
}
