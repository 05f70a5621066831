// Workspaces: made by calls or from the book, and held against it.
ghost use Rattle.std.specs.Prelude.{◌≤◌, length};

use super::replies;
use super::replies::Answer;
use store::{Equations, Terms};
use test_solver::book::{Book, Equation, Node};
use test_solver::checker::Question;
use unifier::Workspace;

pub fn variable(w: Workspace) -> Workspace {
    w.declare_variable().workspace
}

pub fn functor(w: Workspace, symbol: u16, children: &[u16]) -> Workspace {
    w.declare_functor(symbol, children).workspace
}

pub fn equated(w: Workspace, name: u16, u: u16, v: u16, proof: &mut [u8]) -> Workspace {
    w.equate(name, u, v, proof).workspace
}

pub fn check(w: Workspace, x: Question, proof: &[u8]) -> Answer {
    Answer::passed(w.check(replies::offer(x.offer), proof, replies::goal(x.goal)))
}

// The low byte: of a node's number, all of it.
fn byte(u: u16) -> u8 {
    (u & 0xff) as u8
}

// No `From` here and below: neither type is this crate's.
fn terms_of(nodes: &[Node]) -> Terms
    requires { length nodes.now ≤ 64 }
{
    let mut t = Terms {
        count: nodes.len(),
        kind: [0; 64],
        symbol: [0; 64],
        arity: [0; 64],
        child: [0; 256],
    };
    for (u, node) in nodes.iter().enumerate() {
        if let Node::Functor(f) = node {
            t.kind[u] = 1;
            t.symbol[u] = f.symbol;
            t.arity[u] = f.children().len() as u8;
            for (to, child) in t.child[4 * u..].iter_mut().zip(f.children()) {
                *to = byte(*child);
            }
        }
    }
    t
}

fn equations_of(held: &[Equation]) -> Equations
    requires { length held.now ≤ 256 }
{
    let mut all = Equations {
        count: held.len(),
        name: [0; 256],
        left: [0; 256],
        right: [0; 256],
    };
    for (k, e) in held.iter().enumerate() {
        all.name[k] = e.name;
        all.left[k] = byte(e.left);
        all.right[k] = byte(e.right);
    }
    all
}

/// The workspace of a book: its two lists, and zero in unused places.
pub fn of(book: &Book) -> Workspace {
    Workspace {
        terms: terms_of(book.nodes.as_slice()),
        equations: equations_of(book.held.as_slice()),
    }
}

/// Whether a workspace is its book's in every place, unused ones too. The equality is derived: it goes over both counts and each place of each
/// array, and the library has none of its own that could leave one out.
pub fn agrees(w: &Workspace, book: &Book) -> bool {
    *w == of(book)
}
