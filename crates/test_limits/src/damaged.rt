// Damaged workspaces: each single field of a valid one set to bad values, and held equations without a solution. Every call
// refuses with 1, and workspace and buffer come back untouched.
//
// The valid one has the nodes 0 and 1, variables; 2 = symbol 7 of 0; 3 = symbol 71 of 0 and 1; 4, symbol 135 without children; and
// the equations 10, 0 = 1, and 11, 1 = 4. The three symbols leave one remainder by 64.
use refusals::Refusal;
use std::io;
use test_solver::book::{Book, Equation, Functor, Node};
use test_solver::checker::{Claim, Goal, Question};
use test_tools::bytes::untouched;
use test_tools::counts::{add, expect};
use test_tools::replies::{Answer, Reply};
use test_tools::workspaces;
use unifier::Workspace;

fn valid() -> Workspace {
    let mut book = Book::new();
    book.declare(Node::Variable);
    book.declare(Node::Variable);
    book.declare(Node::Functor(Functor::new(7, &[0])));
    book.declare(Node::Functor(Functor::new(71, &[0, 1])));
    book.declare(Node::Functor(Functor::new(135, &[])));
    book.hold(Equation {
        name: 10,
        left: 0,
        right: 1,
    });
    book.hold(Equation {
        name: 11,
        left: 1,
        right: 4,
    });
    workspaces::of(&book)
}

#[derive(Clone, Copy, Default)]
struct Counts {
    damaged: usize,
    refused: usize,
    came_back: usize,
    fresh: usize,
    otherwise: usize,
}

impl Counts {
    // The answer of a call of w.
    fn called(&mut self, w: &Workspace, a: Answer, proof: &[u8]) {
        let refused = a.reply == Reply::Refused(Refusal::NotAWorkspace);
        expect(refused, &mut self.refused, &mut self.otherwise);
        let same = a.workspace == *w && untouched(proof);
        expect(same, &mut self.came_back, &mut self.otherwise);
    }

    // Clear accepts any value.
    fn cleared(&mut self, w: &Workspace) {
        add(&mut self.damaged, 1);
        let fresh = workspaces::agrees(&w.clear(), &Book::new());
        expect(fresh, &mut self.fresh, &mut self.otherwise);
    }

    fn changes(&mut self, w: &Workspace, proof: &mut [u8]) {
        self.called(w, Answer::node(w.declare_variable()), proof);
        self.called(w, Answer::node(w.declare_functor(5, &[0])), proof);
        let equated = Answer::held(w.equate(77, 0, 1, proof));
        self.called(w, equated, proof);
        self.called(w, Answer::gone(w.withdraw(10)), proof);
    }

    fn asks_class(&mut self, w: &Workspace, proof: &[u8]) {
        self.called(w, Answer::class(w.class_of(0)), proof);
    }

    fn checks(&mut self, w: &Workspace, proof: &[u8]) {
        let x = Question {
            offer: None,
            goal: Goal::Claim(Claim::same(0, 0)),
        };
        let line = [3, 0, 0, 0, 0, 0, 0, 0];
        self.called(w, workspaces::check(*w, x, &line), proof);
    }

    // Every call of a damaged workspace.
    fn calls(&mut self, w: &Workspace, proof: &mut [u8]) {
        self.changes(w, proof);
        let compared = Answer::stand(w.compare(0, 1, proof));
        self.called(w, compared, proof);
        self.asks_class(w, proof);
        self.checks(w, proof);
        self.cleared(w);
    }
}

// Bad values

#[derive(Clone, Copy)]
enum Field {
    Kind,
    Symbol,
    Arity,
    Child,
    Name,
    Left,
    Right,
}

const FIELDS: [Field; 7] = [
    Field::Kind,
    Field::Symbol,
    Field::Arity,
    Field::Child,
    Field::Name,
    Field::Left,
    Field::Right,
];

fn put<T: Copy>(s: &mut [T], i: usize, x: T) {
    if i < s.len() {
        s[i] = x;
    }
}

impl Field {
    fn places(self) -> usize {
        match self {
            Field::Kind | Field::Symbol | Field::Arity => 64,
            Field::Child | Field::Name | Field::Left | Field::Right => 256,
        }
    }

    // What this place of a valid workspace never has.
    fn bad(self, i: usize) -> &'static [u16] {
        match (self, i) {
            // A variable and an unused place are kind 0; a functor node with a symbol is no variable.
            (Field::Kind, 0 | 1) => &[2, 255, 128],
            (Field::Kind, 2..=4) => &[2, 255, 0],
            (Field::Kind, _) => &[2, 255, 1],
            // A symbol that another node has with another number of children; of a variable and of an unused place any.
            (Field::Symbol, 2) => &[71, 135],
            (Field::Symbol, 3) => &[7, 135],
            (Field::Symbol, 4) => &[7, 71],
            (Field::Symbol, _) => &[1, 256, 65535],
            // Five children are too many; of a variable and of an unused place any are.
            (Field::Arity, 2..=4) => &[5, 255, 6],
            (Field::Arity, _) => &[5, 255, 1],
            // Not an earlier node; in an unused place, not zero.
            (Field::Child, 8) => &[63, 255, 2],
            (Field::Child, 12 | 13) => &[63, 255, 3],
            (Field::Child, _) => &[63, 255, 1],
            // The other's name, or in an unused place any.
            (Field::Name, 0) => &[11],
            (Field::Name, _) => &[10],
            // An undeclared node, or in an unused place any.
            (Field::Left | Field::Right, 0 | 1) => &[64, 255, 5],
            (Field::Left | Field::Right, _) => &[64, 255, 1],
        }
    }

    fn put(self, w: &mut Workspace, i: usize, x: u16) {
        let byte = (x & 0xff) as u8;
        match self {
            Field::Kind => put(&mut w.terms.kind, i, byte),
            Field::Symbol => put(&mut w.terms.symbol, i, x),
            Field::Arity => put(&mut w.terms.arity, i, byte),
            Field::Child => put(&mut w.terms.child, i, byte),
            Field::Name => put(&mut w.equations.name, i, x),
            Field::Left => put(&mut w.equations.left, i, byte),
            Field::Right => put(&mut w.equations.right, i, byte),
        }
    }
}

// How many nodes and equations, of the valid 5 and 2 one of them changed: one too low leaves a place that is not zero; the others are no counts.
const LENGTHS: [(usize, usize); 8] = [
    (0, 2),
    (4, 2),
    (65, 2),
    (usize::MAX, 2),
    (5, 0),
    (5, 1),
    (5, 257),
    (5, usize::MAX),
];

// Left and right of the two equations: two clashes, and then cycles.
const UNSOLVABLE: [([u8; 2], [u8; 2]); 6] = [
    ([0, 3], [1, 4]),
    ([0, 2], [1, 4]),
    ([0, 1], [2, 4]),
    ([0, 1], [3, 4]),
    ([0, 1], [1, 2]),
    ([0, 1], [1, 3]),
];

// The valid workspace, damaged in each way in turn, with the buffer that its calls are lent and what comes of them.
#[derive(Drop)]
struct Run<'a> {
    valid: Workspace,
    proof: &'a mut [u8],
    counts: Counts,
}

impl<'a> Run<'a> {
    fn place(&mut self, field: Field, i: usize) {
        for x in field.bad(i) {
            let mut w = self.valid;
            field.put(&mut w, i, *x);
            self.counts.calls(&w, self.proof);
        }
    }

    fn column(&mut self, field: Field) {
        for i in 0..field.places() {
            self.place(field, i);
        }
    }

    fn columns(&mut self) {
        for field in FIELDS {
            self.column(field);
        }
    }

    fn lengths(&mut self) {
        for (nodes, equations) in LENGTHS {
            let mut w = self.valid;
            w.terms.count = nodes;
            w.equations.count = equations;
            self.counts.calls(&w, self.proof);
        }
    }

    fn unsolvable(&mut self) {
        for (left, right) in UNSOLVABLE {
            let mut w = self.valid;
            w.equations.left[..2].copy_from_slice(&left);
            w.equations.right[..2].copy_from_slice(&right);
            self.counts.calls(&w, self.proof);
        }
    }
}

fn show(rt: &impl Print, counts: Counts) -> io::Result<()> {
    println!(rt; "damaged workspaces: {}", counts.damaged)?;
    println!(rt; "calls refused 1: {}", counts.refused)?;
    println!(rt;
        "workspaces and buffers back untouched: {}",
        counts.came_back
    )?;
    println!(rt; "cleared to a fresh one: {}", counts.fresh)?;
    println!(rt; "otherwise: {}", counts.otherwise)
}

pub fn all(rt: &impl Print, proof: &mut [u8]) -> io::Result<()> {
    let valid = valid();
    let accepted = Answer::class(valid.class_of(0)).reply;
    println!(rt; "refusals of the valid workspace: {}", accepted.number())?;
    let mut run = Run {
        valid,
        proof,
        counts: Counts::default(),
    };
    run.columns();
    run.lengths();
    run.unsolvable();
    show(rt, run.counts)
}
