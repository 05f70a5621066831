// The other checker.
use super::book::{Book, Equation};
use super::stock::Stock;

#[derive(Clone, Copy, PartialEq, Eq, Debug, Default)]
pub enum Relation {
    #[default]
    Same,
    Below,
}

/// That `start` is same as `end`, or has `end` below it.
#[derive(Clone, Copy, PartialEq, Eq, Debug, Default)]
pub struct Claim {
    pub relation: Relation,
    pub start: u16,
    pub end: u16,
}

// Two makers: one that is handed the relation would say no more than the struct's own literal.
impl Claim {
    pub fn same(start: u16, end: u16) -> Claim {
        Claim {
            relation: Relation::Same,
            start,
            end,
        }
    }

    pub fn below(start: u16, end: u16) -> Claim {
        Claim {
            relation: Relation::Below,
            start,
            end,
        }
    }

    // This, and then that.
    fn then(self, next: Claim) -> Option<Claim> {
        if self.end != next.start {
            return None;
        }
        match (self.relation, next.relation) {
            (Relation::Same, Relation::Same) => Some(Claim::same(self.start, next.end)),
            _ => Some(Claim::below(self.start, next.end)),
        }
    }
}

/// What a proof is to show.
#[derive(Clone, Copy, PartialEq, Eq, Debug)]
pub enum Goal {
    Clash,
    Cycle,
    Claim(Claim),
}

/// What a proof is checked for: its goal, over the held equations and the one that is offered.
#[derive(Clone, Copy, PartialEq, Eq, Debug)]
pub struct Question {
    pub offer: Option<Equation>,
    pub goal: Goal,
}

/// Why a proof does not pass.
#[derive(Clone, Copy, PartialEq, Eq, Debug)]
pub enum Fault {
    UnknownNode,
    NameHeld,
    BadLength,
    BrokenLine(u16),
    NotShown,
}

// A line, by its rule.
#[derive(Clone, Copy)]
enum Line {
    Equation(u16),
    Child(u16, u8),
    Itself(u16),
    Turned(u16),
    Joined(u16, u16),
    Down(u16, u8),
}

impl Line {
    // Fields that the rule doesn't use are zero.
    fn read(bytes: &[u8]) -> Option<Line> {
        let [rule, place, a, b, c, d, 0, 0] = bytes else {
            return None;
        };
        let first = u16::from_be_bytes([*a, *b]);
        let second = u16::from_be_bytes([*c, *d]);
        match (*rule, *place, second) {
            (1, 0, 0) => Some(Line::Equation(first)),
            (2, place, 0) => Some(Line::Child(first, place)),
            (3, 0, 0) => Some(Line::Itself(first)),
            (4, 0, 0) => Some(Line::Turned(first)),
            (5, 0, second) => Some(Line::Joined(first, second)),
            (6, place, 0) => Some(Line::Down(first, place)),
            _ => None,
        }
    }
}

fn by_equation(book: &Book, offer: Option<Equation>, name: u16) -> Option<Claim> {
    let e = book.find(name).or(offer.filter(|e| e.name == name))?;
    Some(Claim::same(e.left, e.right))
}

fn by_child(book: &Book, u: u16, place: u8) -> Option<Claim> {
    let child = book.functor(u)?.child(place)?;
    Some(Claim::below(u, child))
}

fn by_self(book: &Book, u: u16) -> Option<Claim> {
    book.knows(u).then_some(Claim::same(u, u))
}

fn by_turning(c: Claim) -> Option<Claim> {
    match c.relation {
        Relation::Same => Some(Claim::same(c.end, c.start)),
        Relation::Below => None,
    }
}

fn by_down(book: &Book, c: Claim, place: u8) -> Option<Claim> {
    let f = book.functor(c.start)?;
    let g = book.functor(c.end)?;
    if c.relation == Relation::Below || f.symbol != g.symbol {
        return None;
    }
    Some(Claim::same(f.child(place)?, g.child(place)?))
}

fn shows(book: &Book, c: Claim, goal: Goal) -> bool {
    match goal {
        Goal::Clash => c.relation == Relation::Same && unequal_labels(book, c.start, c.end),
        Goal::Cycle => c.relation == Relation::Below && c.start == c.end,
        Goal::Claim(wanted) => c == wanted,
    }
}

fn unequal_labels(book: &Book, u: u16, v: u16) -> bool {
    match (book.functor(u), book.functor(v)) {
        (Some(f), Some(g)) => f.symbol != g.symbol,
        _ => false,
    }
}

fn knows(book: &Book, x: Question) -> bool {
    let goal = match x.goal {
        Goal::Claim(c) => book.knows(c.start) && book.knows(c.end),
        Goal::Clash | Goal::Cycle => true,
    };
    goal && x
        .offer
        .is_none_or(|e| book.knows(e.left) && book.knows(e.right))
}

/// What each line of a proof claims, up to the first that breaks its rule.
#[derive(Drop)]
pub struct Claims {
    lines: Stock<Claim, 8192>,
}

impl Claims {
    pub fn none() -> Claims {
        Claims {
            lines: Stock::new(),
        }
    }

    // An earlier line's.
    fn get(&self, line: u16) -> Option<Claim> {
        self.lines.as_slice().get(usize::from(line)).copied()
    }

    pub fn last(&self) -> Option<Claim> {
        self.lines.as_slice().last().copied()
    }

    fn claimed(&self, book: &Book, offer: Option<Equation>, line: Line) -> Option<Claim> {
        match line {
            Line::Equation(name) => by_equation(book, offer, name),
            Line::Child(u, place) => by_child(book, u, place),
            Line::Itself(u) => by_self(book, u),
            Line::Turned(i) => by_turning(self.get(i)?),
            Line::Joined(i, j) => self.get(i)?.then(self.get(j)?),
            Line::Down(i, place) => by_down(book, self.get(i)?, place),
        }
    }

    /// Reads the lines in turn. An `Err` has the number of the first that breaks its rule.
    pub fn read(&mut self, book: &Book, offer: Option<Equation>, proof: &[u8]) -> Result<(), u16> {
        self.lines.clear();
        for (i, bytes) in (0u16..8192).zip(proof.chunks_exact(8)) {
            let line = Line::read(bytes).ok_or(i)?;
            let claim = self.claimed(book, offer, line).ok_or(i)?;
            if !self.lines.push(claim) {
                return Err(i);
            }
        }
        Ok(())
    }

    /// What `check` owes to a proof.
    pub fn check(&mut self, book: &Book, x: Question, proof: &[u8]) -> Result<(), Fault> {
        if !knows(book, x) {
            return Err(Fault::UnknownNode);
        }
        if x.offer.is_some_and(|e| book.find(e.name).is_some()) {
            return Err(Fault::NameHeld);
        }
        if proof.is_empty() || 65536 < proof.len() || proof.len() % 8 != 0 {
            return Err(Fault::BadLength);
        }
        self.read(book, x.offer, proof).map_err(Fault::BrokenLine)?;
        match self.last() {
            Some(c) if shows(book, c, x.goal) => Ok(()),
            _ => Err(Fault::NotShown),
        }
    }
}
