// The library's replies and questions, as the tests speak of them. Its own types are named here and in no test.
use refusals::Refusal;
use test_solver::book::Equation;
use test_solver::checker::{Claim, Fault, Goal, Relation};
use unifier::{Figures, GoalAsked, Offer, Outcome, Standing, Workspace};

/// What a call replies, without the proof. `Refused` is one of the list and not the `Err` of a `Result`: a clash and a cycle refuse too, but with
/// a proof, and are other replies here; and what is this type's own below, `number`, `goal` and `From`, would be functions beside std's type.
#[derive(Clone, Copy, PartialEq, Eq, Debug)]
pub enum Reply {
    Node(u8),
    Held,
    Gone,
    Clash,
    Cycle,
    Same,
    Below,
    Above,
    Apart,
    Class { number: usize, size: usize },
    Passed,
    Refused(Refusal),
}

impl Reply {
    /// The number of the refusal, or 0.
    pub fn number(self) -> u8 {
        match self {
            Reply::Refused(r) => r.number(),
            _ => 0,
        }
    }

    /// What the proof that came with a reply about u and v has to show.
    pub fn goal(self, u: u16, v: u16) -> Option<Goal> {
        match self {
            Reply::Clash => Some(Goal::Clash),
            Reply::Cycle => Some(Goal::Cycle),
            Reply::Same => Some(Goal::Claim(Claim::same(u, v))),
            Reply::Below => Some(Goal::Claim(Claim::below(u, v))),
            Reply::Above => Some(Goal::Claim(Claim::below(v, u))),
            _ => None,
        }
    }
}

impl From<Result<(), Fault>> for Reply {
    fn from(r: Result<(), Fault>) -> Reply {
        match r {
            Ok(()) => Reply::Passed,
            Err(Fault::UnknownNode) => Reply::Refused(Refusal::UnknownNode),
            Err(Fault::NameHeld) => Reply::Refused(Refusal::NameHeld),
            Err(Fault::BadLength) => Reply::Refused(Refusal::BadLength),
            Err(Fault::BrokenLine(line)) => Reply::Refused(Refusal::BrokenLine { line }),
            Err(Fault::NotShown) => Reply::Refused(Refusal::NotShown),
        }
    }
}

/// What a call gives back.
#[derive(Clone, Copy)]
pub struct Answer {
    pub reply: Reply,
    /// How many bytes of proof came with it.
    pub proof: usize,
    pub workspace: Workspace,
}

// The bytes of so many lines.
fn bytes(lines: u16) -> usize {
    8 * usize::from(lines)
}

impl Answer {
    // What is replied, with how many bytes of proof, or the refusal.
    fn of(replied: Result<(Reply, usize), Refusal>, workspace: Workspace) -> Answer {
        let (reply, proof) = match replied {
            Ok(x) => x,
            Err(Refusal::Clash { lines }) => (Reply::Clash, bytes(lines)),
            Err(Refusal::Cycle { lines }) => (Reply::Cycle, bytes(lines)),
            Err(r) => (Reply::Refused(r), 0),
        };
        Answer {
            reply,
            proof,
            workspace,
        }
    }

    /// Of a declaration.
    pub fn node(o: Outcome<u8>) -> Answer {
        Answer::of(o.reply.map(|u| (Reply::Node(u), 0)), o.workspace)
    }

    /// Of equate.
    pub fn held(o: Outcome<()>) -> Answer {
        Answer::of(o.reply.map(|_| (Reply::Held, 0)), o.workspace)
    }

    /// Of withdraw.
    pub fn gone(o: Outcome<()>) -> Answer {
        Answer::of(o.reply.map(|_| (Reply::Gone, 0)), o.workspace)
    }

    /// Of check.
    pub fn passed(o: Outcome<()>) -> Answer {
        Answer::of(o.reply.map(|_| (Reply::Passed, 0)), o.workspace)
    }

    /// Of compare.
    pub fn stand(o: Outcome<Standing>) -> Answer {
        Answer::of(o.reply.map(stood), o.workspace)
    }

    /// Of class.
    pub fn class(o: Outcome<Figures>) -> Answer {
        Answer::of(o.reply.map(classed), o.workspace)
    }
}

fn stood(s: Standing) -> (Reply, usize) {
    match s {
        Standing::Same(lines) => (Reply::Same, bytes(lines)),
        Standing::Below(lines) => (Reply::Below, bytes(lines)),
        Standing::Above(lines) => (Reply::Above, bytes(lines)),
        Standing::Apart => (Reply::Apart, 0),
    }
}

fn classed(f: Figures) -> (Reply, usize) {
    let reply = Reply::Class {
        number: usize::from(f.number),
        size: usize::from(f.size),
    };
    (reply, 0)
}

// No `From` here and below: neither type is this crate's.
pub fn offer(e: Option<Equation>) -> Option<Offer> {
    e.map(|e| Offer {
        name: e.name,
        left: e.left,
        right: e.right,
    })
}

pub fn goal(goal: Goal) -> GoalAsked {
    match goal {
        Goal::Clash => GoalAsked::Clash,
        Goal::Cycle => GoalAsked::Cycle,
        Goal::Claim(c) => match c.relation {
            Relation::Same => GoalAsked::Same(c.start, c.end),
            Relation::Below => GoalAsked::Below(c.start, c.end),
        },
    }
}
