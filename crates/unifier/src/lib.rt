// The workspace and its calls. No call asks anything of its caller: whatever is handed in gets a reply.
#![tactic(auto)]

ghost use Rattle.std.specs.Prelude.{◌≡◌, ◌<◌, ◌≤◌, ℕ, length};
ghost use Rattle.std.specs.Prelude.{Result, Ok, Err};
ghost use Rattle.graph.specs.Limits.{equation_limit};
ghost use Rattle.graph.specs.State.{variable, functor};
ghost use Rattle.graph.specs.Book as book;
ghost use Rattle.proof_rules.specs.Rules.{both_below};
ghost use Rattle.unifier.specs.Views.{fresh_workspace};
ghost use Rattle.unifier.specs.Replies.{outcome, node_number, is_gone};
ghost use Rattle.unifier.specs.Answers.{Answers};
ghost use Rattle.unifier.specs.Class.{Classifies};
ghost use Rattle.unifier.specs.Inner.{Examining};

mod check; // the calls of these names
mod compare;
mod equate;

use graph::{CHILDREN, NODES};
pub use proof_check::GoalAsked; // what check takes
pub use proof_rules::Offer;
pub use refusals::Refusal;
pub use solve_classes::Figures; // what class_of replies
use solve_trace::{Entry, Trace};
use store::{Equations, Terms};
pub use unifier_respond::Standing; // what compare replies

// The layout is C's, so that a host hands over the value as it is.
#[repr(C)]
#[derive(Clone, Copy, PartialEq, Eq, Debug)]
pub struct Workspace {
    pub terms: Terms,
    pub equations: Equations,
}

// What a call hands back: its reply, or why it refuses, and the workspace.
#[derive(Clone, Copy)]
pub struct Outcome<T> {
    pub reply: Result<T, Refusal>,
    pub workspace: Workspace,
}

// Whether both are known, of `n` nodes.
fn both_below(u: u16, v: u16, n: usize) -> bool
    ensures { result ≡ both_below n u v }
{
    usize::from(u) < n && usize::from(v) < n
}

impl Workspace {
    // No nodes, no equations.
    pub fn fresh() -> Workspace
        ensures { result ≡ fresh_workspace }
    {
        Workspace {
            terms: Terms::fresh(),
            equations: Equations::fresh(),
        }
    }

    // Accepts any value.
    pub fn clear(self) -> Workspace
        ensures { result ≡ fresh_workspace }
    {
        Workspace::fresh()
    }

    // The class table of the held equations, with its trace, or that this is no workspace. So begins every call.
    fn examined(&self, trace: &mut Trace) -> Result<[u8; 64], Refusal>
        requires { length trace.old.items ≡ 0 }
        ensures { Examining self.now trace.new.items result }
    {
        unifier_examine::examine(trace, &self.terms, &self.equations).ok_or(Refusal::NotAWorkspace)
    }

    fn put_variable(&mut self) -> Result<u8, Refusal>
        ensures { Answers node_number self.old (book.declare variable) (outcome result self.new) }
    {
        self.examined(&mut Trace::new(Entry::default()))?;
        let n = self.terms.count;
        if NODES <= n {
            return Err(Refusal::NodesFull);
        }
        self.terms.put_variable();
        Ok(n as u8)
    }

    // Puts a variable at the end: its number, or refusal 1 or 2.
    pub fn declare_variable(mut self) -> Outcome<u8>
        ensures { Answers node_number self (book.declare variable) result }
    {
        let reply = self.put_variable();
        Outcome {
            reply,
            workspace: self,
        }
    }

    fn put_functor(&mut self, symbol: u16, children: &[u16]) -> Result<u8, Refusal>
        ensures { Answers node_number self.old (book.declare (functor symbol children.now)) (outcome result self.new) }
    {
        self.examined(&mut Trace::new(Entry::default()))?;
        let n = self.terms.count;
        if NODES <= n {
            return Err(Refusal::NodesFull);
        }
        if CHILDREN < children.len() {
            return Err(Refusal::TooManyChildren);
        }
        if !store::all_below(children, n as u16) {
            return Err(Refusal::UnknownNode);
        }
        if !store_arity::arity_fits(&self.terms, n, symbol, children.len() as u8) {
            return Err(Refusal::OtherArity);
        }
        self.terms.put_functor(symbol, children);
        Ok(n as u8)
    }

    // Puts a functor node at the end: its number, or refusal 1, 2, 3, 4 or 18.
    pub fn declare_functor(mut self, symbol: u16, children: &[u16]) -> Outcome<u8>
        ensures { Answers node_number self (book.declare (functor symbol children.now)) result }
    {
        let reply = self.put_functor(symbol, children);
        Outcome {
            reply,
            workspace: self,
        }
    }

    fn remove(&mut self, name: u16) -> Result<(), Refusal>
        ensures { Answers is_gone self.old (book.withdraw name) (outcome result self.new) }
    {
        self.examined(&mut Trace::new(Entry::default()))?;
        if self.equations.remove(name) {
            Ok(())
        } else {
            Err(Refusal::NameNotHeld)
        }
    }

    // Strikes the equation of that name, or refusal 1 or 10.
    pub fn withdraw(mut self, name: u16) -> Outcome<()>
        ensures { Answers is_gone self (book.withdraw name) result }
    {
        let reply = self.remove(name);
        Outcome {
            reply,
            workspace: self,
        }
    }

    fn class_in(&self, u: u16) -> Result<Figures, Refusal>
        ensures { Classifies self.now u (outcome result self.now) }
    {
        let table = self.examined(&mut Trace::new(Entry::default()))?;
        let x = usize::from(u);
        if self.terms.count <= x {
            return Err(Refusal::UnknownNode);
        }
        Ok(solve_classes::class_figures(table, self.terms.kind, table[x]))
    }

    // The number of the node's class and how many nodes it has, or refusal 1 or 4.
    pub fn class_of(self, u: u16) -> Outcome<Figures>
        ensures { Classifies self u result }
    {
        Outcome {
            reply: self.class_in(u),
            workspace: self,
        }
    }
}
