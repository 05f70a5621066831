// The calls that change the workspace, each held against the book and the other solver.
use super::run::Run;
use refusals::Refusal;
use test_solver::book::{Equation, Functor, Node};
use test_solver::checker::{Goal, Question};
use test_solver::closure::Closure;
use test_tools::replies::{Answer, Reply};

impl Run {
    // A node more, in the library and in the book.
    fn declared(&mut self, a: Answer, node: Node) {
        let n = self.book.nodes.len();
        self.told(a, Reply::Node(n as u8));
        self.book.declare(node);
        self.solve();
    }

    fn variable(&mut self) {
        let a = Answer::node(self.workspace.declare_variable());
        if self.book.nodes.is_full() {
            self.told(a, Reply::Refused(Refusal::NodesFull));
        } else {
            self.declared(a, Node::Variable);
        }
    }

    fn functor_owed(&self, symbol: u16, children: &[u16]) -> Result<Functor, Refusal> {
        if self.book.nodes.is_full() {
            return Err(Refusal::NodesFull);
        }
        if 4 < children.len() {
            return Err(Refusal::TooManyChildren);
        }
        if !self.book.knows_all(children) {
            return Err(Refusal::UnknownNode);
        }
        let arity = self.book.arity_of(symbol);
        if arity.is_some_and(|k| k != children.len()) {
            return Err(Refusal::OtherArity);
        }
        Ok(Functor::new(symbol, children))
    }

    fn functor(&mut self) {
        let eight = self.children();
        let symbol = self.symbol();
        let children = &eight[..self.arity(symbol)];
        let a = Answer::node(self.workspace.declare_functor(symbol, children));
        match self.functor_owed(symbol, children) {
            Ok(f) => self.declared(a, Node::Functor(f)),
            Err(r) => self.told(a, Reply::Refused(r)),
        }
    }

    // The first of refusals 5, 4, 6 and 7 that applies.
    fn early(&self, e: Equation, room: usize) -> Option<Refusal> {
        if room < 65536 {
            return Some(Refusal::ShortBuffer);
        }
        if !self.book.knows(e.left) || !self.book.knows(e.right) {
            return Some(Refusal::UnknownNode);
        }
        if self.book.find(e.name).is_some() {
            return Some(Refusal::NameHeld);
        }
        self.book.held.is_full().then_some(Refusal::EquationsFull)
    }

    fn verdict(&self) -> Reply {
        if self.closure.shows(Goal::Clash) {
            Reply::Clash
        } else if self.closure.shows(Goal::Cycle) {
            Reply::Cycle
        } else {
            Reply::Held
        }
    }

    // A new entry in the book, maybe at a place that was freed.
    fn take(&mut self, e: Equation) {
        self.book.hold(e);
        if 0 < self.round.freed {
            self.round.freed -= 1;
            self.counts.again();
        }
    }

    // Once refusals 5, 4, 6 and 7 are past: the closure decides, and a refusal has its proof.
    fn decided(&mut self, a: Answer, e: Equation) {
        self.closure = Closure::of(&self.book, Some(e));
        let owed = self.verdict();
        self.told(a, owed);
        match owed.goal(e.left, e.right) {
            Some(goal) => {
                let offer = Some(e);
                self.audit(a.proof, Question { offer, goal }, 4);
            }
            None => self.take(e),
        }
        self.solve();
    }

    fn equate(&mut self) {
        let e = self.equation();
        let room = self.room();
        let w = self.workspace;
        let a = Answer::held(w.equate(e.name, e.left, e.right, &mut self.proof[..room]));
        match self.early(e, room) {
            Some(r) => self.told(a, Reply::Refused(r)),
            None => self.decided(a, e),
        }
    }

    // The equation of that name goes, if there is one. Tells the reply that is owed.
    fn strike(&mut self, name: u16) -> Reply {
        if self.book.strike(name).is_none() {
            return Reply::Refused(Refusal::NameNotHeld);
        }
        self.round.freed = self.round.freed.saturating_add(1);
        self.solve();
        Reply::Gone
    }

    fn withdraw(&mut self) {
        let name = self.withdrawn();
        let owed = self.strike(name);
        let a = Answer::gone(self.workspace.withdraw(name));
        self.told(a, owed);
    }

    /// One of these calls, by its share of a hundred.
    pub fn change(&mut self) {
        let k = self.rng.below(100);
        let declares = self.declares();
        match k {
            0..12 if declares => self.variable(),
            12..50 if declares => self.functor(),
            0..90 => self.equate(),
            _ => self.withdraw(),
        }
    }

    pub fn clear(&mut self) {
        self.workspace = self.workspace.clear();
        self.book.clear();
        self.solve();
        self.counts.cleared();
        self.tell_workspace();
    }
}
