// The calls that change nothing: compare, class and check, held against the book and the other solver.
ghost use Rattle.std.specs.Prelude.{◌≤◌};

use super::run::Run;
use refusals::Refusal;
use test_solver::book::Equation;
use test_solver::checker::{Claim, Goal, Question};
use test_tools::bytes::FILLER;
use test_tools::replies::{Answer, Reply};

impl Run {
    fn compare_owed(&self, u: u16, v: u16, room: usize) -> Reply {
        if room < 65536 {
            return Reply::Refused(Refusal::ShortBuffer);
        }
        if !self.book.knows(u) || !self.book.knows(v) {
            return Reply::Refused(Refusal::UnknownNode);
        }
        if self.closure.shows(Goal::Claim(Claim::same(u, v))) {
            return Reply::Same;
        }
        if self.closure.shows(Goal::Claim(Claim::below(u, v))) {
            return Reply::Below;
        }
        if self.closure.shows(Goal::Claim(Claim::below(v, u))) {
            return Reply::Above;
        }
        Reply::Apart
    }

    // The reply is the one that is owed; a proof that came with it shows it, and without one the buffer is as it was.
    fn compare_of(&mut self, u: u16, v: u16, room: usize)
        requires { room ≤ 65600 }
    {
        let owed = self.compare_owed(u, v, room);
        let w = self.workspace;
        let a = Answer::stand(w.compare(u, v, &mut self.proof[..room]));
        self.told(a, owed);
        match owed.goal(u, v) {
            Some(goal) => {
                let offer = None;
                self.audit(a.proof, Question { offer, goal }, 2);
            }
            None => self.tell_buffer(),
        }
    }

    pub fn compare(&mut self) {
        let u = self.node();
        let v = self.node();
        let room = self.room();
        self.compare_of(u, v, room);
    }

    fn compare_with_all(&mut self, u: u16) {
        for v in 0..self.count() {
            self.compare_of(u, v, 65536);
        }
    }

    /// Every pair of nodes. After a node's last pair the workspace is held against the book.
    pub fn pairs(&mut self) {
        for u in 0..self.count() {
            self.compare_with_all(u);
            self.tell_workspace();
        }
    }

    fn class_owed(&self, u: u16) -> Reply {
        if !self.book.knows(u) {
            return Reply::Refused(Refusal::UnknownNode);
        }
        Reply::Class {
            number: self.closure.number(&self.book, u),
            size: self.closure.size(u),
        }
    }

    fn class(&mut self, u: u16) {
        let owed = self.class_owed(u);
        self.told(Answer::class(self.workspace.class_of(u)), owed);
    }

    /// Some node's class; then every node's, with the workspace after each.
    pub fn classes(&mut self) {
        let some = self.node();
        self.class(some);
        for u in 0..self.count() {
            self.counts
                .shown(self.closure.variable_first(&self.book, u));
            self.class(u);
            self.tell_workspace();
        }
    }

    /// Random lines, few of which pass.
    pub fn check(&mut self) {
        let u = self.node();
        let v = self.node();
        let name = self.name(8);
        let e = Equation {
            name,
            left: v,
            right: u,
        };
        let offer = self.rng.one_in(2).then_some(e);
        self.lines();
        let n = self.length();
        let goal = self.goal(u, v);
        let reply = self.ask(n, Question { offer, goal });
        self.counts.called(reply);
        self.proof[..24].fill(FILLER);
    }
}
