// Written proofs: run through `check`, damaged byte by byte, and what still passes held against the other solver.
ghost use Rattle.std.specs.Prelude.{◌≤◌};

use super::run::Run;
use test_solver::checker::{Goal, Question};
use test_tools::bytes::{FILLER, untouched};
use test_tools::replies::Reply;
use test_tools::workspaces;

impl Run {
    /// One call of `check` with the first n bytes, against the other checker. Tells its reply.
    pub fn ask(&mut self, n: usize, x: Question) -> Reply
        requires { n ≤ 65600 }
    {
        let lines = &self.proof[..n];
        let a = workspaces::check(self.workspace, x, lines);
        let owed = Reply::from(self.claims.check(&self.book, x, lines));
        let agrees = workspaces::agrees(&a.workspace, &self.book);
        self.counts.expect(a.reply == owed && agrees);
        a.reply
    }

    // A call that has to pass, for a goal that is true of the closure.
    fn passes(&mut self, n: usize, x: Question)
        requires { n ≤ 65600 }
    {
        let reply = self.ask(n, x);
        let is_true = self.closure.shows(x.goal);
        self.counts.expect(reply == Reply::Passed && is_true);
    }

    // What the last line claims by itself is true of the closure, and passes, if every line obeys its rule.
    fn last_claim(&mut self, n: usize, x: Question)
        requires { n ≤ 65600 }
    {
        let read = self.claims.read(&self.book, x.offer, &self.proof[..n]);
        let last = self.claims.last();
        if let (Ok(()), Some(c)) = (read, last) {
            self.counts.other_claim();
            let goal = Goal::Claim(c);
            self.passes(n, Question { goal, ..x });
        }
    }

    fn damage_told(&mut self, reply: Reply, goal: Goal) {
        let passed = reply == Reply::Passed;
        self.counts.damaged(passed);
        if passed {
            self.counts.expect(self.closure.shows(goal));
        }
    }

    // One byte changed, asked, and changed back.
    fn damage(&mut self, n: usize, x: Question)
        requires { n ≤ 65600 }
    {
        let at = self.some_place(n);
        let old = self.proof[at];
        let other = self.other(old);
        self.proof[at] = other;
        let reply = self.ask(n, x);
        self.damage_told(reply, x.goal);
        self.last_claim(n, x);
        self.proof[at] = old;
    }

    /// A proof of n bytes as its call left it: it passes, its goal is true of the closure, and the bytes past it are as they were.
    pub fn audit(&mut self, n: usize, x: Question, times: usize) {
        let clean = self.proof.get(n..).is_some_and(untouched);
        self.counts.expect(0 < n && n <= 65536 && clean);
        let n = n.min(65536);
        self.counts.proof(n / 8);
        self.passes(n, x);
        for _ in 0..times {
            self.damage(n, x);
        }
        self.proof[..n].fill(FILLER);
    }
}
