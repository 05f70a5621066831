// A run: the library's workspace beside the test's own book, closure and checker.
use super::counts::Counts;
use super::picks::Round;
use test_solver::book::Book;
use test_solver::checker::Claims;
use test_solver::closure::Closure;
use test_tools::bytes::{FILLER, untouched};
use test_tools::random::Rng;
use test_tools::replies::{Answer, Reply};
use test_tools::workspaces;
use unifier::Workspace;

#[derive(Drop)]
pub struct Run {
    pub workspace: Workspace,
    pub proof: [u8; 65600],
    pub book: Book,
    pub closure: Closure,
    pub claims: Claims,
    pub rng: Rng,
    pub round: Round,
    pub counts: Counts,
}

impl Run {
    pub fn new(seed: u64) -> Run {
        let book = Book::new();
        let closure = Closure::of(&book, None);
        Run {
            workspace: Workspace::fresh(),
            proof: [FILLER; 65600],
            book,
            closure,
            claims: Claims::none(),
            rng: Rng(seed),
            round: Round::default(),
            counts: Counts::default(),
        }
    }

    /// The book's closure, after it changed.
    pub fn solve(&mut self) {
        self.closure = Closure::of(&self.book, None);
    }

    /// The answer is the one that is owed.
    pub fn told(&mut self, a: Answer, owed: Reply) {
        self.counts.replied(a.reply, owed);
        self.workspace = a.workspace;
    }

    /// The workspace agrees with the book.
    pub fn tell_workspace(&mut self) {
        let agrees = workspaces::agrees(&self.workspace, &self.book);
        self.counts.expect(agrees);
    }

    /// No byte of the buffer is written.
    pub fn tell_buffer(&mut self) {
        let clean = untouched(&self.proof);
        self.counts.expect(clean);
    }

    // A call that changes the workspace, and then each of those that don't.
    fn step(&mut self) {
        self.change();
        self.tell_workspace();
        self.tell_buffer();
        self.check();
        self.compare();
        self.classes();
        self.tell_workspace();
        self.tell_buffer();
    }

    /// From a fresh workspace: calls, and then every pair of nodes.
    pub fn round(&mut self) {
        self.clear();
        self.round = Round::draw(&mut self.rng);
        for _ in 0..self.round.calls(&mut self.rng) {
            self.step();
        }
        self.pairs();
    }
}
