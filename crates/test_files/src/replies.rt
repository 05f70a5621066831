// The choice between two lists, for a question as the tests speak of it.
use proof_shorter::{List, NoChoice};
use test_solver::checker::Question;
use test_tools::replies::{goal, offer};
use unifier::Workspace;

pub fn choose(w: Workspace, x: Question, a: &[u8], b: &[u8]) -> Result<List, NoChoice> {
    proof_shorter::shorter_reply(w, offer(x.offer), a, b, goal(x.goal))
}

pub fn chosen<'a>(w: Workspace, x: Question, a: &'a [u8], b: &'a [u8]) -> &'a [u8] {
    proof_shorter::shorter(w, offer(x.offer), a, b, goal(x.goal))
}
