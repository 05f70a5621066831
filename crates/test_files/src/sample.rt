// A workspace with a proof of every kind. Nodes 0, 1 and 2, variables; 3 = 7(0, 1); 4 = 7(1, 2); 5, a variable; 6 and 7, symbols 1
// and 2; 8, a variable. Equations 10, 3 = 4; 11, 5 = 0; 12, 8 = 6. So 5 same 2, 5 lies below 3, 8 = 7 clashes, 5 = 3 is a cycle.
use test_solver::book::Equation;
use test_solver::checker::{Claim, Goal, Question};
use test_tools::replies::Answer;
use test_tools::workspaces::{equated, functor, variable};
use unifier::Workspace;

fn nodes() -> Workspace {
    let a = variable(variable(variable(Workspace::fresh())));
    let b = functor(functor(a, 7, &[0, 1]), 7, &[1, 2]);
    let c = functor(functor(variable(b), 1, &[]), 2, &[]);
    variable(c)
}

pub fn workspace(proof: &mut [u8]) -> Workspace {
    let a = equated(nodes(), 10, 3, 4, proof);
    let b = equated(a, 11, 5, 0, proof);
    equated(b, 12, 8, 6, proof)
}

/// Whether two nodes are same, with nothing offered.
pub fn same(u: u16, v: u16) -> Question {
    Question {
        offer: None,
        goal: Goal::Claim(Claim::same(u, v)),
    }
}

/// Whether an offered equation clashes.
pub fn clash(name: u16, left: u16, right: u16) -> Question {
    Question {
        offer: Some(Equation { name, left, right }),
        goal: Goal::Clash,
    }
}

/// The bytes of the proof of 5 same 2.
pub fn prove(w: Workspace, proof: &mut [u8]) -> usize {
    Answer::stand(w.compare(5, 2, proof)).proof
}
