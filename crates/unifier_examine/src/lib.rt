// Whether a value is a workspace: its shape first, then its held equations are solved. Every call begins here, and goes on from
// the class table and the trace that this leaves.
#![tactic(auto)]

ghost use Rattle.unifier_examine.specs.Examines.{Examines};

use solve::Finding;
use solve_trace::Trace;
use store::{Equations, Terms};

// The class table of the held equations, where terms and equations make a workspace; and the trace of its merges.
pub fn examine(trace: &mut Trace, t: &Terms, e: &Equations) -> Option<[u8; 64]>
    ensures { Examines t.now e.now trace.new.items result }
{
    if !store_shape::shaped(t, e) {
        return None;
    }
    let o = solve::decide(trace, t, e);
    match o.verdict {
        Finding::Solved => Some(o.table),
        Finding::Clash(_, _) | Finding::Cycle => None,
    }
}
