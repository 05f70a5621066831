// The verdict on a set of equations: a solution, a clash or a cycle, with its reason, the class table and the trace of its merges.
#![tactic(auto)]

ghost use Rattle.std.specs.Prelude.{List};
ghost use Rattle.graph.specs.State.{Equation, State, offered};
ghost use Rattle.store.specs.Views.{lent_terms};
ghost use Rattle.solve_classes.specs.Table.{Table};
ghost use Rattle.solve_trace.specs.declared.Entry.{Entry};
ghost use Rattle.solve_trace.specs.Nodes.{Nodes, Formed};
ghost use Rattle.solve_closure.specs.Settled.{Given, ArraysHold, Settled, OfferFits, Before};
ghost use Rattle.solve.specs.Decided.{Decided, LeftOver};

use byte_option::ByteOption;
use solve_closure::Settling;
use solve_heights::Heights;
use solve_trace::Trace;
use store::{Equations, LentTerms, Terms};

// Clash has its two functor nodes; where there is a cycle, `solve_reach` finds it.
#[derive(Clone, Copy, PartialEq, Eq, Debug)]
pub enum Finding {
    Solved,
    Clash(u8, u8),
    Cycle,
}

// Node u is in the class with root `table[u]` and has, where the verdict is Solved, the height of that class. The heights stand beside the
// verdict and not in two of its variants: Solved and Cycle both have them, and what is known of them is said of both at once. After a clash no
// class has one.
#[derive(Clone, Copy)]
pub struct SolveResult {
    pub table: [u8; 64],
    pub heights: Heights,
    pub verdict: Finding,
}

// The verdict on a settled closure.
fn judge(o: Settling, t: &LentTerms) -> SolveResult
    requires table { Table o.table }
    requires formed { Formed (lent_terms t.now) }
    ensures left_over { LeftOver (lent_terms t.now) result.table result.heights result.verdict }
    ensures decided { (s : State) (es : List Entry) → Nodes (lent_terms t.now) s → Settled (lent_terms t.now) s o es → Decided s result es }
{
    let table = o.table;
    if let Some((u, v)) = o.clash {
        return SolveResult {
            table,
            heights: Heights {
                height: [ByteOption::none(); 64],
                left: 0,
            },
            verdict: Finding::Clash(u, v),
        };
    }
    let heights = solve_heights::peel(table, t);
    let verdict = if heights.left == 0 {
        Finding::Solved
    } else {
        Finding::Cycle
    };
    SolveResult {
        table,
        heights,
        verdict,
    }
}

// The verdict on the equations over the nodes.
pub fn decide(trace: &mut Trace, t: &Terms, e: &Equations) -> SolveResult
    requires { Given t.now e.now }
    ensures { (s : State) → ArraysHold t.now e.now s → Decided s result trace.new.items }
{
    let t = t.lend();
    judge(solve_closure::settle(trace, &t, &e.ends()), &t)
}

// The verdict with one equation more, between `x` and `y`, on the table and trace of a state of `m` equations without a clash.
pub fn extend(table: [u8; 64], trace: &mut Trace, t: &Terms, m: usize, x: u8, y: u8) -> SolveResult
    requires { OfferFits t.now m x y table trace.old.items }
    ensures left_over { LeftOver t.now result.table result.heights result.verdict }
    ensures decided { (s : State) (e : Equation) → Before t.now s e m x y table trace.old.items → Decided (offered s e) result trace.new.items }
{
    let t = t.lend();
    judge(solve_closure::settle_offered(table, trace, &t, m, x, y), &t)
}
