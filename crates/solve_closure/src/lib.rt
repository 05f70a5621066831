// The closure of equations on nodes: rounds of visits to a clash or a closed table, with the trace of its merges.
#![tactic(auto)]

ghost use Rattle.graph.specs.State.{Equation, State, offered};
ghost use Rattle.store.specs.Views.{lent_terms, lent_ends};
ghost use Rattle.solve_trace.specs.Nodes.{Formed};
ghost use Rattle.solve_trace.specs.Steps.{TraceFits};
ghost use Rattle.solve_closure.specs.Rounds.{settling, Round, Rounds};
ghost use Rattle.solve_closure.specs.Settled.{Given, ArraysHold, RoundsEnded, Settled, OfferFits, Before};

use byte_option::ByteOption;
use solve_trace::{Entry, Trace};
use store::{LentEnds, LentTerms};

// What settling comes to: the class table, and where there is a clash, its two nodes.
#[derive(Clone, Copy)]
pub struct Settling {
    pub table: [u8; 64],
    pub clash: Option<(u8, u8)>,
}

// One round, from the highest node down: a functor node and the head of its class clash, or their children are joined. A head is kept for
// each root from here on. Gives the two nodes of a clash.
fn round(table: &mut [u8; 64], trace: &mut Trace, t: &LentTerms) -> Option<(u8, u8)>
    requires trace_fits { TraceFits table.old trace.old.items }
    requires formed { Formed (lent_terms t.now) }
    ensures { Round (lent_terms t.now) table.old trace.old.items (settling table.new result) trace.new.items }
{
    let mut head = [ByteOption::none(); 64];
    for u in (0..t.count).rev() {
        let Some(v) = store::meet(&mut head, usize::from(table[u]), t.kind, u) else {
            continue;
        };
        let w = usize::from(v);
        if t.symbol[u] != t.symbol[w] {
            return Some((u as u8, v));
        }
        let next = solve_trace::join_children(*table, trace, t, u, w);
        *table = next;
    }
    None
}

// Rounds, until one clashes or merges nothing. The table in place, since by value each round copied it.
fn rounds(table: &mut [u8; 64], trace: &mut Trace, t: &LentTerms) -> Option<(u8, u8)>
    requires trace_fits { TraceFits table.old trace.old.items }
    requires formed { Formed (lent_terms t.now) }
    ensures { Rounds (lent_terms t.now) table.old trace.old.items (settling table.new result) trace.new.items }
{
    loop {
        let before = trace.len();
        let clash = round(table, trace, t);
        if clash.is_some() || trace.len() == before {
            return clash;
        }
    }
}

// The closure of the equations on the nodes: a clash, or the table of its classes; and the trace.
pub fn settle(trace: &mut Trace, t: &LentTerms, e: &LentEnds) -> Settling
    requires { Given (lent_terms t.now) (lent_ends e.now) }
    ensures rounds_ended { RoundsEnded (lent_terms t.now) result trace.new.items }
    ensures settled { (s : State) → ArraysHold (lent_terms t.now) (lent_ends e.now) s → Settled (lent_terms t.now) s result trace.new.items }
{
    trace.clear();
    let mut table = solve_trace::join_equations(solve_classes::fresh(), trace, e);
    let clash = rounds(&mut table, trace, t);
    Settling { table, clash }
}

// One equation more, between `x` and `y`, on the table and trace of a state of `m` equations.
pub fn settle_offered(
    mut table: [u8; 64],
    trace: &mut Trace,
    t: &LentTerms,
    m: usize,
    x: u8,
    y: u8,
) -> Settling
    requires { OfferFits (lent_terms t.now) m x y table trace.old.items }
    ensures rounds_ended { RoundsEnded (lent_terms t.now) result trace.new.items }
    ensures settled { (s : State) (e : Equation) → Before (lent_terms t.now) s e m x y table trace.old.items
        → Settled (lent_terms t.now) (offered s e) result trace.new.items }
{
    solve_trace::join(&mut table, trace, x, y, Entry::Equation(m as u16));
    let clash = rounds(&mut table, trace, t);
    Settling { table, clash }
}
