// How two nodes stand, and proofs of what the solver found, each in a lent buffer.
#![tactic(auto)]

ghost use Rattle.std.specs.Prelude.{◌≤◌, ◌<◌, length};
ghost use Rattle.graph.specs.Limits.{buffer_bytes};
ghost use Rattle.graph.specs.Closure.{Cycle};
ghost use Rattle.graph.specs.Lines.{same, below};
ghost use Rattle.graph.specs.Goals.{cycle_goal};
ghost use Rattle.store.specs.Views.{state_from};
ghost use Rattle.store.specs.Shape.{Shape};
ghost use Rattle.solve_heights.specs.Peel.{Peeled};
ghost use Rattle.solve_reach.specs.Reach.{Reaches};
ghost use Rattle.solve_reach.specs.Search.{Reached};
ghost use Rattle.proof_lines.specs.Proof.{ProofIn};
ghost use Rattle.write_same.specs.Replay.{OneClass};
ghost use Rattle.unifier_respond.specs.Shows.{Shows, TracedClosure};
ghost use Rattle.unifier_respond.specs.Stands.{Known, StandingProved};

use solve_heights::Heights;
use solve_reach::Search;
use solve_trace::Entry;
use store::{Equations, Terms};
use write_same::Grounds;

// How two nodes stand, with the number of lines.
#[derive(Clone, Copy, PartialEq, Eq, Debug)]
pub enum Standing {
    Same(u16),
    Below(u16),
    Above(u16),
    Apart,
}

// Lines for all that same(u, v) shows, where the trace joins u and v. Gives their number, as the two below. A lent buffer is the caller's
// memory, of any length from 65,536 bytes on, so its length is asked in contracts from here down to the pen: an array would be of just one length.
// Nodes, equations, table and trace come one by one: the nodes are a workspace's, the equations its own or those with the offered one, the table
// goes by value, the trace is the solver's; `Grounds` is made of three of them here.
pub fn show_same(buf: &mut [u8], t: &Terms, e: &Equations, trace: &[Entry], u: u8, v: u8) -> usize
    requires shape { Shape t.now e.now }
    requires proof_room { buffer_bytes ≤ length buf.old }
    requires u_lt_count { (u < t.now.count) × (v < t.now.count) }
    requires one_class { OneClass (state_from t.now e.now) trace.now u v }
    ensures { Shows (state_from t.now e.now) (same u v) result buf.old buf.new }
{
    let grounds = Grounds { t, e, trace };
    write_same::explain_same(buf, &grounds, u, v)
}

// Lines for all that below(u, v) shows, where the search from u reached v's class.
fn show_below(
    buf: &mut [u8],
    t: &Terms,
    e: &Equations,
    table: [u8; 64],
    trace: &[Entry],
    search: &Search,
    u: u8,
    v: u8,
) -> usize
    requires shape { Shape t.now e.now }
    requires proof_room { buffer_bytes ≤ length buf.old }
    requires u_lt_count { (u < t.now.count) × (v < t.now.count) }
    requires traced_closure { TracedClosure (state_from t.now e.now) trace.now table }
    requires reached { Reached t.now table search.now u × Reaches table search.now v }
    ensures { Shows (state_from t.now e.now) (below u v) result buf.old buf.new }
{
    let grounds = Grounds { t, e, trace };
    write_below::explain_below(buf, &grounds, table, search, u, v)
}

// A proof of a cycle, where the peel left something.
pub fn show_cycle(
    buf: &mut [u8],
    t: &Terms,
    e: &Equations,
    table: [u8; 64],
    heights: &Heights,
    trace: &[Entry],
) -> usize
    requires shape { Shape t.now e.now }
    requires proof_room { buffer_bytes ≤ length buf.old }
    requires traced_closure { TracedClosure (state_from t.now e.now) trace.now table }
    requires peeled { Peeled t.now table heights.now }
    requires cycle { Cycle (state_from t.now e.now) }
    ensures { ProofIn (state_from t.now e.now) cycle_goal result buf.old buf.new }
{
    let circle = solve_reach::find_cycle(table, heights, t).unwrap();
    let grounds = Grounds { t, e, trace };
    write_below::explain_cycle(buf, &grounds, table, &circle.search, circle.node)
}

// How `u` and `v` stand, in the closure of the equations that made the table and its trace.
pub fn stand(
    buf: &mut [u8],
    t: &Terms,
    e: &Equations,
    table: [u8; 64],
    trace: &[Entry],
    u: u8,
    v: u8,
) -> Standing
    requires known { Known t.now e.now u v table trace.now }
    requires buffer_bytes_in_bounds { buffer_bytes ≤ length buf.old }
    ensures { StandingProved (state_from t.now e.now) u v buf.old buf.new result }
{
    let a = usize::from(table[usize::from(u)]);
    let b = usize::from(table[usize::from(v)]);
    if a == b {
        let lines = show_same(buf, t, e, trace, u, v);
        return Standing::Same(lines as u16);
    }
    let down = solve_reach::reach(table, t, u);
    if down.reached[b].is_some() {
        let lines = show_below(buf, t, e, table, trace, &down, u, v);
        return Standing::Below(lines as u16);
    }
    let up = solve_reach::reach(table, t, v);
    if up.reached[a].is_some() {
        let lines = show_below(buf, t, e, table, trace, &up, v, u);
        return Standing::Above(lines as u16);
    }
    Standing::Apart
}
