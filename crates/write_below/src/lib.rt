// Lines that end in u below v: from v back up to u, a step down at a time, by how each class was reached from u: see `solve_reach`.
#![tactic(auto)]

ghost use Rattle.std.specs.Prelude.{◌≡◌, ℕ, List, [], ◌∷◌, ◌++◌, ◌+◌, ◌≤◌, ◌<◌, length, take, map};
ghost use Rattle.graph.specs.Limits.{buffer_bytes};
ghost use Rattle.solve_classes.specs.Table.{Table};
ghost use Rattle.solve_reach.specs.Reach.{Reaches, Ways};
ghost use Rattle.write_runs.specs.Pens.{Takes};
ghost use Rattle.write_below.specs.declared.Rung.{Rung};
ghost use Rattle.write_below.specs.Steps.{pair_of, upper, OnNodes, AllOnNodes, Leads, Top};
ghost use Rattle.write_below.specs.Chain.{Descended, Climbed, Arrived, Ascended, Lowered, Circled};

use bounded_list::BoundedList;
use proof_lines::Fields;
use solve_reach::{Down, Search};
use write_runs::Pen;
use write_same::Grounds;

// A rung of a way up: a step down into the class of node `low`.
#[derive(Clone, Copy, Default)]
struct Rung {
    down: Down,
    low: u8,
}

// The rungs of a way, its lowest first: at most 64, since their levels fall.
type Way = BoundedList<Rung, 64>;

// The way up from v to u's class is put into an empty way: handed on by value it is copied. No struct of table, search and u:
// only this function looks into them, the others hand them on, and `explain_cycle` goes on from another node than u.
fn way_up(way: &mut Way, table: [u8; 64], search: &Search, u: u8, v: u8)
    requires empty { way.old.items ≡ [] }
    requires u_bound { (u < 64) × (v < 64) }
    requires ways { Ways table search.now u × Reaches table search.now v }
    requires table { Table table }
    ensures { Leads table search.now u v way.new.items }
{
    let mut low = v;
    while let Some(down) = search.reached[usize::from(table[usize::from(low)])] {
        way.push(Rung { down, low });
        low = down.parent;
        if table[usize::from(low)] == table[usize::from(u)] {
            return;
        }
    }
}

// The two nodes of one class at the lower end of each step are put into an empty list. In a loop: `collect` asks for an allocator.
fn put_pairs(pairs: &mut BoundedList<(u8, u8), 64>, steps: &[Rung])
    requires empty { pairs.old.items ≡ [] }
    requires few_steps { length steps.now ≤ 64 }
    ensures { pairs.new.items ≡ map pair_of steps.now }
{
    for step in steps {
        pairs.push((step.down.into, step.low));
    }
}

// The node at the upper end of a way.
fn top_of(steps: &[Rung]) -> u8
    requires { 1 ≤ length steps.now }
    ensures { (v : ℕ) → result ≡ upper v steps.now }
{
    steps[steps.len() - 1].down.parent
}

// The node of u's class at which the way down from u that leads back to it begins.
fn top(table: [u8; 64], search: &Search, u: u8) -> u8
    requires u_bound { u < 64 }
    requires ways { Ways table search.now u × Reaches table search.now u }
    requires table { Table table }
    ensures { Top table search.now u result }
{
    let mut way = Way::new(Rung::default());
    way_up(&mut way, table, search, u, u);
    top_of(way.as_slice())
}

// The step's parent below its low node, in one line or four.
fn descend(pen: &mut Pen, step: Rung) -> u16
    requires room { Takes pen.old 4 }
    requires on_nodes { OnNodes step }
    ensures { Descended pen.old step pen.new result }
{
    let Down {
        parent,
        place,
        into,
        level: _,
    } = step.down;
    let down = pen.put(Fields::child(u16::from(parent), place));
    if into == step.low {
        return down;
    }
    let i = pen.to[usize::from(into)];
    let j = pen.to[usize::from(step.low)];
    let same = pen.link(i, j);
    pen.put(Fields::transitivity(down, same))
}

// From line `l`, the low node of the first step below v: the parent of the last step below v, in five lines a step at most.
fn climb(pen: &mut Pen, steps: &[Rung], l: u16) -> u16
    requires room { (length steps.now ≤ 63) × Takes pen.old 315 }
    requires on_nodes { AllOnNodes steps.now }
    ensures { Climbed pen.old steps.now l pen.new result }
{
    let mut last = l;
    for step in steps {
        let down = descend(pen, *step);
        let longer = pen.put(Fields::transitivity(down, last));
        last = longer;
    }
    last
}

// From line `l`, q below v, where u and q are of one class: u below v, in three lines or none.
fn arrive(pen: &mut Pen, u: u8, q: u8, l: u16) -> u16
    requires room { Takes pen.old 3 }
    requires u_bound { (u < 64) × (q < 64) }
    ensures { Arrived pen.old u q l pen.new result }
{
    if u == q {
        return l;
    }
    let i = pen.to[usize::from(u)];
    let j = pen.to[usize::from(q)];
    let same = pen.link(i, j);
    pen.put(Fields::transitivity(same, l))
}

// Lines that end in u below v, by the way up from v to u's class.
fn ascend(pen: &mut Pen, steps: &[Rung], u: u8)
    requires room { (1 ≤ length steps.now) × ((length steps.now ≤ 64) × Takes pen.old 322) }
    requires on_nodes { AllOnNodes steps.now }
    requires u_bound { u < 64 }
    ensures { Ascended pen.old steps.now u pen.new }
{
    let first = descend(pen, steps[0]);
    let highest = climb(pen, &steps[1..], first);
    arrive(pen, u, top_of(steps), highest);
}

// Lines that end in u below v, where `table` is the trace's and the search from u reached v's class. Gives their number.
pub fn explain_below(
    buf: &mut [u8],
    grounds: &Grounds,
    table: [u8; 64],
    search: &Search,
    u: u8,
    v: u8,
) -> usize
    requires room { buffer_bytes ≤ length buf.old }
    requires u_bound { (u < 64) × (v < 64) }
    requires ways { Ways table search.now u × Reaches table search.now v }
    requires table { Table table }
    ensures { Lowered grounds.now.t.now grounds.now.e.now grounds.now.trace.now table search.now buf.old u v buf.new result }
{
    let mut way = Way::new(Rung::default());
    way_up(&mut way, table, search, u, v);
    let steps = way.as_slice();
    let mut pairs = BoundedList::new((0, 0));
    put_pairs(&mut pairs, steps);
    let top = top_of(steps);
    let mut pen = write_same::prepare(buf, grounds, u, top, pairs.as_slice());
    ascend(&mut pen, steps, u);
    pen.lines
}

// Lines that end in p below p, where the search from u led back to its class: p is the node of that class at which the way down begins.
// From u itself the lines would go to p and back again, each time that they are unfolded.
pub fn explain_cycle(
    buf: &mut [u8],
    grounds: &Grounds,
    table: [u8; 64],
    search: &Search,
    u: u8,
) -> usize
    requires room { buffer_bytes ≤ length buf.old }
    requires u_bound { u < 64 }
    requires ways { Ways table search.now u × Reaches table search.now u }
    requires table { Table table }
    ensures { Circled grounds.now.t.now grounds.now.e.now grounds.now.trace.now table search.now buf.old buf.new result }
{
    let p = top(table, search, u);
    explain_below(buf, grounds, table, search, p, p)
}
