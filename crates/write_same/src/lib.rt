// A trace of merges replayed as proof lines, and the lines for two nodes of one class.
#![tactic(auto)]

ghost use Rattle.std.specs.Prelude.{◌≡◌, ◌≤◌, ◌<◌, length};
ghost use Rattle.graph.specs.Limits.{node_limit, buffer_bytes};
ghost use Rattle.write_runs.specs.Pens.{Takes};
ghost use Rattle.write_needed.specs.Entries.{Placed, AllInRange};
ghost use Rattle.write_needed.proofs.EntryLaws.{all_in_range_prop};
ghost use Rattle.write_needed.specs.Trim.{NodePairs};
ghost use Rattle.write_same.specs.Replay.{ReasonWritten, EntryReplayed, Retraced, Prepared, Explained};

use proof_lines::Fields;
use solve_trace::{Entry, Trace};
use store::{Equations, Terms};
use write_runs::Pen;

// What a proof is written from: nodes, equations, and entries of a trace of the merges that these make.
#[derive(Clone, Copy)]
pub struct Grounds<'a> {
    pub t: &'a Terms,
    pub e: &'a Equations,
    pub trace: &'a [Entry],
    pub ghost few_nodes: { t.now.count ≤ node_limit },
    pub ghost few_entries: { length trace.now ≤ 63 },
    pub ghost in_range: { AllInRange t.now e.now trace.now } by { all_in_range_prop t.now e.now trace.now },
}

// The lines of an entry's reason, a same b: the equation, or a step down from two nodes of one class.
fn write_reason(pen: &mut Pen, entry: Entry, e: &Equations) -> u16
    requires room { Takes pen.old 3 }
    requires placed { Placed entry }
    ensures { ReasonWritten e.now pen.old entry pen.new result }
{
    match entry {
        Entry::Equation(k) => pen.put(Fields::equation(e.name[usize::from(k)])),
        Entry::Children { left, right, place } => {
            let i = pen.to[usize::from(left)];
            let j = pen.to[usize::from(right)];
            let parents = pen.link(i, j);
            pen.put(Fields::down(parents, place + 1))
        }
    }
}

// One entry: the line of its reason, a same b, and the two classes made one.
fn step(pen: &mut Pen, table: [u8; 64], entry: Entry, e: &Equations, a: u8, b: u8)
    requires room { Takes pen.old 70 }
    requires placed { Placed entry }
    requires a_bound { (a < 64) × (b < 64) }
    ensures { EntryReplayed e.now pen.old table entry a b pen.new }
{
    let reason = write_reason(pen, entry, e);
    pen.rewire(table, reason, a, b);
}

// The lines of the entries, from a line for each node on.
pub fn replay(pen: &mut Pen, grounds: &Grounds)
    requires { (pen.old.lines ≤ 64) × (pen.old.nodes ≡ grounds.now.t.now.count) }
    ensures { Retraced grounds.now.t.now grounds.now.e.now grounds.now.trace.now pen.old pen.new }
{
    let Grounds { t, e, trace } = *grounds;
    let mut table = solve_classes::fresh();
    for entry in trace {
        let (a, b) = write_needed::ends_of(*entry, t, e);
        step(pen, table, *entry, e, a, b);
        let next = solve_classes::merge(table, a, b);
        table = next;
    }
}

// The lines of the entries that are needed to join u and v, and each pair.
pub fn prepare<'a>(
    buf: &'a mut [u8],
    grounds: &Grounds,
    u: u8,
    v: u8,
    pairs: &[(u8, u8)],
) -> Pen<'a>
    requires room { buffer_bytes ≤ length buf.old }
    requires u_bound { (u < 64) × (v < 64) }
    requires pairs { NodePairs pairs.now }
    ensures same_reference { result.buf.ghost_name ≡ buf.entry.ghost_name }
    ensures prepared { Prepared grounds.now.t.now grounds.now.e.now grounds.now.trace.now buf.old u v pairs.now result }
{
    let Grounds { t, e, trace } = *grounds;
    let mut needed = Trace::new(Entry::default());
    needed.extend_from_slice(trace);
    write_needed::trim(&mut needed, t, e, u, v, pairs);
    let mut pen = Pen::start(buf, t.count);
    replay(
        &mut pen,
        &Grounds {
            t,
            e,
            trace: needed.as_slice(),
        },
    );
    pen
}

// Lines that end in u same v, where the trace made them one class. Gives their number.
pub fn explain_same(buf: &mut [u8], grounds: &Grounds, u: u8, v: u8) -> usize
    requires room { buffer_bytes ≤ length buf.old }
    requires u_bound { (u < 64) × (v < 64) }
    ensures { Explained grounds.now.t.now grounds.now.e.now grounds.now.trace.now buf.old u v buf.new result }
{
    let mut pen = prepare(buf, grounds, u, v, &[]);
    let i = pen.to[usize::from(u)];
    let j = pen.to[usize::from(v)];
    pen.link(i, j);
    pen.lines
}
