// Merges of a class table with a trace of their reasons: one join, all equations, the children of two nodes.
#![tactic(auto)]

ghost use Rattle.std.specs.Prelude.{◌≡◌, ℕ, ◌≤◌, ◌<◌, length, get_or};
ghost use Rattle.graph.specs.Limits.{child_limit, equation_limit};
ghost use Rattle.solve_classes.specs.Table.{class};
ghost use Rattle.store.specs.Views.{lent_terms, lent_ends, arity_at, child_at};
ghost use Rattle.solve_trace.specs.declared.Entry.{Entry};
ghost use Rattle.solve_trace.specs.declared.Entry.TheVariants.{Equation};
ghost use Rattle.solve_trace.specs.Nodes.{EquationEnds};
ghost use Rattle.solve_trace.specs.Steps.{TraceFits, Joins, Gives, PairsJoined, Places};

use bounded_list::BoundedList;
use store::{LentEnds, LentTerms};

// Why two nodes are joined: the held equation at that place, or two nodes of one class and a place of their children, counted from 0.
#[derive(Clone, Copy, PartialEq, Eq, Debug)]
pub enum Entry {
    Equation(u16),
    Children { left: u8, right: u8, place: u8 },
}

// The blank of a trace, which its unused places hold. By hand, since a derive wants a variant without values.
impl Default for Entry {
    fn default() -> Entry
        ensures { result ≡ Equation 0 }
    {
        Entry::Equation(0)
    }
}

// The entries of a table's merges, in order: a merge leaves one class fewer, so 64 are enough.
pub type Trace = BoundedList<Entry, 64>;

// The classes of `x` and `y` become one; where they were two, the trace gets the entry `reason`.
pub fn join(table: &mut [u8; 64], trace: &mut Trace, x: u8, y: u8, reason: Entry)
    requires trace_fits { TraceFits table.old trace.old.items }
    requires x_bound { (x < 64) × (y < 64) }
    ensures { Joins table.old trace.old.items x y reason table.new trace.new.items }
{
    let first = table[usize::from(x)];
    let second = table[usize::from(y)];
    if first != second {
        trace.push(reason);
        *table = solve_classes::unite(*table, first, second);
    }
}

// The elements of two slices are joined place by place; what `reason` gives for a place is the entry.
fn join_pairs<F: Fn(usize) -> Entry>(
    table: &mut [u8; 64],
    trace: &mut Trace,
    left: &[u8],
    right: &[u8],
    reason: F,
)
    requires trace_fits { TraceFits table.old trace.old.items }
    requires callable { (k : ℕ) → k < length left.now → F.pre reason k }
    requires equal { length left.now ≡ length right.now }
    requires by_index { (k : ℕ) → k < length left.now → (get_or left.now k 0 < 64) × (get_or right.now k 0 < 64) }
    ensures { PairsJoined (Gives (F.post reason) left.now right.now table.old) (λ (k : ℕ). get_or left.now k 0) (λ (k : ℕ). get_or right.now k 0)
        (length left.now) table.old trace.old.items table.new trace.new.items }
{
    for (k, (x, y)) in left.iter().zip(right).enumerate() {
        join(table, trace, *x, *y, reason(k));
    }
}

// The ends of the equations are joined.
pub fn join_equations(mut table: [u8; 64], trace: &mut Trace, e: &LentEnds) -> [u8; 64]
    requires trace_fits { TraceFits table trace.old.items }
    requires few { e.now.count ≤ equation_limit }
    requires by_index { (k : ℕ) → k < e.now.count → (get_or e.now.left.now k 0 < 64) × (get_or e.now.right.now k 0 < 64) }
    ensures { PairsJoined (EquationEnds (lent_ends e.now)) (λ (k : ℕ). get_or e.now.left.now k 0) (λ (k : ℕ). get_or e.now.right.now k 0) e.now.count
        table trace.old.items result trace.new.items }
{
    let n = e.count;
    let (left, right) = (e.left, e.right);
    join_pairs(&mut table, trace, &left[..n], &right[..n], |k| {
        Entry::Equation(k as u16)
    });
    table
}

// The children of `u`, and as many of `v`, are joined place by place.
#[tactic(auto, using(base::proofs::TabLaws::tab_length, base::proofs::TabLaws::tab_get_d))]
pub fn join_children(
    mut table: [u8; 64],
    trace: &mut Trace,
    t: &LentTerms,
    u: usize,
    v: usize,
) -> [u8; 64]
    requires trace_fits { TraceFits table trace.old.items }
    requires u_bound { (u < 64) × (v < 64) × (arity_at (lent_terms t.now) u ≤ child_limit) × (class table u ≡ class table v) }
    requires by_index { (k : ℕ) → k < arity_at (lent_terms t.now) u → (child_at (lent_terms t.now) u k < 64) × (child_at (lent_terms t.now) v k < 64) }
    ensures { PairsJoined (Places (lent_terms t.now) u v) (child_at (lent_terms t.now) u) (child_at (lent_terms t.now) v) (arity_at (lent_terms t.now) u)
        table trace.old.items result trace.new.items }
{
    let n = usize::from(t.arity[u]);
    let (left, right) = (u as u8, v as u8);
    join_pairs(
        &mut table,
        trace,
        t.first_children(u, n),
        t.first_children(v, n),
        |k| Entry::Children {
            left,
            right,
            place: k as u8,
        },
    );
    table
}
