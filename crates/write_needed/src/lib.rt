// The entries of a trace that a goal needs.
#![tactic(auto)]

ghost use Rattle.std.specs.Prelude.{◌≡◌, true, ◌++◌, ◌<◌, IfSome};
ghost use Rattle.solve_classes.specs.Table.{Table};
ghost use Rattle.write_needed.specs.Entries.{left_end, right_end, Placed, AllInRange, Together};
ghost use Rattle.write_needed.specs.Trim.{NodePairs, PairsTogether, Extended, Rejoins, Trimmed};

use solve_trace::{Entry, Trace};
use store::{Equations, Terms};

// The two nodes that an entry joins: an equation's ends, or the children of two nodes at the entry's place.
pub fn ends_of(entry: Entry, t: &Terms, e: &Equations) -> (u8, u8)
    requires { Placed entry }
    ensures left { result.0 ≡ left_end t.now e.now entry }
    ensures right { result.1 ≡ right_end t.now e.now entry }
{
    match entry {
        Entry::Equation(k) => (e.left[usize::from(k)], e.right[usize::from(k)]),
        Entry::Children { left, right, place } => (
            t.child[4 * usize::from(left) + usize::from(place)],
            t.child[4 * usize::from(right) + usize::from(place)],
        ),
    }
}

// The entry's nodes are of one class, where it has two.
fn together(table: &[u8; 64], entry: Entry) -> bool
    requires { Placed entry }
    ensures { result ≡ true → Together table.now entry }
{
    match entry {
        Entry::Equation(_) => true,
        Entry::Children { left, right, .. } => {
            table[usize::from(left)] == table[usize::from(right)]
        }
    }
}

// Each pair is of one class.
fn paired(table: &[u8; 64], pairs: &[(u8, u8)]) -> bool
    requires { NodePairs pairs.now }
    ensures { result ≡ true → PairsTogether table.now pairs.now }
{
    pairs
        .iter()
        .all(|(x, y)| table[usize::from(*x)] == table[usize::from(*y)])
}

// The table that the entries make on from `table`, if each joins two of its classes.
fn rebuild(mut table: [u8; 64], entries: &[Entry], t: &Terms, e: &Equations) -> Option<[u8; 64]>
    requires table { Table table }
    requires in_range { AllInRange t.now e.now entries.now }
    ensures { IfSome result (λ r. Extended t.now e.now table entries.now r) }
{
    for entry in entries {
        let (a, b) = ends_of(*entry, t, e);
        let ca = table[usize::from(a)];
        let cb = table[usize::from(b)];
        if ca == cb || !together(&table, *entry) {
            return None;
        }
        let next = solve_classes::unite(table, ca, cb);
        table = next;
    }
    Some(table)
}

// The entries of both are a trace that joins u and v, and each pair.
fn joins(
    before: &[Entry],
    after: &[Entry],
    t: &Terms,
    e: &Equations,
    u: u8,
    v: u8,
    pairs: &[(u8, u8)],
) -> bool
    requires in_range { AllInRange t.now e.now before.now × AllInRange t.now e.now after.now }
    requires u_bound { (u < 64) × (v < 64) }
    requires pairs { NodePairs pairs.now }
    ensures { result ≡ true → Rejoins t.now e.now (before.now ++ after.now) u v pairs.now }
{
    let Some(first) = rebuild(solve_classes::fresh(), before, t, e) else {
        return false;
    };
    let Some(table) = rebuild(first, after, t, e) else {
        return false;
    };
    table[usize::from(u)] == table[usize::from(v)] && paired(&table, pairs)
}

// Entries are dropped, the last first, while the rest still join u and v, and each pair. In place: a trace handed on by value is copied.
// No struct of `t`, `e` and entries in range: `joins` looks at the entries before and behind each one that is tried, so two structs
// would be made, and their fact proved, for each try.
pub fn trim(trace: &mut Trace, t: &Terms, e: &Equations, u: u8, v: u8, pairs: &[(u8, u8)])
    requires in_range { AllInRange t.now e.now trace.old.items }
    requires u_bound { (u < 64) × (v < 64) }
    requires pairs { NodePairs pairs.now }
    ensures { Trimmed t.now e.now trace.old.items u v pairs.now trace.new.items }
{
    for k in (0..trace.len()).rev() {
        let kept = trace.as_slice();
        if joins(&kept[..k], &kept[k + 1..], t, e, u, v, pairs) {
            trace.remove(k);
        }
    }
}
