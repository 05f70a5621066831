// The test that arrays of nodes and equations, with any values whatever in them, are well-shaped.
#![tactic(auto)]

ghost use Rattle.std.specs.Prelude.{◌≡◌, ◌+◌, ◌*◌, ◌≤◌, ◌<◌, length, nat_lt};
ghost use Rattle.std.specs.List.{list_all};
ghost use Rattle.graph.specs.Limits.{node_limit, child_limit, equation_limit};
ghost use Rattle.store.specs.Views.{arity_at, child_at};
ghost use Rattle.store.specs.Shape.{TermsShape, EquationsShape, Shape};
ghost use Rattle.store_shape.specs.Rules.{Distinct, Head, ChildRule, NodeRule, EndRules};
ghost use Rattle.base.specs.Tells.{Tells, Each};
ghost use Rattle.store_shape.specs.Bits.{BitNoted, Marks};

use store::{Equations, Terms};

// The folds of the next two have no way out in the middle, so that the compiler can take many elements at a time: with `all` the shape test
// took 4.5 times plain Rust's time at 8 nodes and 1.5 times at 64, and not 1.1; it is part of each call, whose goal is 1.3.

// Whether each is z.
fn each_is<T: Copy + PartialEq>(s: &[T], z: T) -> bool
    ensures { result ≡ list_all (λ x. T.eq x z) s.now }
{
    s.iter().fold(true, |ok, x| ok & (*x == z))
}

// Whether each is below m.
fn each_below(s: &[u8], m: u8) -> bool
    ensures { result ≡ list_all (λ x. nat_lt x m) s.now }
{
    s.iter().fold(true, |ok, x| ok & (*x < m))
}

// ---- nodes

fn head_ok(kind: u8, symbol: u16, arity: u8) -> bool
    ensures { Tells (Head kind symbol arity) result }
{
    if kind == 0 {
        (symbol == 0) & (arity == 0)
    } else {
        (kind == 1) & (usize::from(arity) <= graph::CHILDREN)
    }
}

fn place_ok(arity: u8, u: u8, c: u8, j: u8) -> bool
    ensures { Tells (ChildRule arity u c j) result }
{
    if j < arity { c < u } else { c == 0 }
}

fn places_ok(t: &Terms, u: usize) -> bool
    requires { u < node_limit }
    ensures { Tells (Each (λ j. ChildRule (arity_at t.now u) u (child_at t.now u j) j) child_limit) result }
{
    (0..graph::CHILDREN).all(|j| place_ok(t.arity[u], u as u8, t.child[4 * u + j], j as u8))
}

fn nodes_ok(t: &Terms) -> bool
    requires { t.now.count ≤ node_limit }
    ensures { Tells (Each (NodeRule t.now) t.now.count) result }
{
    (0..t.count).all(|u| head_ok(t.kind[u], t.symbol[u], t.arity[u]) && places_ok(t, u))
}

// Whether the nodes are well-shaped.
pub fn terms_shaped(t: &Terms) -> bool
    ensures { Tells (TermsShape t.now) result }
{
    let n = t.count;
    if n > graph::NODES {
        return false;
    }
    let used = nodes_ok(t);
    let unused = each_is(&t.kind[n..], 0)
        & each_is(&t.symbol[n..], 0)
        & each_is(&t.arity[n..], 0)
        & each_is(&t.child[4 * n..], 0);
    used & unused & store_arity::one_arity(t)
}

// ---- equations

// Notes x in the set; tells whether it is new there.
fn note(seen: &mut [u64; 1024], x: u16) -> bool
    ensures { BitNoted seen.old seen.new x result }
{
    let w = usize::from(x / 64);
    let b = x % 64;
    let old = seen[w];
    seen[w] = old | (1 << b);
    (old >> b) % 2 == 0
}

// Whether all are different.
fn all_differ(names: &[u16]) -> bool
    ensures { Tells (Distinct names.now (length names.now)) result }
{
    let mut seen = [0; 1024];
    for x in names {
        if !note(&mut seen, *x) {
            return false;
        }
    }
    true
}

// Whether the ends of the equations are below n, and all unused places zero.
fn ends_ok(n: usize, e: &Equations) -> bool
    requires { (n ≤ node_limit) × (e.now.count ≤ equation_limit) }
    ensures { Tells (EndRules n e.now) result }
{
    let m = e.count;
    let known = each_below(&e.left[..m], n as u8) & each_below(&e.right[..m], n as u8);
    let unused = each_is(&e.name[m..], 0) & each_is(&e.left[m..], 0) & each_is(&e.right[m..], 0);
    known & unused
}

// Whether the equations are well-shaped beside n nodes.
pub fn equations_shaped(n: usize, e: &Equations) -> bool
    requires { n ≤ node_limit }
    ensures { Tells (EquationsShape n e.now) result }
{
    let m = e.count;
    if m > graph::EQUATIONS {
        return false;
    }
    ends_ok(n, e) && all_differ(&e.name[..m])
}

// Whether nodes and equations are well-shaped.
pub fn shaped(t: &Terms, e: &Equations) -> bool
    ensures { Tells (Shape t.now e.now) result }
{
    terms_shaped(t) && equations_shaped(t.count, e)
}
