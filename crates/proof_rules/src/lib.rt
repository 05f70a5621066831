// The rules that read nodes and equations.
#![tactic(auto)]

ghost use Rattle.std.specs.Prelude.{true, [], ◌≡◌, ◌≤◌, ltb};
ghost use Rattle.std.proofs.Math.Option.{some};
ghost use Rattle.graph.specs.Limits.{node_limit, equation_limit};
ghost use Rattle.graph.specs.State.{extended};
ghost use Rattle.graph.specs.Lines.{same, below, need, functor_at, place_at, by_equation, by_child, down_of};
ghost use Rattle.store.specs.Views.{nodes_of, equations_of};
ghost use Rattle.proof_rules.specs.Rules.{offer_of, offer_below, claim_seen, claimed, found, functor_seen, labels_compared, symbol_in, WithinLimits};

use store::{Equations, Terms};

// A functor node, as the rules look at it.
#[derive(Clone, Copy)]
struct Functor<'a> {
    symbol: u16,
    children: &'a [u8],
}

// An equation offered beside the held ones.
#[derive(Clone, Copy, PartialEq, Eq, Debug)]
pub struct Offer {
    pub name: u16,
    pub left: u16,
    pub right: u16,
}

// What a claim says of its two nodes: they are the same, or the end lies below the start.
#[derive(Clone, Copy, PartialEq, Eq, Debug)]
pub enum ClaimKind {
    Same,
    Below,
}

// What a line claims of two nodes, its start and its end.
#[derive(Clone, Copy, PartialEq, Eq, Debug)]
pub struct Claim {
    pub kind: ClaimKind,
    pub start: u8,
    pub end: u8,
}

// Two makers: one that is handed the kind would say no more than the struct's own literal.
impl Claim {
    pub fn same(start: u8, end: u8) -> Claim
        ensures { claim_seen result ≡ same start end }
    {
        Claim {
            kind: ClaimKind::Same,
            start,
            end,
        }
    }

    pub fn below(start: u8, end: u8) -> Claim
        ensures { claim_seen result ≡ below start end }
    {
        Claim {
            kind: ClaimKind::Below,
            start,
            end,
        }
    }
}

// The child at place `p`, counted from 1.
#[tactic(auto, using(crate::proofs::LookupLaws::place_found))]
fn place_at(children: &[u8], p: u8) -> Option<u8>
    ensures { found result ≡ place_at children.now p }
{
    let i = usize::from(p).checked_sub(1)?;
    children.get(i).copied()
}

// The symbol of node `u`, if it is a functor node.
#[tactic(auto, using(crate::proofs::NodeLaws::functor_past, crate::proofs::NodeLaws::functor_not, crate::proofs::NodeLaws::functor_is))]
fn symbol_at(t: &Terms, u: usize) -> Option<u16>
    requires { t.now.count ≤ node_limit }
    ensures { result ≡ symbol_in (functor_at (nodes_of t.now) u) }
{
    if u < t.count && t.is_functor(u) {
        Some(t.symbol[u])
    } else {
        None
    }
}

// Node `u`, if it is a functor node.
// `WithinLimits`, and `Fit` in `proof_claims` and `proof_check`, stay clauses: `check` asks for `Fit` of the nodes, equations and offer that it is
// handed, and hands all three on; each rule reads one or two of them, so a struct with the fact would be taken apart at once.
#[tactic(auto, using(crate::proofs::NodeLaws::functor_past, crate::proofs::NodeLaws::functor_not, crate::proofs::NodeLaws::functor_is))]
fn functor_at(t: &Terms, u: usize) -> Option<Functor<'_>>
    requires { WithinLimits t.now }
    ensures { functor_seen result ≡ functor_at (nodes_of t.now) u }
{
    if u < t.count && t.is_functor(u) {
        Some(Functor {
            symbol: t.symbol[u],
            children: t.children(u),
        })
    } else {
        None
    }
}

// Whether the labels of nodes `u` and `v` are equal, if both have one.
pub fn compare_labels(t: &Terms, u: u8, v: u8) -> Option<bool>
    requires { t.now.count ≤ node_limit }
    ensures { result ≡ labels_compared (functor_at (nodes_of t.now) u) (functor_at (nodes_of t.now) v) }
{
    let f = symbol_at(t, usize::from(u))?;
    let g = symbol_at(t, usize::from(v))?;
    Some(f == g)
}

// Rule 1 on the offered equation.
fn by_offer(o: Option<Offer>, x: u16) -> Option<Claim>
    requires { offer_below node_limit (offer_of o) ≡ true }
    ensures { claimed result ≡ by_equation (extended [] (offer_of o)) x }
{
    let e = o?;
    if e.name == x {
        Some(Claim::same(e.left as u8, e.right as u8))
    } else {
        None
    }
}

// Rule 1.
pub fn by_equation(e: &Equations, o: Option<Offer>, x: u16) -> Option<Claim>
    requires { (e.now.count ≤ equation_limit) × (offer_below node_limit (offer_of o) ≡ true) }
    ensures { claimed result ≡ by_equation (extended (equations_of e.now) (offer_of o)) x }
{
    match e.find(x) {
        Some(k) => Some(Claim::same(e.left[k], e.right[k])),
        None => by_offer(o, x),
    }
}

// Rule 2.
#[tactic(auto, using(crate::proofs::NodeLaws::functor_known))]
pub fn by_child(t: &Terms, u: u16, p: u8) -> Option<Claim>
    requires { WithinLimits t.now }
    ensures { claimed result ≡ by_child (nodes_of t.now) u p }
{
    let k = functor_at(t, usize::from(u))?;
    let v = place_at(k.children, p)?;
    Some(Claim::below(u as u8, v))
}

// Rule 3, of `n` nodes.
pub fn by_reflexivity(n: usize, u: u16) -> Option<Claim>
    requires { n ≤ node_limit }
    ensures { claimed result ≡ need (ltb u n) (some (same u u)) }
{
    if usize::from(u) < n {
        Some(Claim::same(u as u8, u as u8))
    } else {
        None
    }
}

// Rule 6 from a claim that `u` and `v` are the same.
pub fn down(t: &Terms, p: u8, u: u8, v: u8) -> Option<Claim>
    requires { WithinLimits t.now }
    ensures { claimed result ≡ down_of (nodes_of t.now) p (same u v) }
{
    let k = functor_at(t, usize::from(u))?;
    let m = functor_at(t, usize::from(v))?;
    if k.symbol != m.symbol {
        return None;
    }
    let x = place_at(k.children, p)?;
    let y = place_at(m.children, p)?;
    Some(Claim::same(x, y))
}
