// One number of children for each symbol: whether a declaration fits the nodes that are there, and whether all of these fit one another.
#![tactic(auto)]

ghost use Rattle.std.specs.Prelude.{◌≡◌, ◌+◌, ◌≤◌, ◌<◌};
ghost use Rattle.base.specs.Tells.{Tells};
ghost use Rattle.graph.specs.Limits.{node_limit};
ghost use Rattle.graph.specs.State.{OneArity};
ghost use Rattle.graph.specs.Book.{arity_fits};
ghost use Rattle.store.specs.Views.{nodes_of};
ghost use Rattle.store_arity.specs.Rule.{first_nodes, ArityRule, FitsBefore};
ghost use Rattle.store_arity.specs.SymbolHeads.{SymbolHeads};

use byte_option::ByteOption;
use store::Terms;

// Whether each functor node of symbol f among the first n has k children. No way out in the middle, so that the compiler can take many
// nodes at a time: with one, the shape test of 64 symbols of one remainder took 2.5 times plain Rust's time, and not 1.1; it is part of each
// call, whose goal is 1.3.
#[tactic(auto, using(crate::proofs::FitLaws::fits_none, crate::proofs::FitLaws::fits_more))]
pub fn arity_fits(t: &Terms, n: usize, f: u16, k: u8) -> bool
    requires { n ≤ node_limit }
    ensures { result ≡ arity_fits f k (nodes_of (first_nodes t.now n)) }
{
    let mut ok = true;
    for u in 0..n {
        ok &= (t.kind[u] != 1) | (t.symbol[u] != f) | (t.arity[u] == k);
    }
    ok
}

// Whether node u fits those before it, as declare would ask; these fit one another. `head` has a functor node for each remainder that a
// symbol leaves. One of u's symbol decides; one of another symbol tells nothing, and each node before u is looked at.
fn node_fits(head: &mut [ByteOption; 64], t: &Terms, u: usize) -> bool
    requires { (u < node_limit) × SymbolHeads t.now head.old u × ArityRule t.now u }
    ensures symbol_heads { SymbolHeads t.now head.new (u + 1) }
    ensures fits_before { FitsBefore t.now u result }
{
    let f = t.symbol[u];
    let k = t.arity[u];
    let Some(v) = store::meet(head, usize::from(f % 64), &t.kind, u) else {
        return true;
    };
    let w = usize::from(v);
    if t.symbol[w] == f {
        t.arity[w] == k
    } else {
        arity_fits(t, u, f, k)
    }
}

// Whether functor nodes of one symbol have equally many children.
pub fn one_arity(t: &Terms) -> bool
    requires { t.now.count ≤ node_limit }
    ensures { Tells (OneArity (nodes_of t.now)) result }
{
    let mut head = [ByteOption::none(); 64];
    for u in 0..t.count {
        if !node_fits(&mut head, t, u) {
            return false;
        }
    }
    true
}
