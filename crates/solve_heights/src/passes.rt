// Passes over nodes lent whole: those of `lent_passes`, for a visitor that is handed `&Terms`.

ghost use Rattle.std.specs.Prelude.{◌≡◌, List, ℕ, ◌≤◌, ◌<◌};
ghost use Rattle.store.specs.Views.{lent_terms};
ghost use Rattle.store.specs.declared.Terms.{Terms};
ghost use Rattle.solve_heights.specs.Pairing.{pairing};

use super::lent_passes::{self, LentVisitor};
use store::{LentTerms, Terms};

// What visits nodes, and counts.
pub trait Visitor {
    // What holds between two visits.
    ghost between: { Terms → List ℕ → Self → Type 0 };

    // How much it has counted.
    ghost counted: { Self → ℕ };

    // What a visit that counts nothing leaves its node with.
    ghost closed: { Terms → List ℕ → Self → ℕ → Type 0 };

    // What no visit changes.
    ghost fixed: { Self → ℕ };

    fn counted(&self) -> u8
        ensures { result ≡ counted self.now };

    fn visit(&mut self, table: &[u8; 64], t: &Terms, u: usize)
        requires known { u < t.now.count }
        requires between { between t.now table.now self.old }
        ensures between { between t.now table.now self.new }
        ensures fixed { fixed self.new ≡ fixed self.old }
        ensures risen { counted self.old ≤ counted self.new }
        ensures kept { counted self.new ≡ counted self.old → (v : ℕ) → closed t.now table.now self.old v → closed t.now table.now self.new v }
        ensures here { counted self.new ≡ counted self.old → closed t.now table.now self.new u };
}

// A visitor and the nodes that it is handed, for `lent_passes`.
#[derive(Drop)]
struct Whole<'a, V: Visitor> {
    v: &'a mut V,
    t: &'a Terms,
}

impl<'a, V: Visitor> LentVisitor for Whole<'a, V> {
    ghost between = { λ g table a. (g ≡ a.t.now) × V.between g table a.v.now };

    ghost counted = { λ a. V.counted a.v.now };

    ghost closed = { λ g table a u. V.closed g table a.v.now u };

    // Which visitor is lent, too: no visit lends another.
    ghost fixed = { λ a. pairing a.v.ghost_name (V.fixed a.v.now) };

    fn counted(&self) -> u8 {
        self.v.counted()
    }

    fn visit(&mut self, table: &[u8; 64], t: &LentTerms, u: usize) {
        self.v.visit(table, self.t, u);
    }
}

// Passes until one counts nothing, or `most` are counted, which closes every node: the first downward or upward, then by turns.
pub fn run<V: Visitor>(v: &mut V, table: &[u8; 64], t: &Terms, most: u8, mut down: bool)
    requires between { V.between t.now table.now v.old }
    requires full { (w : V) → V.between t.now table.now w → most ≤ V.counted w → (u : ℕ) → u < t.now.count → V.closed t.now table.now w u }
    ensures between { V.between t.now table.now v.new }
    ensures fixed { V.fixed v.new ≡ V.fixed v.old }
    ensures closed { (u : ℕ) → u < t.now.count → V.closed t.now table.now v.new u }
{
    let mut w = Whole { v, t };
    lent_passes::run(&mut w, table, &t.lend(), most, down);
}
