// Passes over nodes lent array by array, upward and downward in turn, until one in which nothing counts: of the peel here, of the search
// downward in `solve_reach`, and of `passes`.

ghost use Rattle.std.specs.Prelude.{◌≡◌, List, ℕ, ◌≤◌, ◌<◌};
ghost use Rattle.store.specs.Views.{lent_terms};
ghost use Rattle.store.specs.declared.Terms.{Terms};

use store::LentTerms;

// What visits nodes, and counts.
pub trait LentVisitor {
    // What holds between two visits.
    ghost between: { Terms → List ℕ → Self → Type 0 };

    // How much it has counted.
    ghost counted: { Self → ℕ };

    // What a visit that counts nothing leaves its node with.
    ghost closed: { Terms → List ℕ → Self → ℕ → Type 0 };

    // What no visit changes.
    ghost fixed: { Self → ℕ };

    fn counted(&self) -> u8
        ensures { result ≡ counted self.now };

    fn visit(&mut self, table: &[u8; 64], t: &LentTerms, u: usize)
        requires known { u < t.now.count }
        requires between { between (lent_terms t.now) table.now self.old }
        ensures between { between (lent_terms t.now) table.now self.new }
        ensures fixed { fixed self.new ≡ fixed self.old }
        ensures risen { counted self.old ≤ counted self.new }
        ensures kept { counted self.new ≡ counted self.old → (v : ℕ) → closed (lent_terms t.now) table.now self.old v → closed (lent_terms t.now) table.now self.new v }
        ensures here { counted self.new ≡ counted self.old → closed (lent_terms t.now) table.now self.new u };
}

// One pass over the nodes.
fn pass<V: LentVisitor>(v: &mut V, table: &[u8; 64], t: &LentTerms, down: bool)
    requires between { V.between (lent_terms t.now) table.now v.old }
    ensures between { V.between (lent_terms t.now) table.now v.new }
    ensures fixed { V.fixed v.new ≡ V.fixed v.old }
    ensures risen { V.counted v.old ≤ V.counted v.new }
    ensures closed { V.counted v.new ≡ V.counted v.old → (u : ℕ) → u < t.now.count → V.closed (lent_terms t.now) table.now v.new u }
{
    if down {
        for u in (0..t.count).rev() {
            v.visit(table, t, u);
        }
    } else {
        for u in 0..t.count {
            v.visit(table, t, u);
        }
    }
}

// Passes until one counts nothing, or `most` are counted, which closes every node: the first downward or upward, then by turns. `down`
// stays a flag: two callers begin with different passes, and a closure for each pass would make the loop no shorter.
pub fn run<V: LentVisitor>(v: &mut V, table: &[u8; 64], t: &LentTerms, most: u8, mut down: bool)
    requires between { V.between (lent_terms t.now) table.now v.old }
    requires full { (w : V) → V.between (lent_terms t.now) table.now w → most ≤ V.counted w → (u : ℕ) → u < t.now.count → V.closed (lent_terms t.now) table.now w u }
    ensures between { V.between (lent_terms t.now) table.now v.new }
    ensures fixed { V.fixed v.new ≡ V.fixed v.old }
    ensures closed { (u : ℕ) → u < t.now.count → V.closed (lent_terms t.now) table.now v.new u }
{
    let mut before = v.counted();
    while before < most {
        pass(v, table, t, down);
        let after = v.counted();
        if after == before {
            return;
        }
        before = after;
        down = !down;
    }
}
