// Heights of the classes of a table, by peeling: a class goes once the children of its functor nodes lie in classes that went.
#![tactic(auto)]

ghost use Rattle.std.specs.Prelude.{◌≡◌, ◌<◌};
ghost use Rattle.base.specs.Tells.{Tells};
ghost use Rattle.store.specs.Views.{lent_terms};
ghost use Rattle.solve_classes.specs.Table.{Table};
ghost use Rattle.solve_trace.specs.Nodes.{Formed};
ghost use Rattle.solve_heights.specs.Peel.{Stuck, Peeled};
ghost use Rattle.solve_heights.specs.Passes.{fresh_peeler, Peeling, Released};

pub mod lent_passes; // over nodes lent array by array
pub mod passes; // over nodes lent whole

use byte_option::ByteOption;
use lent_passes::LentVisitor;
use store::LentTerms;

// The heights of the classes, none for those that are left, and how many are left.
#[derive(Clone, Copy)]
pub struct Heights {
    pub height: [ByteOption; 64],
    pub left: u8,
}

// The peel at work: how many classes went, of how many; how many nodes of each class are not released, and which nodes; the heights of
// the classes that went. Three arrays and not one of structs: `waiting` and `height` are by class, `pending` is by node, and `height` is
// handed on as it is.
#[derive(Clone, Copy)]
struct Peeler {
    went: u8,
    total: u8,
    waiting: [u8; 64],
    pending: [bool; 64],
    height: [ByteOption; 64],
}

impl Peeler {
    // Counts the nodes of each class, and the classes, before one went. In place, since a Peeler that is handed back is copied twice.
    fn count_nodes(&mut self, table: &[u8; 64], t: &LentTerms)
        requires fresh { self.old ≡ fresh_peeler }
        requires table { Table table.now }
        requires formed { Formed (lent_terms t.now) }
        ensures { Peeling (lent_terms t.now) table.now self.new }
    {
        for u in 0..t.count {
            let c = usize::from(table[u]);
            self.waiting[c] += 1;
            self.total += u8::from(c == u);
        }
    }

    // Whether node `u` has a child in a class that is left.
    fn stuck(&self, table: &[u8; 64], t: &LentTerms, u: usize) -> bool
        requires peeling { Peeling (lent_terms t.now) table.now self.now }
        requires known { u < t.now.count }
        ensures { Tells (Stuck (lent_terms t.now) table.now self.now.height u) result }
    {
        if !t.is_functor(u) {
            return false;
        }
        for x in t.children(u) {
            let c = table[usize::from(*x)];
            if self.height[usize::from(c)].get().is_none() {
                return true;
            }
        }
        false
    }
}

impl LentVisitor for Peeler {
    ghost between = { Peeling };

    ghost counted = { λ p. p.went };

    ghost closed = { Released };

    ghost fixed = { λ p. 0 };

    fn counted(&self) -> u8 {
        self.went
    }

    // Releases node `u` unless it is stuck; its class goes with the last of its nodes.
    fn visit(&mut self, table: &[u8; 64], t: &LentTerms, u: usize) {
        if !self.pending[u] || self.stuck(table, t, u) {
            return;
        }
        let c = usize::from(table[u]);
        self.pending[u] = false;
        self.waiting[c] -= 1;
        if self.waiting[c] == 0 {
            self.height[c] = ByteOption::some(self.went);
            self.went += 1;
        }
    }
}

pub fn peel(table: [u8; 64], t: &LentTerms) -> Heights
    requires table { Table table }
    requires formed { Formed (lent_terms t.now) }
    ensures { Peeled (lent_terms t.now) table result }
{
    let mut p = Peeler {
        went: 0,
        total: 0,
        waiting: [0; 64],
        pending: [true; 64],
        height: [ByteOption::none(); 64],
    };
    p.count_nodes(&table, t);
    let total = p.total;
    lent_passes::run(&mut p, &table, t, total, false);
    Heights {
        height: p.height,
        left: total - p.went,
    }
}
