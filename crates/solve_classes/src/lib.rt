// Class tables of 64 nodes, merges of classes, and the members of a class. A table is the array itself, as document 01 wants of a merge, which
// takes and returns it: so `Table` stands in contracts, as a type with it for an invariant would be taken apart and made anew at each merge.
// Table and nodes, or table and trace, are no one struct either: the table is what a merge takes and gives, the nodes are a workspace's, the
// trace is the caller's, and a struct of references to them would be made in each call.
#![tactic(auto)]

ghost use Rattle.std.specs.Prelude.{◌≡◌, ℕ, ◌<◌};
ghost use Rattle.solve_classes.specs.Table.{class, Fresh, Relabelled, Table, Merged};
ghost use Rattle.solve_classes.specs.Members.{in_class, functor_kind, set_of, size_of, class_number};

use std::array;

// Each node alone, to start.
pub fn fresh() -> [u8; 64]
    ensures { Fresh result }
{
    array::from_fn(|i| i as u8)
}

// Every entry equal to `gone` becomes `keep`.
fn relabel(mut table: [u8; 64], keep: u8, gone: u8) -> [u8; 64]
    ensures { Relabelled table keep gone result }
{
    for x in table.iter_mut() {
        if *x == gone {
            *x = keep;
        }
    }
    table
}

// Two classes become one, under the lower root.
pub fn unite(table: [u8; 64], c: u8, d: u8) -> [u8; 64]
    requires { Table table }
    ensures { (a b : ℕ) → a < 64 → b < 64 → c ≡ class table a → d ≡ class table b → Merged table a b result }
{
    if c <= d {
        relabel(table, c, d)
    } else {
        relabel(table, d, c)
    }
}

// The classes of `a` and `b` become one, under the lower root.
pub fn merge(table: [u8; 64], a: u8, b: u8) -> [u8; 64]
    requires table { Table table }
    requires a_bound { (a < 64) × (b < 64) }
    ensures { Merged table a b result }
{
    unite(table, table[usize::from(a)], table[usize::from(b)])
}

// The nodes with entry `c`, one bit for each: the members of the class with that root.
pub fn members(table: [u8; 64], c: u8) -> u64
    ensures { result ≡ set_of (in_class table c) 64 }
{
    let mut set = 0;
    for (i, x) in table.iter().enumerate() {
        if *x == c {
            set |= 1 << i;
        }
    }
    set
}

// A class's number and size, as the class reply has them.
#[derive(Clone, Copy, PartialEq, Eq, Debug)]
pub struct Figures {
    pub number: u8,
    pub size: u8,
}

// Of the class with root `c`: its lowest functor node, or its lowest node where it has none, and how many nodes it has. By kind the nodes are
// a table of two classes, in which the functor nodes have entry 1. The number is document 01's trailing zeros of a set, 64 where a class has
// no nodes, and no Option: who asks has a node of the class.
pub fn class_figures(table: [u8; 64], kind: [u8; 64], c: u8) -> Figures
    ensures { (result.number ≡ class_number (in_class table c) (functor_kind kind)) × (result.size ≡ size_of (in_class table c) 64) }
{
    let all = members(table, c);
    let functors = all & members(kind, 1);
    let shown = if functors == 0 { all } else { functors };
    Figures {
        number: shown.trailing_zeros() as u8,
        size: all.count_ones() as u8,
    }
}
