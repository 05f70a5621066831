// The engine's parts for C and Rust, as a static library (`rt lib` in this folder): numbers, lent arrays and slices only. Each function
// hands on to the crate that does the work, with that crate's promise. Nobody proves of a C caller what a `requires` asks: it owes it.
#![tactic(auto)]

ghost use Rattle.std.specs.Prelude.{◌≡◌, ◌≤◌, length, map, take};
ghost use Rattle.std.specs.List.{All};
ghost use Rattle.byte_option.specs.Bytes.{byte_of};
ghost use Rattle.base.specs.Tells.{Tells};
ghost use Rattle.store.specs.Views.{terms, equations, unnamed};
ghost use Rattle.store.specs.Shape.{Shape};
ghost use Rattle.store.specs.declared.Terms.{Terms};
ghost use Rattle.solve_classes.specs.Table.{Table};
ghost use Rattle.solve_trace.specs.Nodes.{Formed};
ghost use Rattle.solve_closure.specs.Settled.{Given};
ghost use Rattle.write_needed.specs.Entries.{Placed};
ghost use Rattle.bench_ffi.specs.Parts.{SettlesAs, PeelsAs, entry_number};

use byte_option::ByteOption;
use solve_trace::{Entry, Trace};
use store::{Equations, LentEnds, LentTerms, Terms};

mod calls; // the calls by numbers

// Whether the arrays are well-shaped. Here and below C lends each array by itself, as it keeps them.
#[unsafe(no_mangle)]
pub extern "C" fn ffi_shaped(
    n: usize,
    kind: &[u8; 64],
    symbol: &[u16; 64],
    arity: &[u8; 64],
    child: &[u8; 256],
    m: usize,
    name: &[u16; 256],
    left: &[u8; 256],
    right: &[u8; 256],
) -> bool
    ensures { Tells (Shape (terms n kind.now symbol.now arity.now child.now) (equations m name.now left.now right.now)) result }
{
    let t = Terms {
        count: n,
        kind: *kind,
        symbol: *symbol,
        arity: *arity,
        child: *child,
    };
    let e = Equations {
        count: m,
        name: *name,
        left: *left,
        right: *right,
    };
    store_shape::shaped(&t, &e)
}

// How settling ended: how many entries the trace has, and whether in a clash, of which two nodes. C has no Option.
#[repr(C)]
#[derive(Clone, Copy)]
pub struct Ending {
    pub steps: usize,
    pub clash: bool,
    pub left: usize,
    pub right: usize,
}

// An entry of the trace as one number: C has no enums with values.
fn number_of(e: Entry) -> u16
    requires { Placed e }
    ensures { result ≡ entry_number e }
{
    match e {
        Entry::Equation(k) => k,
        Entry::Children { left, right, place } => {
            (u16::from(place) + 1) * 4096 + u16::from(left) * 64 + u16::from(right)
        }
    }
}

// The entries, as numbers, at the front of the lent trace.
fn put_entries(trace: &mut [u16; 64], entries: &[Entry])
    requires few { length entries.now ≤ 64 }
    requires placed { All Placed entries.now }
    ensures { take (length entries.now) trace.new ≡ map entry_number entries.now }
{
    for (k, entry) in entries.iter().enumerate() {
        trace[k] = number_of(*entry);
    }
}

// The closure of the first `m` equations: the class table and the trace, and how it ended.
#[unsafe(no_mangle)]
pub extern "C" fn ffi_settle(
    table: &mut [u8; 64],
    trace: &mut [u16; 64],
    n: usize,
    kind: &[u8; 64],
    symbol: &[u16; 64],
    arity: &[u8; 64],
    child: &[u8; 256],
    m: usize,
    left: &[u8; 256],
    right: &[u8; 256],
) -> Ending
    requires { let g : Terms = terms n kind.now symbol.now arity.now child.now in Given g (unnamed m left.now right.now) }
    ensures { let g : Terms = terms n kind.now symbol.now arity.now child.now in
        SettlesAs g (unnamed m left.now right.now) table.new trace.new result }
{
    let t = LentTerms {
        count: n,
        kind,
        symbol,
        arity,
        child,
    };
    let e = LentEnds {
        count: m,
        left,
        right,
    };
    let mut entries = Trace::new(Entry::default());
    let s = solve_closure::settle(&mut entries, &t, &e);
    *table = s.table;
    put_entries(trace, entries.as_slice());
    let (left, right) = s.clash.unwrap_or((0, 0));
    Ending {
        steps: entries.len(),
        clash: s.clash.is_some(),
        left: usize::from(left),
        right: usize::from(right),
    }
}

// The heights as bytes, 255 for none, since C has no Option.
fn put_heights(height: &mut [u8; 64], heights: &[ByteOption; 64])
    ensures { height.new ≡ map byte_of heights.now }
{
    for (c, x) in heights.iter().enumerate() {
        height[c] = x.byte();
    }
}

// The heights of a table's classes, and how many classes have none.
#[unsafe(no_mangle)]
pub extern "C" fn ffi_peel(
    table: &[u8; 64],
    height: &mut [u8; 64],
    n: usize,
    kind: &[u8; 64],
    symbol: &[u16; 64],
    arity: &[u8; 64],
    child: &[u8; 256],
) -> u8
    requires table { Table table.now }
    requires formed { let g : Terms = terms n kind.now symbol.now arity.now child.now in Formed g }
    ensures { let g : Terms = terms n kind.now symbol.now arity.now child.now in PeelsAs g table.now height.new result }
{
    let t = LentTerms {
        count: n,
        kind,
        symbol,
        arity,
        child,
    };
    let h = solve_heights::peel(*table, &t);
    put_heights(height, &h.height);
    h.left
}
