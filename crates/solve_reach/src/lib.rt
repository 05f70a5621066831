// The classes strictly below a node, and a node on a cycle.
#![tactic(auto)]

ghost use Rattle.std.specs.Prelude.{ℕ, ◌<◌, ◌≤◌, ◌≡◌};
ghost use Rattle.base.specs.Tells.{Tells};
ghost use Rattle.store.specs.Views.{lent_terms};
ghost use Rattle.solve_classes.specs.Table.{Table};
ghost use Rattle.solve_trace.specs.Nodes.{IsFunctor, Formed};
ghost use Rattle.solve_heights.specs.Peel.{Peeled};
ghost use Rattle.solve_reach.specs.Search.{Source, Explored, Reached, Reaching, MayLeadBack, MayCircle};

use solve_heights::Heights;
use solve_heights::lent_passes::{self, LentVisitor};
use store::{LentTerms, Terms};

// A step down into a class: the parent, the place, counted from 1, the child there, and a level that falls on the way up.
#[derive(Clone, Copy, Default)]
pub struct Down {
    pub parent: u8,
    pub place: u8,
    pub into: u8,
    pub level: u8,
}

// How each class below a node was reached, by its root.
#[derive(Clone, Copy)]
pub struct Search {
    pub reached: [Option<Down>; 64],
}

// A node, and the search from it that led back to its class.
#[derive(Clone, Copy)]
pub struct Circle {
    pub node: u8,
    pub search: Search,
}

// The search at work: which classes were reached from the node `start`, and how many.
#[derive(Clone, Copy)]
struct Searcher {
    search: Search,
    start: usize,
    count: u8,
}

impl Searcher {
    // Whether steps down from node `p` count: it has some, and its class is the start's, or was reached.
    fn is_source(&self, table: &[u8; 64], t: &LentTerms, p: usize) -> bool
        requires reaching { Reaching (lent_terms t.now) table.now self.now }
        requires known { p < t.now.count }
        ensures { Tells (IsFunctor (lent_terms t.now) p × Source table.now self.now.search self.now.start p) result }
    {
        let c = table[p];
        t.is_functor(p) && (c == table[self.start] || self.search.reached[usize::from(c)].is_some())
    }
}

impl LentVisitor for Searcher {
    ghost between = { Reaching };

    ghost counted = { λ w. w.count };

    ghost closed = { λ g t w p. Explored g t w.search w.start p };

    ghost fixed = { λ w. w.start };

    fn counted(&self) -> u8 {
        self.count
    }

    // Looks at every child of node `p`, where steps down from it count. A class that is reached counts for the nodes visited after it.
    fn visit(&mut self, table: &[u8; 64], t: &LentTerms, p: usize) {
        if !self.is_source(table, t, p) {
            return;
        }
        for (j, x) in t.children(p).iter().enumerate() {
            let d = usize::from(table[usize::from(*x)]);
            if self.search.reached[d].is_some() {
                continue;
            }
            self.count += 1;
            self.search.reached[d] = Some(Down {
                parent: p as u8,
                place: j as u8 + 1,
                into: *x,
                level: self.count,
            });
        }
    }
}

// The classes strictly below node `u`, each with a step down into it and a level; the way up from it goes by lower levels to u's class,
// which counts as reached only where a way down leads back to it.
pub fn reach(table: [u8; 64], t: &Terms, u: u8) -> Search
    requires table { Table table }
    requires formed { Formed t.now }
    requires known { u < t.now.count }
    ensures { Reached t.now table result u }
{
    let mut w = Searcher {
        search: Search {
            reached: [None; 64],
        },
        start: usize::from(u),
        count: 0,
    };
    lent_passes::run(&mut w, &table, &t.lend(), 64, true);
    w.search
}

// The search from node `u`, where it leads back. A variable isn't searched from, nor a class that the peel took.
fn search_back(table: [u8; 64], heights: &Heights, t: &Terms, u: usize) -> Option<Search>
    requires table { Table table }
    requires formed { Formed t.now }
    requires peeled { Peeled t.now table heights.now }
    requires known { u < t.now.count }
    ensures { MayLeadBack t.now table u result }
{
    let c = usize::from(table[u]);
    if !t.is_functor(u) || heights.height[c].get().is_some() {
        return None;
    }
    let search = reach(table, t, u as u8);
    if search.reached[c].is_some() {
        Some(search)
    } else {
        None
    }
}

// A node below itself, where there is one.
pub fn find_cycle(table: [u8; 64], heights: &Heights, t: &Terms) -> Option<Circle>
    requires table { Table table }
    requires formed { Formed t.now }
    requires peeled { Peeled t.now table heights.now }
    ensures { MayCircle t.now table result }
{
    for u in 0..t.count {
        if let Some(search) = search_back(table, heights, t, u) {
            return Some(Circle {
                node: u as u8,
                search,
            });
        }
    }
    None
}
