// The fixed arrays that a workspace is made of: nodes and held equations; and a table of heads, for groups of nodes.
#![tactic(auto)]

ghost use Rattle.std.specs.Prelude.{◌≡◌, ◌==◌, ◌+◌, ◌*◌, ◌≤◌, ◌<◌, true, length};
ghost use Rattle.graph.specs.Limits.{node_limit, child_limit, equation_limit};
ghost use Rattle.graph.specs.State.{Node};
ghost use Rattle.graph.specs.Book.{all_below};
ghost use Rattle.base.specs.Tab.{tab};
ghost use Rattle.store.specs.Views.{fresh_terms, fresh_equations, lent_terms, lent_ends, unnamed, kind_at, arity_at, child_at, children_at};
ghost use Rattle.store.specs.Operations.{Finds, Room, PutsNode, PutsEquation, Removes, with_variable, with_children, with_functor, closed};
ghost use Rattle.store.specs.Heads.{Meets};
ghost use Rattle.store.specs.declared.Terms.{Terms};

use byte_option::ByteOption;

// The declared nodes: the first `count` places of each array are used. Kind 0 is a variable, 1 a functor node. The children of
// node u stand at places 4 u to 4 u + 3. Arrays side by side, as document 01 wants them. A kind is a number, a node a plain u8, and there is
// no invariant: a caller may hand in any values, C's among them, and is refused with 1 where they are no workspace. So what is known of
// nodes and equations stands in the contracts of those who need it.
#[repr(C)]
#[derive(Clone, Copy, PartialEq, Eq, Debug)]
pub struct Terms {
    pub count: usize,
    pub kind: [u8; 64],
    pub symbol: [u16; 64],
    pub arity: [u8; 64],
    pub child: [u8; 256],
}

// The held equations, in the order taken.
#[repr(C)]
#[derive(Clone, Copy, PartialEq, Eq, Debug)]
pub struct Equations {
    pub count: usize,
    pub name: [u16; 256],
    pub left: [u8; 256],
    pub right: [u8; 256],
}

// The same nodes, array by array, each lent: what the solver reads. Who keeps the arrays by themselves, as C does, has them not copied.
// No two fields stand here as two arguments of C's stand side by side on the stack: the compiler would load both at once, and that load waits
// for two stores (7 of 100 samples of a profile of solve at 8 nodes).
#[derive(Clone, Copy)]
pub struct LentTerms<'a> {
    pub child: &'a [u8; 256],
    pub count: usize,
    pub kind: &'a [u8; 64],
    pub symbol: &'a [u16; 64],
    pub arity: &'a [u8; 64],
}

// Equations by their ends alone, lent in the same way: settling asks for no names.
#[derive(Clone, Copy)]
pub struct LentEnds<'a> {
    pub right: &'a [u8; 256],
    pub left: &'a [u8; 256],
    pub count: usize,
}

// Whether each of the children is below n.
pub fn all_below(children: &[u16], n: u16) -> bool
    ensures { result ≡ all_below n children.now }
{
    children.iter().all(|x| *x < n)
}

// The head of group `c` that the functor node `u` meets. Where there is none yet, `u` becomes it, and none is met; nor by a variable.
pub fn visit(head: &mut [Option<u8>; 64], c: usize, t: &Terms, u: usize) -> Option<u8>
    requires { (c < 64) × (u < node_limit) }
    ensures { Meets head.old c t.now u head.new result }
{
    if !t.is_functor(u) {
        return None;
    }
    match head[c] {
        Some(v) => Some(v),
        None => {
            head[c] = Some(u as u8);
            None
        }
    }
}

// The same, from the kinds alone, with heads of one byte each. `visit` has a body of its own: a head of its table may be 255.
pub fn meet(head: &mut [ByteOption; 64], c: usize, kind: &[u8; 64], u: usize) -> Option<u8>
    requires { (c < 64) × (u < node_limit) }
    ensures { (t : Terms) → t.kind ≡ kind.now → Meets head.old c t u head.new result }
{
    if kind[u] != 1 {
        return None;
    }
    match head[c].get() {
        Some(v) => Some(v),
        None => {
            head[c] = ByteOption::some(u as u8);
            None
        }
    }
}

// Place k taken out: each later element one place down, and `last` at the end.
#[tactic(auto, using(crate::proofs::RemoveLaws::closed_copy))]
fn close<T: Copy>(s: &mut [T], k: usize, last: T)
    requires { k < length s.old }
    ensures { s.new ≡ closed last k s.old }
{
    let n = s.len();
    s.copy_within(k + 1.., k);
    s[n - 1] = last;
}

impl Terms {
    pub fn fresh() -> Terms
        ensures { result ≡ fresh_terms }
    {
        Terms {
            count: 0,
            kind: [0; 64],
            symbol: [0; 64],
            arity: [0; 64],
            child: [0; 256],
        }
    }

    // Whether node u is a functor node.
    pub fn is_functor(&self, u: usize) -> bool
        requires { u < node_limit }
        ensures { result ≡ (kind_at self.now u == 1) }
    {
        self.lend().is_functor(u)
    }

    // The first n child places of node u.
    pub fn first_children(&self, u: usize, n: usize) -> &[u8]
        requires { (u < node_limit) × (n ≤ child_limit) }
        ensures { result.now ≡ tab n (child_at self.now u) }
    {
        self.lend().first_children(u, n)
    }

    // The children of node u.
    pub fn children(&self, u: usize) -> &[u8]
        requires { (u < node_limit) × (arity_at self.now u ≤ child_limit) }
        ensures { result.now ≡ children_at self.now u }
    {
        self.lend().children(u)
    }

    // Array by array.
    pub fn lend(&self) -> LentTerms<'_>
        ensures { lent_terms result ≡ self.now }
    {
        LentTerms {
            count: self.count,
            kind: &self.kind,
            symbol: &self.symbol,
            arity: &self.arity,
            child: &self.child,
        }
    }

    #[tactic(auto, using(crate::proofs::PutNodeLaws::puts_variable))]
    pub fn put_variable(&mut self)
        requires { self.old.count < node_limit }
        ensures { PutsNode self.old Node.variable (with_variable self.old) self.new }
    {
        self.kind[self.count] = 0;
        self.count += 1;
    }

    pub fn put_functor(&mut self, symbol: u16, children: &[u16])
        requires { Room self.old symbol children.now }
        ensures { PutsNode self.old (Node.functor symbol children.now) (with_functor self.old symbol children.now) self.new }
    {
        let n = self.count;
        self.put_children(children);
        self.kind[n] = 1;
        self.symbol[n] = symbol;
        self.arity[n] = children.len() as u8;
        self.count = n + 1;
    }

    // The children of the node to come.
    fn put_children(&mut self, children: &[u16])
        requires { (4 * self.old.count + length children.now ≤ 256) × (all_below 256 children.now ≡ true) }
        ensures { self.new ≡ with_children self.old children.now }
    {
        let at = 4 * self.count;
        for (j, x) in children.iter().enumerate() {
            self.child[at + j] = *x as u8;
        }
    }
}

impl<'a> LentTerms<'a> {
    // Whether node u is a functor node.
    pub fn is_functor(&self, u: usize) -> bool
        requires { u < node_limit }
        ensures { result ≡ (kind_at (lent_terms self.now) u == 1) }
    {
        self.kind[u] == 1
    }

    // The first n child places of node u.
    pub fn first_children(&self, u: usize, n: usize) -> &'a [u8]
        requires { (u < node_limit) × (n ≤ child_limit) }
        ensures { result.now ≡ tab n (child_at (lent_terms self.now) u) }
    {
        let at = 4 * u;
        let child = self.child;
        &child[at..at + n]
    }

    // The children of node u.
    pub fn children(&self, u: usize) -> &'a [u8]
        requires { (u < node_limit) × (arity_at (lent_terms self.now) u ≤ child_limit) }
        ensures { result.now ≡ children_at (lent_terms self.now) u }
    {
        self.first_children(u, usize::from(self.arity[u]))
    }
}

impl Equations {
    pub fn fresh() -> Equations
        ensures { result ≡ fresh_equations }
    {
        Equations {
            count: 0,
            name: [0; 256],
            left: [0; 256],
            right: [0; 256],
        }
    }

    // The ends.
    pub fn ends(&self) -> LentEnds<'_>
        ensures { lent_ends result ≡ unnamed self.now.count self.now.left self.now.right }
    {
        LentEnds {
            count: self.count,
            left: &self.left,
            right: &self.right,
        }
    }

    // The place of the held equation of that name.
    pub fn find(&self, name: u16) -> Option<usize>
        requires { self.now.count ≤ equation_limit }
        ensures { Finds self.now name result }
    {
        self.name[..self.count].iter().position(|x| *x == name)
    }

    pub fn put(&mut self, name: u16, left: u8, right: u8)
        requires { self.old.count < equation_limit }
        ensures { PutsEquation self.old name left right self.new }
    {
        let n = self.count;
        self.name[n] = name;
        self.left[n] = left;
        self.right[n] = right;
        self.count = n + 1;
    }

    // Whether the name was held; its equation goes.
    pub fn remove(&mut self, name: u16) -> bool
        requires { self.old.count ≤ equation_limit }
        ensures { Removes self.old name result self.new }
    {
        let Some(k) = self.find(name) else {
            return false;
        };
        close(&mut self.name, k, 0);
        close(&mut self.left, k, 0);
        close(&mut self.right, k, 0);
        self.count -= 1;
        true
    }
}
