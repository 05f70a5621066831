// The test's own book: the nodes that were declared and the equations that are held, each in the order taken.
ghost use Rattle.std.specs.Prelude.{◌≤◌, length};

use super::stock::Stock;

/// A symbol and its children, at most four.
#[derive(Clone, Copy)]
pub struct Functor {
    pub symbol: u16,
    children: Stock<u16, 4>,
}

impl Functor {
    pub fn new(symbol: u16, children: &[u16]) -> Functor
        requires { length children.now ≤ 4 }
    {
        let mut four = Stock::new();
        for child in children {
            four.push(*child);
        }
        Functor {
            symbol,
            children: four,
        }
    }

    pub fn children(&self) -> &[u16]
        ensures { length result.now ≤ 4 }
    {
        self.children.as_slice()
    }

    /// The child at a place from 1 on.
    pub fn child(&self, place: u8) -> Option<u16> {
        let i = usize::from(place).checked_sub(1)?;
        self.children().get(i).copied()
    }
}

#[derive(Clone, Copy, Default)]
pub enum Node {
    #[default]
    Variable,
    Functor(Functor),
}

impl Node {
    pub fn functor(&self) -> Option<&Functor> {
        match self {
            Node::Variable => None,
            Node::Functor(f) => Some(f),
        }
    }
}

/// An equation between two nodes, held or offered.
#[derive(Clone, Copy, PartialEq, Eq, Debug, Default)]
pub struct Equation {
    pub name: u16,
    pub left: u16,
    pub right: u16,
}

#[derive(Clone, Copy)]
pub struct Book {
    pub nodes: Stock<Node, 64>,
    pub held: Stock<Equation, 256>,
}

impl Book {
    pub fn new() -> Book {
        Book {
            nodes: Stock::new(),
            held: Stock::new(),
        }
    }

    pub fn clear(&mut self) {
        self.nodes.clear();
        self.held.clear();
    }

    /// A node more, unless there are 64.
    pub fn declare(&mut self, node: Node) {
        self.nodes.push(node);
    }

    /// An equation more, unless there are 256.
    pub fn hold(&mut self, e: Equation) {
        self.held.push(e);
    }

    /// Takes out the equation of that name, if there is one.
    pub fn strike(&mut self, name: u16) -> Option<Equation> {
        let k = self.held.as_slice().iter().position(|e| e.name == name)?;
        self.held.take_out(k)
    }

    pub fn find(&self, name: u16) -> Option<Equation> {
        self.held
            .as_slice()
            .iter()
            .find(|e| e.name == name)
            .copied()
    }

    pub fn knows(&self, u: u16) -> bool {
        usize::from(u) < self.nodes.len()
    }

    pub fn knows_all(&self, nodes: &[u16]) -> bool {
        nodes.iter().all(|u| self.knows(*u))
    }

    /// The symbol and children of a functor node.
    pub fn functor(&self, u: u16) -> Option<&Functor> {
        self.nodes.as_slice().get(usize::from(u))?.functor()
    }

    /// How many children the first functor node of a symbol has.
    pub fn arity_of(&self, symbol: u16) -> Option<usize> {
        let mut functors = self.nodes.as_slice().iter().filter_map(|n| n.functor());
        functors
            .find(|f| f.symbol == symbol)
            .map(|f| f.children().len())
    }
}
