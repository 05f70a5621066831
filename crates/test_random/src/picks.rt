// What is random.
ghost use Rattle.std.specs.Prelude.{◌≤◌, ◌-◌};

use super::run::Run;
use test_solver::book::Equation;
use test_solver::checker::{Claim, Goal};
use test_tools::random::Rng;

/// What a round's graph and equations are like.
#[derive(Clone, Copy, Default)]
pub struct Round {
    /// How many nodes to declare.
    most: u16,
    symbols: u8,
    /// What the symbols' numbers of children depend on.
    salt: u8,
    /// Whether all symbols leave one remainder by 64.
    spread: bool,
    /// Whether equations are mostly between nodes that are same already.
    pile: bool,
    /// How many places a withdrawal freed.
    pub freed: usize,
}

impl Round {
    pub fn draw(rng: &mut Rng) -> Round {
        let most = 4 + rng.below(61) as u16;
        let symbols = 1 + rng.below(8) as u8;
        let salt = rng.below(5) as u8;
        let spread = rng.one_in(3);
        let pile = rng.below(4) == 1;
        Round {
            most,
            symbols,
            salt,
            spread,
            pile,
            freed: 0,
        }
    }

    /// How many calls it has.
    pub fn calls(&self, rng: &mut Rng) -> usize {
        if self.pile { 600 } else { 40 + rng.below(160) }
    }
}

// A field of a line.
fn field(rng: &mut Rng, n: u8) -> u8
    ensures { result ≤ n - 1 }
{
    rng.below(usize::from(n)) as u8
}

// Small fields, where the rule uses them.
fn line(rng: &mut Rng) -> [u8; 8] {
    let rule = field(rng, 8);
    let place = if 5 < rule { field(rng, 3) } else { 0 };
    let first = field(rng, 6);
    let second = if rule == 5 { field(rng, 4) } else { 0 };
    [rule, place, 0, first, 0, second, 0, 0]
}

impl Run {
    /// How many nodes there are.
    pub fn count(&self) -> u16
        ensures { result ≤ 64 }
    {
        self.book.nodes.len() as u16
    }

    /// Whether a node may be declared: where the round has its nodes, one time in 16.
    pub fn declares(&mut self) -> bool {
        self.rng.one_in(16) | (self.count() < self.round.most)
    }

    // A node that was declared.
    fn known(&mut self) -> u16
        ensures { result ≤ 63 }
    {
        let n = usize::from(self.count());
        self.rng.below(n) as u16
    }

    /// Mostly a node that was declared.
    pub fn node(&mut self) -> u16 {
        if !self.rng.one_in(48) {
            return self.known();
        }
        let u = self.count() + self.rng.below(4) as u16;
        if self.rng.one_in(4) { 65535 } else { u }
    }

    /// One in `used` is a held name.
    pub fn name(&mut self, used: usize) -> u16 {
        let held = self.book.held.as_slice();
        if self.rng.one_in(used) && !held.is_empty() {
            return held[self.rng.below(held.len())].name;
        }
        self.rng.below(65536) as u16
    }

    pub fn withdrawn(&mut self) -> u16 {
        if self.rng.one_in(8) {
            return self.name(65536);
        }
        self.name(1)
    }

    /// How many bytes of the buffer are lent.
    pub fn room(&mut self) -> usize
        ensures { result ≤ 65600 }
    {
        if self.rng.one_in(32) {
            return match self.rng.below(3) {
                0 => 0,
                1 => 8,
                _ => 65535,
            };
        }
        if self.rng.one_in(2) { 65536 } else { 65600 }
    }

    // The other end of an equation.
    fn mate(&mut self, u: u16) -> u16 {
        let k = self.rng.below(8);
        if k < 2 || (k < 7 && self.round.pile) {
            let from = self.known();
            return self.closure.mate(u, from);
        }
        self.node()
    }

    pub fn equation(&mut self) -> Equation {
        let left = self.node();
        let right = self.mate(left);
        let name = self.name(32);
        Equation { name, left, right }
    }

    // Of two draws the later node, so that graphs grow deep.
    fn child(&mut self) -> u16 {
        let known = self.known();
        known.max(self.node())
    }

    /// More children than any symbol has.
    pub fn children(&mut self) -> [u16; 8] {
        let mut children = [0; 8];
        for child in children.iter_mut() {
            *child = self.child();
        }
        children
    }

    pub fn symbol(&mut self) -> u16 {
        if self.rng.one_in(64) {
            return 65535;
        }
        let k = self.rng.below(usize::from(self.round.symbols));
        let symbol = if self.round.spread { 64 * k } else { k };
        symbol as u16
    }

    /// Mostly the number of children that the round has for the symbol; one in 16 is another.
    pub fn arity(&mut self, symbol: u16) -> usize
        ensures { result ≤ 7 }
    {
        if self.rng.one_in(40) {
            return 5 + self.rng.below(3);
        }
        if self.rng.one_in(16) {
            return self.rng.below(5);
        }
        (usize::from(symbol) + usize::from(self.round.salt)) % 5
    }

    /// Three lines at the front of the buffer.
    pub fn lines(&mut self) {
        let first = line(&mut self.rng);
        let second = line(&mut self.rng);
        let third = line(&mut self.rng);
        self.proof[..8].copy_from_slice(&first);
        self.proof[8..16].copy_from_slice(&second);
        self.proof[16..24].copy_from_slice(&third);
    }

    /// How many bytes of them are asked for.
    pub fn length(&mut self) -> usize
        ensures { result ≤ 65544 }
    {
        match self.rng.below(12) {
            0 => 0,
            1 => 9,
            2 => 65544,
            3 => 24,
            4 => 16,
            _ => 8,
        }
    }

    /// Mostly of the nodes u and v.
    pub fn goal(&mut self, u: u16, v: u16) -> Goal {
        let other = self.rng.below(6) as u16;
        match self.rng.below(5) {
            0 => Goal::Clash,
            1 => Goal::Cycle,
            2 => Goal::Claim(Claim::same(u, v)),
            3 => Goal::Claim(Claim::same(other, other)),
            _ => Goal::Claim(Claim::below(u, v)),
        }
    }

    /// Another byte.
    pub fn other(&mut self, old: u8) -> u8 {
        if self.rng.one_in(2) {
            let small = field(&mut self.rng, 8);
            return if small == old { old ^ 1 } else { small };
        }
        old ^ (1 + field(&mut self.rng, 255))
    }

    /// A byte of a proof: of any line, or of one of the last four.
    pub fn some_place(&mut self, n: usize) -> usize
        ensures { result ≤ n - 1 }
    {
        if self.rng.one_in(2) {
            let back = self.rng.below(32);
            return if back < n { n - 1 - back } else { 0 };
        }
        self.rng.below(n)
    }
}
