// Random workspaces: every proof that their calls give passes, is written, read back, read line by line, and chosen against a longer one.
ghost use Rattle.std.specs.Prelude.{◌≤◌, ◌-◌};

use super::proved;
use std::io;
use test_solver::book::Equation;
use test_solver::checker::Question;
use test_tools::counts::add;
use test_tools::replies::{Answer, Reply};
use test_tools::workspaces::{functor, variable};
use unifier::Workspace;

// A linear congruential generator.
#[derive(Clone, Copy, Debug)]
struct Rng(u64);

impl Rng {
    // The next number, taken below n; of none, 0.
    fn below(&mut self, n: u16) -> u16
        ensures { result ≤ n - 1 }
    {
        self.0 = ((self.0 % (1 << 31)) * 1103515245 + 12345) % (1 << 31);
        if n == 0 {
            return 0;
        }
        ((self.0 >> 16) % u64::from(n)) as u16
    }

    fn node(&mut self) -> u16 {
        self.below(9)
    }
}

#[derive(Clone, Copy, Default)]
struct Counts {
    held: usize,
    clash: usize,
    cycle: usize,
    same: usize,
    below: usize,
    above: usize,
    apart: usize,
    otherwise: usize,
}

impl Counts {
    fn count(&mut self, reply: Reply) {
        match reply {
            Reply::Held => add(&mut self.held, 1),
            Reply::Clash => add(&mut self.clash, 1),
            Reply::Cycle => add(&mut self.cycle, 1),
            Reply::Same => add(&mut self.same, 1),
            Reply::Below => add(&mut self.below, 1),
            Reply::Above => add(&mut self.above, 1),
            Reply::Apart => add(&mut self.apart, 1),
            _ => add(&mut self.otherwise, 1),
        }
    }

    // An answer about two nodes, whose proof, if there is one, has to be good.
    fn answered(
        &mut self,
        w: Workspace,
        a: Answer,
        offer: Option<Equation>,
        u: u16,
        v: u16,
        proof: &[u8],
    ) {
        let good = a.reply.goal(u, v).is_none_or(|goal| {
            let x = Question { offer, goal };
            proof.get(..a.proof).is_some_and(|p| proved::good(w, x, p))
        });
        if good {
            self.count(a.reply);
        } else {
            add(&mut self.otherwise, 1);
        }
    }
}

// Calls

fn equate(
    w: Workspace,
    name: u16,
    rng: &mut Rng,
    counts: &mut Counts,
    proof: &mut [u8],
) -> Workspace {
    let left = rng.node();
    let right = rng.node();
    let a = Answer::held(w.equate(name, left, right, proof));
    let offer = Some(Equation { name, left, right });
    counts.answered(w, a, offer, left, right, proof);
    a.workspace
}

fn compare(w: Workspace, rng: &mut Rng, counts: &mut Counts, proof: &mut [u8]) {
    let u = rng.node();
    let v = rng.node();
    let a = Answer::stand(w.compare(u, v, proof));
    counts.answered(w, a, None, u, v, proof);
}

// Two variables first, then variables and functor nodes of two symbols and two children.
fn declare(w: Workspace, i: u16, rng: &mut Rng) -> Workspace {
    let symbol = rng.below(3);
    let a = rng.below(i);
    let b = rng.below(i);
    if i < 2 || symbol == 0 {
        return variable(w);
    }
    functor(w, symbol, &[a, b])
}

fn declared(rng: &mut Rng) -> Workspace {
    let mut w = Workspace::fresh();
    for i in 0..9 {
        w = declare(w, i, rng);
    }
    w
}

// An equation and a comparison in turn.
fn round(rng: &mut Rng, counts: &mut Counts, proof: &mut [u8]) {
    let mut w = declared(rng);
    for name in 0..8 {
        w = equate(w, name, rng, counts, proof);
        compare(w, rng, counts, proof);
    }
}

fn show(rt: &impl Print, counts: Counts) -> io::Result<()> {
    println!(rt; "random workspaces, held: {}", counts.held)?;
    println!(rt; "clash: {}", counts.clash)?;
    println!(rt; "cycle: {}", counts.cycle)?;
    println!(rt; "same: {}", counts.same)?;
    println!(rt; "below: {}", counts.below)?;
    println!(rt; "above: {}", counts.above)?;
    println!(rt; "apart: {}", counts.apart)?;
    println!(rt; "otherwise: {}", counts.otherwise)
}

pub fn all(rt: &impl Print, proof: &mut [u8]) -> io::Result<()> {
    let mut rng = Rng(0);
    let mut counts = Counts::default();
    for _ in 0..100 {
        round(&mut rng, &mut counts, proof);
    }
    show(rt, counts)
}
