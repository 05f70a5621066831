// Equate: refusals 1, 5, 4, 6 and 7, then the verdict on held and offered equations together.
ghost use Rattle.std.specs.Prelude.{◌≡◌, ◌≤◌, ◌<◌, length};
ghost use Rattle.graph.specs.Limits.{node_limit, equation_limit};
ghost use Rattle.graph.specs.State.{equation_of};
ghost use Rattle.graph.specs.Book as book;
ghost use Rattle.store.specs.Operations.{PutsEquation};
ghost use Rattle.unifier.specs.Views.{state_of};
ghost use Rattle.unifier.specs.Replies.{outcome};
ghost use Rattle.unifier.specs.Equate.{Equates};
ghost use Rattle.unifier.specs.Inner.{equation_in, Early, Refuted, Settles};

use super::{Offer, Outcome, Refusal, Workspace, both_below};
use graph::{BUFFER, EQUATIONS};
use solve::{Finding, SolveResult};
use solve_trace::{Entry, Trace};
use store::Equations;

// Puts the offered equation at the end.
fn put_offer(e: &mut Equations, offer: Offer)
    requires { (e.old.count < equation_limit) × ((offer.left < node_limit) × (offer.right < node_limit)) }
    ensures { PutsEquation e.old offer.name offer.left offer.right e.new }
{
    e.put(offer.name, offer.left as u8, offer.right as u8);
}

impl Workspace {
    // The first of refusals 5, 4, 6 and 7 that applies.
    fn early(&self, offer: Offer, room: usize) -> Result<(), Refusal>
        requires { self.now.equations.count ≤ equation_limit }
        ensures { Early (book.early (state_of self.now) (book.equate (equation_in offer) room)) result }
    {
        if room < BUFFER {
            return Err(Refusal::ShortBuffer);
        }
        if !both_below(offer.left, offer.right, self.terms.count) {
            return Err(Refusal::UnknownNode);
        }
        if self.equations.find(offer.name).is_some() {
            return Err(Refusal::NameHeld);
        }
        if EQUATIONS <= self.equations.count {
            return Err(Refusal::EquationsFull);
        }
        Ok(())
    }

    // The reply to the verdict on held and offered equations: a refusal comes with its proof. Only for that are the equations copied.
    fn answer(
        &self,
        o: &SolveResult,
        trace: &[Entry],
        offer: Offer,
        proof: &mut [u8],
    ) -> Result<(), Refusal>
        requires { Refuted self.now (equation_in offer) (length proof.old) o.now trace.now }
        ensures { Settles self.now (equation_in offer) proof.old proof.new result }
    {
        match o.verdict {
            Finding::Solved => Ok(()),
            Finding::Clash(u, v) => {
                let mut e = self.equations;
                put_offer(&mut e, offer);
                let lines = unifier_respond::show_same(proof, &self.terms, &e, trace, u, v) as u16;
                Err(Refusal::Clash { lines })
            }
            Finding::Cycle => {
                let mut e = self.equations;
                put_offer(&mut e, offer);
                let (table, heights) = (o.table, &o.heights);
                let lines = unifier_respond::show_cycle(
                    proof,
                    &self.terms,
                    &e,
                    table,
                    heights,
                    trace,
                ) as u16;
                Err(Refusal::Cycle { lines })
            }
        }
    }

    // Whether the equation is to be held. The workspace is lent, so that one that is held costs no copy.
    fn reply_to(&self, offer: Offer, proof: &mut [u8]) -> Result<(), Refusal>
        ensures { Settles self.now (equation_in offer) proof.old proof.new result }
    {
        let mut trace = Trace::new(Entry::default());
        let table = self.examined(&mut trace)?;
        self.early(offer, proof.len())?;
        let x = offer.left as u8;
        let y = offer.right as u8;
        let o = solve::extend(table, &mut trace, &self.terms, self.equations.count, x, y);
        self.answer(&o, trace.as_slice(), offer, proof)
    }

    fn hold(&mut self, offer: Offer, proof: &mut [u8]) -> Result<(), Refusal>
        ensures { Equates self.old (equation_in offer) proof.old proof.new (outcome result self.new) }
    {
        self.reply_to(offer, proof)?;
        put_offer(&mut self.equations, offer);
        Ok(())
    }

    // Puts the equation at the end, or refusal 1, 5, 4, 6, 7, 8 or 9; for 8 and 9 with a proof in the lent buffer. Nothing is put in place
    // before the verdict.
    pub fn equate(mut self, name: u16, left: u16, right: u16, proof: &mut [u8]) -> Outcome<()>
        ensures { Equates self (equation_of name left right) proof.old proof.new result }
    {
        let reply = self.hold(Offer { name, left, right }, proof);
        Outcome {
            reply,
            workspace: self,
        }
    }
}
