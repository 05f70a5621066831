// Compare: refusals 1, 5 and 4, then how two nodes stand.
ghost use Rattle.unifier.specs.Replies.{outcome};
ghost use Rattle.unifier.specs.Compare.{Compares};

use super::{Outcome, Refusal, Standing, Workspace, both_below};
use graph::BUFFER;
use solve_trace::{Entry, Trace};

impl Workspace {
    fn stand(&self, u: u16, v: u16, proof: &mut [u8]) -> Result<Standing, Refusal>
        ensures { Compares self.now u v proof.old proof.new (outcome result self.now) }
    {
        let mut trace = Trace::new(Entry::default());
        let table = self.examined(&mut trace)?;
        if proof.len() < BUFFER {
            return Err(Refusal::ShortBuffer);
        }
        if !both_below(u, v, self.terms.count) {
            return Err(Refusal::UnknownNode);
        }
        let (x, y) = (u as u8, v as u8);
        let s = unifier_respond::stand(
            proof,
            &self.terms,
            &self.equations,
            table,
            trace.as_slice(),
            x,
            y,
        );
        Ok(s)
    }

    // How two nodes stand, or refusal 1, 5 or 4; but for `apart` with a proof in the lent buffer.
    pub fn compare(self, u: u16, v: u16, proof: &mut [u8]) -> Outcome<Standing>
        ensures { Compares self u v proof.old proof.new result }
    {
        Outcome {
            reply: self.stand(u, v, proof),
            workspace: self,
        }
    }
}
