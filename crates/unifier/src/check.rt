// Check: refusals 1, 4 and 6, then the checker's own.
ghost use Rattle.std.specs.Prelude.{◌≡◌, ◌≤◌};
ghost use Rattle.graph.specs.Limits.{equation_limit};
ghost use Rattle.proof_rules.specs.Rules.{offer_of, offer_below};
ghost use Rattle.proof_check.specs.Answers.{goal_of};
ghost use Rattle.unifier.specs.Replies.{outcome};
ghost use Rattle.unifier.specs.Check.{goal_below, Checks};
ghost use Rattle.unifier.specs.Inner.{Questioned};

use super::{GoalAsked, Offer, Outcome, Refusal, Workspace, both_below};
use solve_trace::{Entry, Trace};

fn offer_below(offer: Option<Offer>, n: usize) -> bool
    ensures { result ≡ offer_below n (offer_of offer) }
{
    offer.is_none_or(|o| both_below(o.left, o.right, n))
}

fn goal_below(goal: GoalAsked, n: usize) -> bool
    ensures { result ≡ goal_below n (goal_of goal) }
{
    match goal {
        GoalAsked::Clash | GoalAsked::Cycle => true,
        GoalAsked::Same(u, v) | GoalAsked::Below(u, v) => both_below(u, v, n),
    }
}

impl Workspace {
    // Refusal 4 or 6 of what is asked.
    fn refusal(&self, offer: Option<Offer>, goal: GoalAsked) -> Result<(), Refusal>
        requires { self.now.equations.count ≤ equation_limit }
        ensures { Questioned self.now (offer_of offer) (goal_of goal) result }
    {
        let n = self.terms.count;
        if !offer_below(offer, n) {
            return Err(Refusal::UnknownNode);
        }
        if !goal_below(goal, n) {
            return Err(Refusal::UnknownNode);
        }
        let Some(o) = offer else {
            return Ok(());
        };
        if self.equations.find(o.name).is_some() {
            return Err(Refusal::NameHeld);
        }
        Ok(())
    }

    fn judge(&self, offer: Option<Offer>, lines: &[u8], goal: GoalAsked) -> Result<(), Refusal>
        ensures { Checks self.now (offer_of offer) (goal_of goal) lines.now (outcome result self.now) }
    {
        self.examined(&mut Trace::new(Entry::default()))?;
        self.refusal(offer, goal)?;
        proof_check::check(&self.terms, &self.equations, offer, lines, goal)
    }

    // Whether the lines, with the offered equation counted among the held, show the goal.
    pub fn check(self, offer: Option<Offer>, lines: &[u8], goal: GoalAsked) -> Outcome<()>
        ensures { Checks self (offer_of offer) (goal_of goal) lines.now result }
    {
        Outcome {
            reply: self.judge(offer, lines, goal),
            workspace: self,
        }
    }
}
