// The shorter of two proofs. A workspace is Copy, so the caller keeps its own; the calls here hand back a part or a refusal alone.
#![tactic(auto)]

ghost use Rattle.std.specs.Prelude.{◌≡◌, Err};
ghost use Rattle.proof_rules.specs.Rules.{offer_of};
ghost use Rattle.proof_check.specs.Answers.{judged_as, goal_of};
ghost use Rattle.proof_shorter.specs.Choice.{first, list_number, or_else, choice};
ghost use Rattle.proof_shorter.specs.Promises.{Passing, Chooses, Hands};

use unifier::{GoalAsked, Offer, Refusal, Workspace};

// Which of two lists.
#[derive(Clone, Copy, PartialEq, Eq, Debug)]
pub enum List {
    First,
    Second,
}

// Why there is no choice: a refusal, and of which list it is. Refusals below 11 are none of a list's.
#[derive(Clone, Copy, PartialEq, Eq, Debug)]
pub struct NoChoice {
    pub refusal: Refusal,
    pub list: Option<List>,
}

fn refused_in(list: List, refusal: Refusal) -> NoChoice
    ensures { choice (Err result) ≡ or_else (list_number list) (judged_as (Err refusal)) first }
{
    // By the number, as `in_list` has it: a match of the same meaning would name ten refusals.
    if refusal.number() < 11 {
        return NoChoice {
            refusal,
            list: None,
        };
    }
    NoChoice {
        refusal,
        list: Some(list),
    }
}

// Whether a list passes.
fn passes(
    w: Workspace,
    offer: Option<Offer>,
    list: List,
    lines: &[u8],
    goal: GoalAsked,
) -> Result<(), NoChoice>
    ensures { Passing w (offer_of offer) (goal_of goal) (list_number list) lines.now result }
{
    w.check(offer, lines, goal)
        .reply
        .map_err(|refusal| refused_in(list, refusal))
}

// The choice between two lists, each checked for the goal, the first list first: the call beside `shorter`.
pub fn shorter_reply(
    w: Workspace,
    offer: Option<Offer>,
    first: &[u8],
    second: &[u8],
    goal: GoalAsked,
) -> Result<List, NoChoice>
    ensures { Chooses w (offer_of offer) (goal_of goal) first.now second.now result }
{
    passes(w, offer, List::First, first, goal)?;
    passes(w, offer, List::Second, second, goal)?;
    if second.len() / 8 < first.len() / 8 {
        return Ok(List::Second);
    }
    Ok(List::First)
}

// The list with fewer lines, the first on a tie; an empty part where one doesn't pass.
pub fn shorter<'a>(
    w: Workspace,
    offer: Option<Offer>,
    first: &'a [u8],
    second: &'a [u8],
    goal: GoalAsked,
) -> &'a [u8]
    ensures { Hands w (offer_of offer) (goal_of goal) first.now second.now result.now }
{
    match shorter_reply(w, offer, first, second, goal) {
        Ok(List::First) => first,
        Ok(List::Second) => second,
        Err(_) => &first[0..0],
    }
}
