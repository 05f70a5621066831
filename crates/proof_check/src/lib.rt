// The checker of a proof's bytes.
#![tactic(auto)]

ghost use Rattle.std.specs.Prelude.{◌&&◌, [], ◌≡◌, ◌≤◌, ◌<◌, eqb, length, IfErr};
ghost use Rattle.graph.specs.Limits.{node_limit, buffer_bytes, line_limit};
ghost use Rattle.graph.specs.State.{with_offer};
ghost use Rattle.graph.specs.Lines.{line_claims};
ghost use Rattle.graph.specs.Goals.{ended, shows};
ghost use Rattle.store.specs.Views.{nodes_of, state_from};
ghost use Rattle.proof_lines.specs.Codec.{lines_of};
ghost use Rattle.proof_rules.specs.Rules.{offer_of, claim_seen};
ghost use Rattle.proof_claims.specs.Claims.{Fit};
ghost use Rattle.proof_check.specs.Answers.{walked, goal_of, judged_as, bad_length, answer_to, LineWithin};

use proof_rules::{Claim, ClaimKind, Offer};
use refusals::Refusal;
use store::{Equations, Terms};

// What a proof is to show.
#[derive(Clone, Copy, PartialEq, Eq, Debug)]
pub enum GoalAsked {
    Clash,
    Cycle,
    Same(u16, u16),
    Below(u16, u16),
}

// Takes each line in turn, with the claims of those before it: the last one's claim, or the place of the first that breaks its rule.
fn walk(t: &Terms, e: &Equations, offer: Option<Offer>, bytes: &[u8]) -> Result<Claim, usize>
    requires { Fit t.now e.now (offer_of offer) × ((8 ≤ length bytes.now) × (length bytes.now ≤ buffer_bytes)) }
    ensures end { walked result ≡ ended (line_claims (with_offer (state_from t.now e.now) (offer_of offer)) [] (lines_of bytes.now)) }
    ensures within { IfErr result (λ i. i < line_limit) }
{
    // An array, with the loop's own index: as an `ArrayVec` of the toolchain, with `push` and `as_slice`, a line took 1.00 to 1.23 times Rust's
    // time, and not 0.87 to 0.94; with `push(c)`, and not field by field, 1.18 to 1.50; the goal is 1.2.
    let mut claims = [Claim::same(0, 0); 8192];
    let count = bytes.len() / 8;
    for i in 0..count {
        let Some(l) = proof_lines::decode(bytes, i) else {
            return Err(i);
        };
        let Some(c) = proof_claims::claim(t, e, offer, &claims[..i], &l) else {
            return Err(i);
        };
        // Field by field: with `claims[i] = c` a line took 6.6 ns and not 5.3, in the mean of four places in memory. That is 1.25 times the 5.3 that
        // plain Rust takes where it is fastest, and the goal is 1.2.
        claims[i] = Claim {
            kind: c.kind,
            start: c.start,
            end: c.end,
        };
    }
    Ok(claims[count - 1])
}

fn equal_ends(x: u16, y: u16, c: Claim) -> bool
    ensures { result ≡ (eqb x c.start && eqb y c.end) }
{
    x == u16::from(c.start) && y == u16::from(c.end)
}

// The claim shows the goal.
fn shows_goal(t: &Terms, goal: GoalAsked, c: Claim) -> bool
    requires { t.now.count ≤ node_limit }
    ensures { result ≡ shows (nodes_of t.now) (goal_of goal) (claim_seen c) }
{
    match (goal, c.kind) {
        (GoalAsked::Clash, ClaimKind::Same) => {
            proof_rules::compare_labels(t, c.start, c.end) == Some(false)
        }
        (GoalAsked::Cycle, ClaimKind::Below) => c.start == c.end,
        (GoalAsked::Same(x, y), ClaimKind::Same) => equal_ends(x, y, c),
        (GoalAsked::Below(x, y), ClaimKind::Below) => equal_ends(x, y, c),
        _ => false,
    }
}

// Refusal 11: no byte, more than a buffer's, or a part of a line at the end.
pub fn bad_length(size: usize) -> bool
    ensures { result ≡ bad_length size }
{
    size == 0 || size > graph::BUFFER || size % 8 != 0
}

// Refusal 11, then 12 with the first line that breaks its rule, then 13; or the lines pass. Offer, lines and goal are parameters of their own,
// as document 01 hands them to the checker.
pub fn check(
    t: &Terms,
    e: &Equations,
    offer: Option<Offer>,
    bytes: &[u8],
    goal: GoalAsked,
) -> Result<(), Refusal>
    requires { Fit t.now e.now (offer_of offer) }
    ensures answer { judged_as result ≡ answer_to (with_offer (state_from t.now e.now) (offer_of offer)) (goal_of goal) bytes.now }
    ensures within { LineWithin result }
{
    if bad_length(bytes.len()) {
        return Err(Refusal::BadLength);
    }
    let last = walk(t, e, offer, bytes).map_err(|i| Refusal::BrokenLine { line: i as u16 })?;
    if shows_goal(t, goal, last) {
        Ok(())
    } else {
        Err(Refusal::NotShown)
    }
}
