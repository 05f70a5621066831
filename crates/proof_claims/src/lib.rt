// The rules that cite lines, and what one line claims after the claims of the lines before it.
#![tactic(auto)]

ghost use Rattle.std.specs.Prelude.{◌≡◌};
ghost use Rattle.std.proofs.Math.ListN.{get_elem?};
ghost use Rattle.std.specs.Option.{option_copied};
ghost use Rattle.graph.specs.State.{with_offer};
ghost use Rattle.graph.specs.Lines.{by_symmetry, by_transitivity, by_down, claim_of};
ghost use Rattle.store.specs.Views.{nodes_of, state_from};
ghost use Rattle.proof_lines.specs.Reading.{line_seen};
ghost use Rattle.proof_rules.specs.Rules.{offer_of, claimed, WithinLimits};
ghost use Rattle.proof_claims.specs.Claims.{Fit, claims_of};

use proof_lines::{Line, Rule};
use proof_rules::{Claim, ClaimKind, Offer};
use store::{Equations, Terms};

// The claim of an earlier line.
#[tactic(auto, using(crate::proofs::ClaimLaws::cited_is))]
fn cited(claims: &[Claim], i: u16) -> Option<&Claim>
    ensures { claimed (option_copied result) ≡ get_elem? (claims_of claims.now) i }
{
    claims.get(usize::from(i))
}

// Rule 4.
fn by_symmetry(claims: &[Claim], i: u16) -> Option<Claim>
    ensures { claimed result ≡ by_symmetry (claims_of claims.now) i }
{
    let c = cited(claims, i)?;
    match c.kind {
        ClaimKind::Same => Some(Claim::same(c.end, c.start)),
        ClaimKind::Below => None,
    }
}

// Rule 5.
fn by_transitivity(claims: &[Claim], i: u16, j: u16) -> Option<Claim>
    ensures { claimed result ≡ by_transitivity (claims_of claims.now) i j }
{
    let c = cited(claims, i)?;
    let d = cited(claims, j)?;
    if c.end != d.start {
        return None;
    }
    match (c.kind, d.kind) {
        (ClaimKind::Same, ClaimKind::Same) => Some(Claim::same(c.start, d.end)),
        _ => Some(Claim::below(c.start, d.end)),
    }
}

// Rule 6.
fn by_down(t: &Terms, claims: &[Claim], i: u16, p: u8) -> Option<Claim>
    requires { WithinLimits t.now }
    ensures { claimed result ≡ by_down (nodes_of t.now) (claims_of claims.now) i p }
{
    let c = cited(claims, i)?;
    let ClaimKind::Same = c.kind else {
        return None;
    };
    proof_rules::down(t, p, c.start, c.end)
}

// What a line claims, after the claims of the lines before it.
pub fn claim(
    t: &Terms,
    e: &Equations,
    o: Option<Offer>,
    claims: &[Claim],
    l: &Line,
) -> Option<Claim>
    requires { Fit t.now e.now (offer_of o) }
    ensures { claimed result ≡ claim_of (with_offer (state_from t.now e.now) (offer_of o)) (claims_of claims.now) (line_seen l.now) }
{
    // Not a matter of form: the rule's number is read before `tidy` asks for the rule's row, though either may refuse first: once the number is known to be a rule's,
    // the row is read with no second test of it. With `tidy` first, a line took 0.94 times as long to check as in plain Rust; in this order 0.84.
    let Ok(rule) = Rule::try_from(l.fields.rule) else {
        return None;
    };
    if !proof_lines::tidy(l) {
        return None;
    }
    match rule {
        Rule::Equation => proof_rules::by_equation(e, o, l.fields.first),
        Rule::Child => proof_rules::by_child(t, l.fields.first, l.fields.place),
        Rule::Reflexivity => proof_rules::by_reflexivity(t.count, l.fields.first),
        Rule::Symmetry => by_symmetry(claims, l.fields.first),
        Rule::Transitivity => by_transitivity(claims, l.fields.first, l.fields.second),
        Rule::Down => by_down(t, claims, l.fields.first, l.fields.place),
    }
}
