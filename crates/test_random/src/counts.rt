// What the run counts.
use std::io;
use test_tools::counts::{add, expect};
use test_tools::replies::Reply;

#[derive(Clone, Copy, Default)]
pub struct Counts {
    calls: usize,
    nodes: usize,
    held: usize,
    clashes: usize,
    cycles: usize,
    gone: usize,
    again: usize,
    cleared: usize,
    classes: usize,
    shown: usize,
    same: usize,
    below: usize,
    above: usize,
    apart: usize,
    passed: usize,
    /// By the refusal's number.
    refused: [usize; 19],
    proofs: usize,
    lines: usize,
    damaged_passed: usize,
    damaged_refused: usize,
    other_claims: usize,
    agreed: usize,
    mismatches: usize,
}

impl Counts {
    /// One comparison: counted as agreed or as a mismatch.
    pub fn expect(&mut self, ok: bool) {
        expect(ok, &mut self.agreed, &mut self.mismatches);
    }

    fn refused(&mut self, number: u8) {
        if let Some(count) = self.refused.get_mut(usize::from(number)) {
            add(count, 1);
        }
    }

    /// A call, by the reply that it owes.
    pub fn called(&mut self, owed: Reply) {
        add(&mut self.calls, 1);
        match owed {
            Reply::Node(_) => add(&mut self.nodes, 1),
            Reply::Held => add(&mut self.held, 1),
            Reply::Gone => add(&mut self.gone, 1),
            Reply::Clash => add(&mut self.clashes, 1),
            Reply::Cycle => add(&mut self.cycles, 1),
            Reply::Same => add(&mut self.same, 1),
            Reply::Below => add(&mut self.below, 1),
            Reply::Above => add(&mut self.above, 1),
            Reply::Apart => add(&mut self.apart, 1),
            Reply::Class { .. } => add(&mut self.classes, 1),
            Reply::Passed => add(&mut self.passed, 1),
            Reply::Refused(r) => self.refused(r.number()),
        }
    }

    /// A reply and the one that is owed.
    pub fn replied(&mut self, got: Reply, owed: Reply) {
        self.called(owed);
        self.expect(got == owed);
    }

    pub fn cleared(&mut self) {
        add(&mut self.calls, 1);
        add(&mut self.cleared, 1);
    }

    /// An equation at a place that a withdrawal freed.
    pub fn again(&mut self) {
        add(&mut self.again, 1);
    }

    /// A class, and whether its number is not its lowest node.
    pub fn shown(&mut self, variable_first: bool) {
        add(&mut self.shown, usize::from(variable_first));
    }

    pub fn proof(&mut self, lines: usize) {
        add(&mut self.proofs, 1);
        add(&mut self.lines, lines);
    }

    pub fn damaged(&mut self, passed: bool) {
        expect(passed, &mut self.damaged_passed, &mut self.damaged_refused);
    }

    /// A claim of a damaged proof whose lines obey their rules.
    pub fn other_claim(&mut self) {
        add(&mut self.other_claims, 1);
    }

    fn show_calls(&self, rt: &impl Print) -> io::Result<()> {
        println!(rt; "calls: {}", self.calls)?;
        println!(rt; "nodes declared: {}", self.nodes)?;
        println!(rt; "held: {}", self.held)?;
        println!(rt; "clashes: {}", self.clashes)?;
        println!(rt; "cycles: {}", self.cycles)?;
        println!(rt; "withdrawn: {}", self.gone)?;
        println!(rt; "held at a freed place: {}", self.again)?;
        println!(rt; "cleared: {}", self.cleared)?;
        println!(rt; "classes: {}", self.classes)?;
        println!(rt;
            "class numbers that are not the lowest node: {}",
            self.shown
        )?;
        println!(rt; "same: {}", self.same)?;
        println!(rt; "below: {}", self.below)?;
        println!(rt; "above: {}", self.above)?;
        println!(rt; "apart: {}", self.apart)
    }

    fn show_refusals(&self, rt: &impl Print) -> io::Result<()> {
        for k in [2, 3, 4, 5, 6, 7, 10, 11, 12, 13, 18] {
            if let Some(count) = self.refused.get(k) {
                println!(rt; "refused {k}: {count}")?;
            }
        }
        Ok(())
    }

    pub fn show(&self, rt: &impl Print) -> io::Result<()> {
        self.show_calls(rt)?;
        self.show_refusals(rt)?;
        println!(rt; "proofs checked: {}", self.proofs)?;
        println!(rt; "their lines: {}", self.lines)?;
        println!(rt; "random lines passed: {}", self.passed)?;
        println!(rt; "damaged proofs passed: {}", self.damaged_passed)?;
        println!(rt; "damaged proofs refused: {}", self.damaged_refused)?;
        println!(rt; "claims of damaged proofs, all true: {}", self.other_claims)?;
        println!(rt; "comparisons that agreed: {}", self.agreed)?;
        println!(rt; "mismatches: {}", self.mismatches)
    }
}
