// A real proof's file: written, read and passed again, and then with each bit damaged in turn.
ghost use Rattle.std.specs.Prelude.{◌<◌, length};

use super::{proved, reading, sample};
use refusals::Refusal;
use std::io;
use test_tools::counts::add;
use test_tools::replies::Reply;
use test_tools::workspaces;
use unifier::Workspace;

// How a damaged file or its lines are refused, or that they pass.
#[derive(Clone, Copy)]
enum Outcome {
    NotAProofFile,
    BadLength,
    /// At the damaged line, as must be.
    Broken,
    /// There or later, since the damage may give another line that stands.
    BrokenLater,
    NotShown,
    Passed,
}

#[derive(Clone, Copy, Default)]
struct Counts {
    not_a_proof_file: usize,
    bad_length: usize,
    broken: usize,
    broken_later: usize,
    not_shown: usize,
    passed: usize,
    otherwise: usize,
}

impl Counts {
    fn count(&mut self, outcome: Option<Outcome>) {
        match outcome {
            Some(Outcome::NotAProofFile) => add(&mut self.not_a_proof_file, 1),
            Some(Outcome::BadLength) => add(&mut self.bad_length, 1),
            Some(Outcome::Broken) => add(&mut self.broken, 1),
            Some(Outcome::BrokenLater) => add(&mut self.broken_later, 1),
            Some(Outcome::NotShown) => add(&mut self.not_shown, 1),
            Some(Outcome::Passed) => add(&mut self.passed, 1),
            None => add(&mut self.otherwise, 1),
        }
    }
}

// Whether a line breaks that has this rule after this bit was changed in its byte at `at`: it is no rule, or doesn't use the field, or there
// is no such name, node or line, since those here are below 128.
fn must_break(rule: u8, at: usize, bit: u8) -> bool {
    match at {
        0 => rule == 0 || 6 < rule,
        1 => rule != 2 && rule != 6,
        3 => bit == 128,
        5 => rule != 5 || bit == 128,
        _ => true,
    }
}

// The lines, of which byte `at` is damaged. The reader gives the damaged fields as they stand, and lines before them keep their rules.
fn checked(w: Workspace, lines: &[u8], at: usize, bit: u8) -> Option<Outcome> {
    let k = at / 8;
    let rule = *lines.get(8 * k)?;
    let must = must_break(rule, at % 8, bit);
    if !reading::stands(lines, k) {
        return None;
    }
    match workspaces::check(w, sample::same(5, 2), lines).reply {
        Reply::Refused(Refusal::BrokenLine { line }) => {
            let line = usize::from(line);
            if must {
                (line == k).then_some(Outcome::Broken)
            } else {
                (k <= line).then_some(Outcome::BrokenLater)
            }
        }
        Reply::Refused(Refusal::NotShown) if !must => Some(Outcome::NotShown),
        Reply::Passed if !must => Some(Outcome::Passed),
        _ => None,
    }
}

// What comes of a file in which one bit of byte `at` is damaged, if it is as it must be.
fn judged(w: Workspace, file: &[u8], at: usize, bit: u8) -> Option<Outcome> {
    match (at, proof_file::read_reply(file)) {
        (0..5, Err(Refusal::NotAProofFile)) => Some(Outcome::NotAProofFile),
        (5..7, Err(Refusal::BadFileLength)) => Some(Outcome::BadLength),
        (7.., Ok(())) => checked(w, proof_file::read(file), at - 7, bit),
        _ => None,
    }
}

fn byte(w: Workspace, file: &mut [u8], at: usize, counts: &mut Counts)
    requires { at < length file.old }
{
    let old = file[at];
    for bit in [1, 2, 4, 8, 16, 32, 64, 128] {
        file[at] = old ^ bit;
        counts.count(judged(w, file, at, bit));
    }
    file[at] = old;
}

fn bytes(w: Workspace, file: &mut [u8], counts: &mut Counts) {
    for at in 0..file.len() {
        byte(w, file, at, counts);
    }
}

fn show(rt: &impl Print, counts: Counts) -> io::Result<()> {
    println!(rt;
        "its file with each bit damaged, refused 14: {}",
        counts.not_a_proof_file
    )?;
    println!(rt; "refused 15: {}", counts.bad_length)?;
    println!(rt;
        "refused 12 at the damaged line, as must be: {}",
        counts.broken
    )?;
    println!(rt; "refused 12 there or later: {}", counts.broken_later)?;
    println!(rt; "refused 13: {}", counts.not_shown)?;
    println!(rt; "passed: {}", counts.passed)?;
    println!(rt; "otherwise: {}", counts.otherwise)
}

pub fn all(rt: &impl Print, w: Workspace, lines: &[u8]) -> io::Result<()> {
    print!(rt; "the proof of 5 same 2: ")?;
    proved::show(rt, w, sample::same(5, 2), Some(lines))?;
    let mut file = [0; 4096];
    let mut counts = Counts::default();
    let size = proved::filed(lines, &mut file).unwrap_or(0);
    if let Some(file) = file.get_mut(..size) {
        bytes(w, file, &mut counts);
    }
    show(rt, counts)
}
