// The shorter of two: which list, its bytes, and each refusal.
use super::replies::{choose, chosen};
use super::{proved, sample};
use bounded_list::BoundedList;
use proof_shorter::{List, NoChoice};
use refusals::Refusal;
use std::io;
use test_solver::checker::{Claim, Goal, Question};
use test_tools::replies::Answer;
use unifier::Workspace;

/// A proof with one line more: `self` of a node before its last line, which no line cites.
pub fn longer(lines: &[u8], node: u8) -> Option<BoundedList<u8, 4096>> {
    let (first, last) = lines.split_at_checked(lines.len().checked_sub(8)?)?;
    if lines.len() > 4088 {
        return None;
    }
    let mut more = BoundedList::new(0);
    more.extend_from_slice(first);
    more.extend_from_slice(&[3, 0, 0, node, 0, 0, 0, 0]);
    more.extend_from_slice(last);
    Some(more)
}

/// The reply, unless another part is handed back than it tells.
pub fn choice(w: Workspace, x: Question, a: &[u8], b: &[u8]) -> Option<Result<List, NoChoice>> {
    let reply = choose(w, x, a, b);
    let part = chosen(w, x, a, b);
    let handed = match reply {
        Ok(List::First) => part == a,
        Ok(List::Second) => part == b,
        Err(_) => part.is_empty(),
    };
    handed.then_some(reply)
}

fn number_of(list: List) -> u8 {
    match list {
        List::First => 1,
        List::Second => 2,
    }
}

fn show_neither(rt: &impl Print, n: NoChoice) -> io::Result<()> {
    let number = n.refusal.number();
    match (n.refusal, n.list.map(number_of)) {
        (Refusal::BrokenLine { line }, Some(list)) => {
            println!(rt; ": refused {number} in list {list}, line {line}")
        }
        (_, Some(list)) => println!(rt; ": refused {number} in list {list}"),
        (_, None) => println!(rt; ": refused {number}"),
    }
}

fn show(rt: &impl Print, w: Workspace, x: Question, a: &[u8], b: &[u8]) -> io::Result<()> {
    match choice(w, x, a, b) {
        Some(Ok(List::First)) => println!(rt; ": the first"),
        Some(Ok(List::Second)) => println!(rt; ": the second"),
        Some(Err(n)) => show_neither(rt, n),
        None => println!(rt; ": otherwise"),
    }
}

// Every pair of eight lists, for 5 same 2.

fn with_first(
    rt: &impl Print,
    w: Workspace,
    lists: &[&[u8]; 8],
    i: usize,
    a: &[u8],
) -> io::Result<()> {
    for (j, b) in lists.iter().enumerate() {
        print!(rt; "lists {i} and {j}")?;
        show(rt, w, sample::same(5, 2), a, b)?;
    }
    Ok(())
}

pub fn lists(rt: &impl Print, w: Workspace, p: &[u8]) -> io::Result<()> {
    println!(rt;
        "lists: 0 the proof of 5 same 2, 1 and 2 one line more, 3 rule 0 in line 1, 4 self, 5 9 bytes, 6 no bytes, 7 65544 bytes"
    )?;
    let (Some(one), Some(other)) = (longer(p, 0), longer(p, 1)) else {
        return Ok(());
    };
    let mut itself = [0; 65544];
    itself[0] = 3;
    let lists = [
        p,
        one.as_slice(),
        other.as_slice(),
        &itself[..24],
        &itself[..8],
        &itself[..9],
        &itself[..0],
        &itself[..],
    ];
    for (i, a) in lists.iter().enumerate() {
        with_first(rt, w, &lists, i, a)?;
    }
    Ok(())
}

// Refusals that come before the lists'

fn early(rt: &impl Print, what: &str, w: Workspace, x: Question) -> io::Result<()> {
    print!(rt; "no bytes, {what}")?;
    show(rt, w, x, &[], &[])
}

pub fn earlies(rt: &impl Print, w: Workspace) -> io::Result<()> {
    let below = Question {
        offer: None,
        goal: Goal::Claim(Claim::below(9, 5)),
    };
    early(rt, "same 5 and 9", w, sample::same(5, 9))?;
    early(rt, "below 9 and 5", w, below)?;
    let held = "8 = 9 offered, its name held";
    early(rt, held, w, sample::clash(10, 8, 9))?;
    let held = "8 = 7 offered, its name held";
    early(rt, held, w, sample::clash(10, 8, 7))?;
    early(rt, "8 = 7 offered", w, sample::clash(13, 8, 7))
}

/// A refusal's own proof, which names the offered equation.
pub fn clash(rt: &impl Print, w: Workspace, proof: &mut [u8]) -> io::Result<()> {
    let n = Answer::held(w.equate(13, 8, 7, proof)).proof;
    print!(rt; "8 = 7 offered, the proof of its clash: ")?;
    proved::show(rt, w, sample::clash(13, 8, 7), proof.get(..n))
}
