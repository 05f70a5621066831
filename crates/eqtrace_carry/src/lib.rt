// One order carried out on a workspace. The caller lends a proof buffer of 65,536 bytes, room for 8,192 names, as many as a proof has lines,
// and 49,184 bytes or more for an answer: a word of at most 7 letters, two numbers or one and the names, each of at most 6 bytes with its
// space, and the line break.
#![tactic(auto)]

ghost use Rattle.std.specs.Prelude.{◌≡◌, List, [], ℕ, ◌+◌, ◌*◌, ◌≤◌, ◌<◌, length};
ghost use Rattle.std.proofs.Math.Option.{none, some};
ghost use Rattle.graph.specs.Limits.{line_limit, buffer_bytes};
ghost use Rattle.eqtrace_orders.specs.Grammar.{order_of};
ghost use Rattle.eqtrace_orders.specs.Grammar as order;
ghost use Rattle.refusals.specs.Numbers.{brings};
ghost use Rattle.eqtrace_answers.specs.Text.{node, gone};
ghost use Rattle.eqtrace_answers.specs.Puts.{meant, Small, answer_room};
ghost use Rattle.eqtrace_carry.specs.Carried.{plainly, Carries};
ghost use Rattle.eqtrace_carry.specs.Inner.{brought_lines, stance_lines, stance_answered, Means, CitesIn, Telling};

use eqtrace_answers::Answer;
use eqtrace_orders::Order;
use unifier::{Refusal, Standing, Workspace};

// The workspace after an order, how many bytes its answer has in the lent buffer, and whether it was refused.
#[derive(Clone, Copy)]
pub struct Carried {
    pub workspace: Workspace,
    pub length: usize,
    pub refused: bool,
}

// How many proof lines come with a refusal.
fn refusal_lines(r: Refusal) -> usize
    ensures { result ≡ brought_lines (brings r) }
{
    match r {
        Refusal::Clash { lines } | Refusal::Cycle { lines } => usize::from(lines),
        _ => 0,
    }
}

// What is said of how two nodes stand, names aside.
fn stance_answer(s: Standing) -> Answer
    ensures { Means (stance_answered s) result }
{
    match s {
        Standing::Same(_) => Answer::Same,
        Standing::Below(_) => Answer::Below,
        Standing::Above(_) => Answer::Above,
        Standing::Apart => Answer::Apart,
    }
}

fn stance_lines(s: Standing) -> usize
    ensures { result ≡ stance_lines s }
{
    match s {
        Standing::Same(n) | Standing::Below(n) | Standing::Above(n) => usize::from(n),
        Standing::Apart => 0,
    }
}

// What is said of a declaration: the node's number.
fn node_answer(reply: Result<u8, Refusal>) -> Answer
    ensures small { Small result }
    ensures means { meant result [] ≡ plainly node reply }
{
    match reply {
        Ok(u) => Answer::Node(u),
        Err(r) => Answer::Refused(r),
    }
}

// What is said of the withdrawal of a name.
fn gone_answer(name: u16, reply: Result<(), Refusal>) -> Answer
    ensures small { Small result }
    ensures means { meant result [] ≡ plainly (λ _. gone name) reply }
{
    match reply {
        Ok(()) => Answer::Gone(name),
        Err(r) => Answer::Refused(r),
    }
}

// The names that the last of `n` lines rests on, none where there is no line.
#[tactic(auto, using(crate::proofs::CarryLaws::cites_some))]
fn cite<'n>(proof: &[u8], n: usize, names: &'n mut [u16]) -> &'n [u16]
    requires { (8 * n ≤ length proof.now) × (n ≤ line_limit) × (line_limit ≤ length names.old) }
    ensures { CitesIn n proof.now result.now }
{
    if n == 0 {
        return &[];
    }
    proof_cited::cited_names(&proof[..8 * n], names)
}

// The answer's text, with the names that it cites.
fn tell(w: Workspace, answer: Answer, cited: &[u16], out: &mut [u8]) -> Carried
    requires { Small answer × (20 + 6 * length cited.now ≤ length out.old) }
    ensures { Telling w answer cited.now out.old out.new result }
{
    let length = eqtrace_answers::say(out, answer, cited);
    Carried {
        workspace: w,
        length,
        refused: eqtrace_script::is_refusal(answer),
    }
}

// The answer to an order that can't be read.
pub fn unreadable(w: Workspace, i: u32, out: &mut [u8]) -> Carried
    requires { (i < 100000) × (20 ≤ length out.old) }
    ensures { (proof : List ℕ) → Carries w i none proof proof out.old out.new result }
{
    tell(w, Answer::Unreadable(i), &[], out)
}

#[tactic(auto, using(crate::proofs::CarryLaws::carries))]
fn carry_variable(w: Workspace, out: &mut [u8]) -> Carried
    requires { 20 ≤ length out.old }
    ensures { (i : ℕ) (proof : List ℕ) → Carries w i (some order.variable) proof proof out.old out.new result }
{
    let o = w.declare_variable();
    tell(o.workspace, node_answer(o.reply), &[], out)
}

#[tactic(auto, using(crate::proofs::CarryLaws::carries))]
fn carry_functor(w: Workspace, symbol: u16, children: &[u16], out: &mut [u8]) -> Carried
    requires { 20 ≤ length out.old }
    ensures { (i : ℕ) (proof : List ℕ) → Carries w i (some (order.functor symbol children.now)) proof proof out.old out.new result }
{
    let o = w.declare_functor(symbol, children);
    tell(o.workspace, node_answer(o.reply), &[], out)
}

#[tactic(auto, using(crate::proofs::CarryLaws::carries))]
fn carry_withdraw(w: Workspace, name: u16, out: &mut [u8]) -> Carried
    requires { 20 ≤ length out.old }
    ensures { (i : ℕ) (proof : List ℕ) → Carries w i (some (order.withdraw name)) proof proof out.old out.new result }
{
    let o = w.withdraw(name);
    tell(o.workspace, gone_answer(name, o.reply), &[], out)
}

// The three lent buffers stay three parameters, here and below: a struct of arrays would ask for an answer's buffer of just that size, and one of
// references, as `Pen` is, would add three clauses to each of these three functions: that each buffer is afterwards the one that was
// lent.
#[tactic(auto, using(crate::proofs::CarryLaws::offer_lines, crate::proofs::CarryLaws::offer_held))]
fn carry_equate(
    w: Workspace,
    name: u16,
    left: u16,
    right: u16,
    proof: &mut [u8],
    names: &mut [u16],
    out: &mut [u8],
) -> Carried
    requires { (length proof.old ≡ buffer_bytes) × (length names.old ≡ line_limit) × (answer_room ≤ length out.old) }
    ensures { (i : ℕ) → Carries w i (some (order.equate name left right)) proof.old proof.new out.old out.new result }
{
    let o = w.equate(name, left, right, proof);
    match o.reply {
        Ok(()) => tell(o.workspace, Answer::Held(name), &[], out),
        Err(r) => {
            let cited = cite(proof, refusal_lines(r), names);
            tell(o.workspace, Answer::Refused(r), cited, out)
        }
    }
}

#[tactic(auto, using(crate::proofs::CarryLaws::compare_lines, crate::proofs::CarryLaws::query_refused))]
fn carry_query(
    w: Workspace,
    x: u16,
    y: u16,
    proof: &mut [u8],
    names: &mut [u16],
    out: &mut [u8],
) -> Carried
    requires { (length proof.old ≡ buffer_bytes) × (length names.old ≡ line_limit) × (answer_room ≤ length out.old) }
    ensures { (i : ℕ) → Carries w i (some (order.query x y)) proof.old proof.new out.old out.new result }
{
    let o = w.compare(x, y, proof);
    match o.reply {
        Ok(s) => {
            let cited = cite(proof, stance_lines(s), names);
            tell(o.workspace, stance_answer(s), cited, out)
        }
        Err(r) => tell(o.workspace, Answer::Refused(r), &[], out),
    }
}

// One order: its line, its number from 1, and the buffers of proof, names and answer.
pub fn carry_out(
    w: Workspace,
    line: &[u8],
    i: u32,
    proof: &mut [u8],
    names: &mut [u16],
    out: &mut [u8],
) -> Carried
    requires { (i < 100000) × (length proof.old ≡ buffer_bytes) × (length names.old ≡ line_limit) × (answer_room ≤ length out.old) }
    ensures { Carries w i (order_of line.now) proof.old proof.new out.old out.new result }
{
    let Some(order) = eqtrace_orders::parse(line) else {
        return unreadable(w, i, out);
    };
    match order {
        Order::Variable => carry_variable(w, out),
        Order::Functor { symbol, children } => carry_functor(w, symbol, children.as_slice(), out),
        Order::Equate { name, left, right } => carry_equate(
            w, name, left, right, proof, names, out,
        ),
        Order::Withdraw { name } => carry_withdraw(w, name, out),
        Order::Query { left, right } => carry_query(w, left, right, proof, names, out),
    }
}
