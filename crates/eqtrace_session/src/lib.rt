// An input's orders carried out, one after the other: `begin`, then `step` until nothing is left. The buffers are those of `eqtrace_carry`.
#![tactic(auto)]

ghost use Rattle.std.specs.Prelude.{◌≡◌, ◌≤◌, ◌<◌, length};
ghost use Rattle.graph.specs.Limits.{line_limit, buffer_bytes};
ghost use Rattle.eqtrace_answers.specs.Puts.{answer_room};
ghost use Rattle.eqtrace_script.specs.Script.{input_limit};
ghost use Rattle.eqtrace_session.specs.Steps.{beginning, left_of, OrderAt, TooLong, Steps};

use unifier::Workspace;

const INPUT: usize = 65536; // bytes of an input

const ORDERS: u32 = 65536; // of an input: each has at least its line break, but perhaps the last

// A place in an input: whether to keep going after a refusal, the workspace after the orders before it, where the next one begins, and its
// number. Only `begin` and `step` make one.
#[derive(Clone, Copy)]
pub struct Cursor {
    keep: bool,
    workspace: Workspace,
    at: usize,
    number: u32,
}

// What is left of an input at a cursor: three ways to go on, and none has a value.
#[derive(Clone, Copy)]
enum Left {
    Nothing,
    TooLong,
    Order,
}

// The cursor behind a step, and how many bytes of the lent buffer the step's text has: 0 where nothing was left. No Option: `Steps` promises an
// empty text there, and an order's text has at least its line break, so 0 says it already, and the program's loop stops at it.
#[derive(Clone, Copy)]
pub struct Stepped {
    pub cursor: Cursor,
    pub length: usize,
}

pub fn workspace(c: Cursor) -> Workspace
    ensures { result ≡ c.workspace }
{
    c.workspace
}

impl Cursor {
    // No step comes to a number above ORDERS.
    #[tactic(auto, using(crate::proofs::LeftLaws::left_nothing, crate::proofs::LeftLaws::left_many, crate::proofs::LeftLaws::left_long, crate::proofs::LeftLaws::left_order))]
    fn left(&self, input: &[u8]) -> Left
        ensures { result ≡ left_of input.now self.now.at self.now.number }
    {
        if input.len() <= self.at {
            return Left::Nothing;
        }
        if ORDERS < self.number {
            return Left::Nothing;
        }
        if INPUT < input.len() {
            return Left::TooLong;
        }
        Left::Order
    }

    // The one answer to an input that is too long.
    fn too_long(self, input: &[u8], out: &mut [u8]) -> Stepped
        requires { 20 ≤ length out.old }
        ensures { TooLong self input.now out.old out.new result }
    {
        let said = eqtrace_carry::unreadable(self.workspace, 0, out);
        Stepped {
            cursor: Cursor {
                workspace: said.workspace,
                at: input.len(),
                ..self
            },
            length: said.length,
        }
    }

    // The order that begins here, and the cursor behind it.
    fn order(self, input: &[u8], proof: &mut [u8], names: &mut [u16], out: &mut [u8]) -> Stepped
        requires within { (self.at < length input.now) × (length input.now ≤ input_limit) × (self.number ≤ input_limit) }
        requires lent { (length proof.old ≡ buffer_bytes) × (length names.old ≡ line_limit) × (answer_room ≤ length out.old) }
        ensures { OrderAt self input.now proof.old proof.new out.old out.new result }
    {
        let e = eqtrace_script::line_end(input, self.at);
        let carried = eqtrace_carry::carry_out(
            self.workspace,
            &input[self.at..e],
            self.number,
            proof,
            names,
            out,
        );
        let next = eqtrace_script::next_place(self.keep, carried.refused, e, input.len());
        Stepped {
            cursor: Cursor {
                workspace: carried.workspace,
                at: next,
                number: self.number + 1,
                ..self
            },
            length: carried.length,
        }
    }
}

// Where an input's first order to answer begins: behind a first line `K`, which is order 1 and keeps going, or at the first byte.
#[tactic(auto, using(crate::proofs::StepLaws::cursor_begun))]
pub fn begin(input: &[u8]) -> Cursor
    ensures { result ≡ beginning input.now }
{
    let w = Workspace::fresh();
    let e = eqtrace_script::line_end(input, 0);
    if eqtrace_script::is_keep(&input[0..e]) {
        return Cursor {
            keep: true,
            workspace: w,
            at: 2,
            number: 2,
        };
    }
    Cursor {
        keep: false,
        workspace: w,
        at: 0,
        number: 1,
    }
}

// One order, from its line to its text at the start of `out`. Where nothing is left, the cursor stays and the text is empty. Three arrays and no
// struct of them, so that a caller can lend arrays that stand apart.
pub fn step(
    c: Cursor,
    input: &[u8],
    proof: &mut [u8; 65536],
    names: &mut [u16; 8192],
    out: &mut [u8; 49184],
) -> Stepped
    ensures { Steps c input.now proof.old proof.new out.old out.new result }
{
    match c.left(input) {
        Left::Nothing => Stepped {
            cursor: c,
            length: 0,
        },
        Left::TooLong => c.too_long(input, out),
        Left::Order => c.order(input, proof, names, out),
    }
}
