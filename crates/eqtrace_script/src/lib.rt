// An input as a script: where a line ends, the line `K`, which answers refuse, and where to go on.
#![tactic(auto)]

ghost use Rattle.std.specs.Prelude.{◌≡◌, [], ◌≤◌, length};
ghost use Rattle.eqtrace_orders.specs.Input.{EndsAt};
ghost use Rattle.eqtrace_answers.specs.Puts.{meant};
ghost use Rattle.eqtrace_script.specs.Script.{input_limit, refuses, next_place, is_keep};

use eqtrace_answers::Answer;

// Where the order that begins at `at` ends: at the next line break, or where the input ends.
pub fn line_end(input: &[u8], at: usize) -> usize
    requires { at ≤ length input.now }
    ensures { EndsAt input.now at result }
{
    match input[at..].iter().position(|b| *b == b'\n') {
        Some(n) => at + n,
        None => input.len(),
    }
}

// The line `K`: it counts only as an input's first, since no order is written so.
pub fn is_keep(line: &[u8]) -> bool
    ensures { result ≡ is_keep line.now }
{
    matches!(line, b"K")
}

// Whether an answer refuses; the names that it cites don't matter.
pub fn is_refusal(answer: Answer) -> bool
    ensures { result ≡ refuses (meant answer []) }
{
    matches!(answer, Answer::Refused(_) | Answer::Unreadable(_))
}

// Where to go on behind an order that ends at `end`, in an input of `size` bytes. This is the place that decides whether to go on at all.
pub fn next_place(keep: bool, refused: bool, end: usize, size: usize) -> usize
    requires { end ≤ input_limit }
    ensures { result ≡ next_place keep refused end size }
{
    if keep || !refused { end + 1 } else { size }
}
