// Orders from a reader, one a line, and the answer to each to a writer: of the program, standard input and output.
#![tactic(auto)]

ghost use Rattle.std.specs.Prelude.{◌≡◌, ◌≤◌, length, take, IsOk, IfOk, OnOk, IfSome};
ghost use Rattle.std.specs.Io.KnownBytes.{Appends};
ghost use Rattle.unifier.specs.declared.Workspace.{Workspace};
ghost use Rattle.eqtrace_session.specs.Transcript.{Finished};
ghost use Rattle.eqtrace_console.specs.Console.{WritesAnswers};

use std::io;
use std::io::{Read, Write};
use unifier::Workspace;

// The workspace after an input, and whether each answer was written.
#[derive(Drop)]
pub struct Answered {
    pub workspace: Workspace,
    pub written: io::Result<()>,
}

// Once a write has failed, nothing more is written.
fn write_after<W: Write>(written: io::Result<()>, to: &mut W, text: &[u8]) -> io::Result<()>
    ensures before { OnOk result (IsOk written) }
    ensures appends { OnOk result (Appends (W.contents to.old) (W.contents to.new) text.now) }
{
    written?;
    to.write_all(text)
}

// Writes each answer in full before the next order is looked at. The steps are those of the whole input, from its beginning to its end, and
// what their texts are `eqtrace_session` promises.
pub fn answer_all<W: Write>(
    input: &[u8],
    proof: &mut [u8; 65536],
    names: &mut [u16; 8192],
    out: &mut [u8; 49184],
    to: &mut W,
) -> Answered
    ensures finished { Finished input.now result.workspace }
    ensures written { OnOk result.written (WritesAnswers (W.contents to.old) (W.contents to.new) input.now result.workspace) }
{
    let mut c = eqtrace_session::begin(input);
    let mut written = Ok(());
    loop {
        let s = eqtrace_session::step(c, input, proof, names, out);
        let n = s.length;
        let d = s.cursor;
        if n == 0 {
            return Answered {
                workspace: eqtrace_session::workspace(d),
                written,
            };
        }
        let text: &[u8] = out;
        written = write_after(written, to, &text[0..n]);
        c = d;
    }
}

// Reads until `buf` is full or the reader ends: how many bytes it put at the start of `buf`. The library's `read_exact` fails where the reader
// ends first, and `read_to_end` wants a heap.
pub fn read_full<R: Read>(from: &mut R, buf: &mut [u8]) -> io::Result<usize>
    ensures bound { IfOk result (λ n. n ≤ length buf.new) }
    ensures bytes { IfOk result (λ n. IfSome (R.remaining from.old) (λ xs. take n buf.new ≡ take (length buf.old) xs)) }
{
    let mut n = 0;
    while n < buf.len() {
        let got = from.read(&mut buf[n..])?;
        if got == 0 {
            break;
        }
        n += got;
    }
    Ok(n)
}

// One byte more than an input may have tells that it is too long.
pub fn run<R: Read, W: Write>(from: &mut R, to: &mut W) -> io::Result<()>
    ensures { OnOk result (IfSome (R.remaining from.old) (λ input. (w : Workspace) × WritesAnswers (W.contents to.old) (W.contents to.new) input w)) }
{
    let mut input = [0u8; 65537];
    let n = read_full(from, &mut input)?;
    let mut proof = [0u8; 65536];
    let mut names = [0u16; 8192];
    let mut out = [0u8; 49184];
    answer_all(&input[..n], &mut proof, &mut names, &mut out, to).written
}
