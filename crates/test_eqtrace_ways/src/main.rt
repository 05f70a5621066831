// The program's two ways: many inputs in one, each ended by `=`. After what is printed for one comes a line `=`.
#![tactic(auto)]

use std::io;
use std::io::Write;

fn answer_each<W: Write>(
    all: &[u8],
    proof: &mut [u8; 65536],
    names: &mut [u16; 8192],
    out: &mut [u8; 49184],
    to: &mut W,
) -> io::Result<()> {
    for part in all.split_inclusive(|b| *b == b'=') {
        let input = part.strip_suffix(b"=").unwrap_or(part);
        eqtrace_console::answer_all(input, proof, names, out, to).written?;
        to.write_all(b"=\n")?;
    }
    Ok(())
}

fn main(rt: HostRuntime) -> io::Result<()> {
    let mut all = [0; 8192];
    let n = eqtrace_console::read_full(&mut rt.stdin(), &mut all)?;
    let mut proof = [0u8; 65536];
    let mut names = [0u16; 8192];
    let mut out = [0u8; 49184];
    answer_each(
        &all[..n],
        &mut proof,
        &mut names,
        &mut out,
        &mut rt.stdout(),
    )
}
