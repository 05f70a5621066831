// What must hold of every proof: it passes, is written, read back, read line by line, and chosen against a longer one.
use super::{choosing, files, reading};
use proof_shorter::List;
use std::io;
use test_solver::checker::Question;
use test_tools::replies::Reply;
use test_tools::workspaces;
use unifier::Workspace;

/// Writes a proof, reads it back and reads it line by line. The bytes of its file, unless something came otherwise.
pub fn filed(lines: &[u8], out: &mut [u8]) -> Option<usize> {
    let room = out.len();
    let size = files::write_in(lines, out, room).ok()?;
    let part = proof_file::read(out.get(..size)?);
    let good = files::as_written(lines, size, out) && part == lines && reading::all_stand(part);
    good.then_some(size)
}

fn chosen(w: Workspace, x: Question, p: &[u8]) -> bool {
    let Some(longer) = choosing::longer(p, 0) else {
        return false;
    };
    choosing::choice(w, x, p, longer.as_slice()) == Some(Ok(List::First))
        && choosing::choice(w, x, longer.as_slice(), p) == Some(Ok(List::Second))
}

pub fn good(w: Workspace, x: Question, p: &[u8]) -> bool {
    let mut file = [0; 4096];
    workspaces::check(w, x, p).reply == Reply::Passed
        && filed(p, &mut file).is_some()
        && chosen(w, x, p)
}

pub fn show(rt: &impl Print, w: Workspace, x: Question, p: Option<&[u8]>) -> io::Result<()> {
    if p.is_some_and(|p| good(w, x, p)) {
        println!(rt; "passed, written, read back, chosen")
    } else {
        println!(rt; "otherwise")
    }
}
