// The reader of a proof: it holds the lent lines and the number of the line that it has come to. The line decoder does the work, and `step`
// is over the struct; a reader is an iterator too, and `read_line` makes one of plain parameters.
#![tactic(auto)]

ghost use Rattle.std.specs.Prelude.{◌≡◌, ◌/◌, length};
ghost use Rattle.proof_reader.specs.Read.{step_at, moved_to};

use proof_lines::Line;

#[derive(Clone, Copy)]
pub struct LineReader<'a> {
    pub lines: &'a [u8],
    pub at: usize,
}

impl<'a> LineReader<'a> {
    // Gives the line as it stands and moves one on; with no whole line left it gives none and doesn't move.
    pub fn step(&mut self) -> Option<Line>
        ensures line { result ≡ (step_at self.old.lines.now self.old.at).0 }
        ensures moved { self.new ≡ moved_to self.old (step_at self.old.lines.now self.old.at).1 }
    {
        let line = proof_lines::decode(self.lines, self.at)?;
        self.at += 1;
        Some(line)
    }
}

impl<'a> Iterator for LineReader<'a> {
    ghost use Rattle.std.specs.Iterator.{YieldsFirst, item_count};
    ghost use Rattle.proof_reader.specs.Read.{lines_left};

    type Item = Line;

    ghost next_gives = { YieldsFirst lines_left };

    ghost remaining = { item_count lines_left };

    fn next(&mut self) -> Option<Line> {
        self.step()
    }
}

// One step of a reader made at line `at`, for callers that hold none: the line, and the number of the next.
pub fn read_line(lines: &[u8], at: usize) -> (Option<Line>, usize)
    ensures { result ≡ step_at lines.now at }
{
    let mut reader = LineReader { lines, at };
    let line = reader.step();
    (line, reader.at)
}

// How many whole lines there are, by reading to the end.
pub fn count_lines(lines: &[u8]) -> usize
    ensures { result ≡ length lines.now / 8 }
{
    LineReader { lines, at: 0 }.count()
}
