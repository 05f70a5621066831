// The names that the last line of a proof rests on, by marking backwards.
#![tactic(auto)]

ghost use Rattle.std.specs.Prelude.{◌≡◌, ◌≤◌, length, take};
ghost use Rattle.graph.specs.Limits.{line_limit, buffer_bytes};
ghost use Rattle.proof_lines.specs.Codec.{lines_of};
ghost use Rattle.proof_cited.specs.Cited.{CitedRising};

use proof_lines::{Fields, Rule};

const BLOCK: usize = 64; // names that are passed over together where none of them was noted

// The marking at work: the lines that the last line rests on, the names in those that are equation lines, and their blocks, so far as is
// known. `sizes` says what the types say, since of arrays behind a reference a proof knows no length.
#[derive(Drop)]
struct Marker {
    lines: [bool; 8192],
    names: [bool; 65536],
    blocks: [bool; 1024],
    ghost sizes: { (length lines ≡ line_limit) × (length names ≡ 65536) × (length blocks ≡ 1024) },
}

impl Marker {
    ghost use Rattle.std.specs.Prelude.{true, ◌+◌, ◌*◌, ◌/◌, ◌<◌, set};
    ghost use Rattle.proof_lines.specs.Codec.{line_at};
    ghost use Rattle.proof_lines.specs.Reading.{line_of};
    ghost use Rattle.proof_cited.specs.Marks.{mark_one, block_size, Visited, Blank, Listable, NamesNoted, Listed, Listing};

    // Nothing marked, nothing noted.
    fn blank() -> Marker
        ensures { Blank result }
    {
        Marker {
            lines: [false; 8192],
            names: [false; 65536],
            blocks: [false; 1024],
        }
    }

    // Marks line `i` where it comes before line `k`.
    #[tactic(auto, unfolding(crate::specs::Marks::mark_one))]
    fn mark(&mut self, k: usize, i: u16)
        requires { k ≤ line_limit }
        ensures lines { self.new.lines ≡ mark_one self.old.lines k i }
        ensures same { (self.new.names ≡ self.old.names) × (self.new.blocks ≡ self.old.blocks) }
    {
        let cited = usize::from(i);
        if cited < k {
            self.lines[cited] = true;
        }
    }

    // Notes a name, and its block.
    fn note(&mut self, name: u16)
        ensures noted { (self.new.names ≡ set self.old.names name true) × (self.new.blocks ≡ set self.old.blocks (name / block_size) true) }
        ensures same { self.new.lines ≡ self.old.lines }
    {
        let x = usize::from(name);
        self.names[x] = true;
        self.blocks[x / BLOCK] = true;
    }

    // Marks the lines that line `k` cites, and notes the name of an equation line.
    #[tactic(auto, unfolding(crate::specs::Cited::citations, crate::specs::Marks::see_one))]
    fn take_line(&mut self, l: Fields, k: usize)
        requires { k ≤ line_limit }
        ensures { Visited self.old k (line_of l) self.new }
    {
        match Rule::try_from(l.rule) {
            Ok(Rule::Equation) => self.note(l.first),
            Ok(Rule::Symmetry | Rule::Down) => self.mark(k, l.first),
            Ok(Rule::Transitivity) => {
                self.mark(k, l.first);
                self.mark(k, l.second);
            }
            Ok(Rule::Child | Rule::Reflexivity) => {}
            Err(_) => {}
        }
    }

    // Marks and notes what line `k` says.
    fn visit(&mut self, bytes: &[u8], k: usize)
        requires { (8 * k + 8 ≤ length bytes.now) × (k ≤ line_limit) }
        ensures { Visited self.old k (line_at bytes.now k) self.new }
    {
        self.take_line(proof_lines::fields_at(bytes, k), k);
    }

    // Visits each marked line, from the last back to the first.
    fn mark_back(&mut self, bytes: &[u8])
        requires { Blank self.old × (8 ≤ length bytes.now) × (length bytes.now ≤ buffer_bytes) }
        ensures { NamesNoted (lines_of bytes.now) self.new }
    {
        let count = bytes.len() / 8;
        self.lines[count - 1] = true;
        for k in (0..count).rev() {
            if self.lines[k] {
                self.visit(bytes, k);
            }
        }
    }

    // Lists the noted names of block `b` behind `n` names; how many there are then.
    fn list_block(&self, b: usize, names: &mut [u16], n: usize) -> usize
        requires { (b < 1024) × Listing self.now.names names.old n (64 * b) }
        ensures { Listing self.now.names names.new result (64 * (b + 1)) }
    {
        let mut n = n;
        for x in b * BLOCK..(b + 1) * BLOCK {
            if self.names[x] {
                names[n] = x as u16;
                n += 1;
            }
        }
        n
    }

    // Lists the noted names, rising; a block without one is passed over.
    fn list_names(&self, names: &mut [u16]) -> usize
        requires { Listable self.now × (line_limit ≤ length names.old) }
        ensures { Listed self.now.names names.new result }
    {
        let mut n = 0;
        for (b, noted) in self.blocks.iter().enumerate() {
            if *noted {
                n = self.list_block(b, names, n);
            }
        }
        n
    }
}

// Writes the names cited by equation lines that the last line rests on, rising, each once, and gives their number.
// Both buffers are the caller's memory, lent, as this project has no heap: so how many names there are is counted beside their buffer, `n` in `list_block`, and
// `cited_names` gives the part that has them; and the length of `bytes` is asked in a clause, which a type made for this call alone would only hide.
pub fn list_cited(bytes: &[u8], names: &mut [u16]) -> usize
    requires { (8 ≤ length bytes.now) × (length bytes.now ≤ buffer_bytes) × (line_limit ≤ length names.old) }
    ensures cited { CitedRising (lines_of bytes.now) (take result names.new) }
    ensures fits { (result ≤ line_limit) × (result ≤ length names.new) }
{
    let mut marker = Marker::blank();
    marker.mark_back(bytes);
    marker.list_names(names)
}

// The same, with the names as the part of the lent buffer that has them.
pub fn cited_names<'n>(bytes: &[u8], names: &'n mut [u16]) -> &'n [u16]
    requires { (8 ≤ length bytes.now) × (length bytes.now ≤ buffer_bytes) × (line_limit ≤ length names.old) }
    ensures cited { CitedRising (lines_of bytes.now) result.now }
    ensures few { length result.now ≤ line_limit }
{
    let n = list_cited(bytes, names);
    &names[..n]
}
