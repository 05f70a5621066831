// A pen that writes the lines of a proof into a lent buffer, and runs of lines that extend what the lines before them claim, by symmetry
// and transitivity.
#![tactic(auto)]

ghost use Rattle.std.specs.Prelude.{◌≡◌, ◌≤◌, ◌<◌, length};
ghost use Rattle.graph.specs.Limits.{node_limit, buffer_bytes};

use proof_lines::Fields;

// The lines so far, in a lent buffer, and for each node the number of a line that claims it same its root, the class table's entry for it.
// `each_node` stands here, since the length of an array behind a reference isn't known otherwise. The count stands beside the buffer, since that
// is the caller's memory, lent: there is no heap.
#[derive(Drop)]
pub struct Pen<'a> {
    pub buf: &'a mut [u8],
    pub lines: usize,
    pub nodes: usize,
    pub to: [u16; 64],
    pub ghost few_nodes: { nodes ≤ node_limit },
    pub ghost each_node: { length to ≡ 64 },
    pub ghost large_buffer: { buffer_bytes ≤ length buf.now },
}

impl<'a> Pen<'a> {
    ghost use Rattle.proof_lines.specs.Reading.{line_of};
    ghost use Rattle.write_runs.specs.Pens.{Takes, NextLine};
    ghost use Rattle.write_runs.specs.Runs.{Linked, Bridged, BridgedBack, Started, Absorbed, Rewired};

    // A line for each node that claims it same itself.
    pub fn start(buf: &'a mut [u8], nodes: usize) -> Pen<'a>
        requires nodes_le_node_limit { (nodes ≤ node_limit) × (buffer_bytes ≤ length buf.old) }
        ensures same_reference { result.buf.ghost_name ≡ buf.entry.ghost_name }
        ensures started { Started buf.old nodes nodes result }
    {
        let mut pen = Pen {
            buf,
            lines: 0,
            nodes,
            to: [0; 64],
        };
        pen.own_lines();
        pen
    }

    // These lines, before there are others. Not in `start`: a loop there would have to be proved over the pen's fields one by one.
    fn own_lines(&mut self)
        requires { self.old.lines ≡ 0 }
        ensures same_reference { self.new.buf.ghost_name ≡ self.old.buf.ghost_name }
        ensures started { Started self.old.buf.now self.old.nodes self.old.nodes self.new }
    {
        for x in 0..self.nodes {
            let own = self.put(Fields::reflexivity(x as u16));
            self.to[x] = own;
        }
    }

    // One line more; gives its number. Each run below gives the number of its last line.
    pub fn put(&mut self, l: Fields) -> u16
        requires { Takes self.old 1 }
        ensures { NextLine self.old (line_of l) self.new result }
    {
        let n = self.lines;
        proof_lines::put_line(self.buf, n, l);
        self.lines = n + 1;
        n as u16
    }

    // From lines `i`, p same x, and `j`, q same x: p same q, in two lines.
    pub fn link(&mut self, i: u16, j: u16) -> u16
        requires { Takes self.old 2 }
        ensures { Linked self.old i j self.new result }
    {
        let turned = self.put(Fields::symmetry(j));
        self.put(Fields::transitivity(i, turned))
    }

    // From lines `r`, a same b, `i`, a same x, and `j`, b same y: x same y, in three lines.
    pub fn bridge(&mut self, r: u16, i: u16, j: u16) -> u16
        requires { Takes self.old 3 }
        ensures { Bridged self.old r i j self.new result }
    {
        let through = self.put(Fields::transitivity(r, j));
        let turned = self.put(Fields::symmetry(i));
        self.put(Fields::transitivity(turned, through))
    }

    // The same, with y same x: no twin, since another line is turned.
    pub fn bridge_back(&mut self, r: u16, i: u16, j: u16) -> u16
        requires { Takes self.old 3 }
        ensures { BridgedBack self.old r i j self.new result }
    {
        let through = self.put(Fields::transitivity(r, j));
        let turned = self.put(Fields::symmetry(through));
        self.put(Fields::transitivity(turned, i))
    }

    // By line `l`, gone same keep: a line to `keep` for each node of class `gone`.
    pub fn absorb(&mut self, table: [u8; 64], keep: u8, gone: u8, l: u16)
        requires room { Takes self.old 64 }
        ensures { Absorbed self.old table keep gone l self.old.nodes self.new }
    {
        for x in 0..self.nodes {
            if table[x] == gone {
                let i = self.to[x];
                let longer = self.put(Fields::transitivity(i, l));
                self.to[x] = longer;
            }
        }
    }

    // Line `l` claims a same b: their classes become one, under the lower root.
    pub fn rewire(&mut self, table: [u8; 64], l: u16, a: u8, b: u8)
        requires room { Takes self.old 67 }
        requires a_bound { (a < 64) × (b < 64) }
        ensures { Rewired self.old table l a b self.new }
    {
        let x = usize::from(a);
        let y = usize::from(b);
        let ca = table[x];
        let cb = table[y];
        let i = self.to[x];
        let j = self.to[y];
        if ca <= cb {
            let back = self.bridge_back(l, i, j);
            self.absorb(table, ca, cb, back);
        } else {
            let forth = self.bridge(l, i, j);
            self.absorb(table, cb, ca, forth);
        }
    }
}
