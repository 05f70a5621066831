// The line reader, by its struct's step and by the plain one.
use proof_lines::{Fields, Line};
use proof_reader::LineReader;
use std::io;

// The fields of a line's bytes.
fn fields(bytes: &[u8]) -> Option<Line> {
    let [rule, place, a, b, c, d, e, f] = bytes else {
        return None;
    };
    let fields = Fields {
        rule: *rule,
        place: *place,
        first: u16::from_be_bytes([*a, *b]),
        second: u16::from_be_bytes([*c, *d]),
    };
    let reserved = u16::from_be_bytes([*e, *f]);
    Some(Line { fields, reserved })
}

// Line k and the next number; or there is no such line, and the next is k.
fn line(s: &[u8], k: usize) -> (Option<Line>, usize) {
    match s.chunks_exact(8).nth(k).and_then(fields) {
        Some(line) => (Some(line), k.saturating_add(1)),
        None => (None, k),
    }
}

pub fn stands(s: &[u8], k: usize) -> bool {
    let owed = line(s, k);
    let mut reader = LineReader { lines: s, at: k };
    let stepped = reader.step();
    (stepped, reader.at) == owed && proof_reader::read_line(s, k) == owed
}

/// Every line, and three steps at the end.
pub fn all_stand(s: &[u8]) -> bool {
    let n = s.len() / 8;
    proof_reader::count_lines(s) == n && (0..n + 3).all(|k| stands(s, k))
}

fn step(rt: &impl Print, s: &[u8], k: usize) -> io::Result<()> {
    let count = proof_reader::count_lines(s);
    print!(rt; "{count} lines in {} bytes, line {k}: ", s.len())?;
    if !stands(s, k) {
        return println!(rt; "otherwise");
    }
    match proof_reader::read_line(s, k) {
        (Some(l), next) => println!(rt;
            "rule {}, place {}, first {}, second {}, reserved {}; then line {next}",
            l.fields.rule, l.fields.place, l.fields.first, l.fields.second, l.reserved
        ),
        (None, next) => println!(rt; "the end; still line {next}"),
    }
}

pub fn all(rt: &impl Print) -> io::Result<()> {
    let s = [1, 2, 3, 4, 5, 6, 7, 8, 255, 0, 255, 255, 0, 255, 255, 255];
    step(rt, &s[..0], 0)?;
    step(rt, &s[..7], 0)?;
    step(rt, &s[..8], 0)?;
    step(rt, &s[..8], 1)?;
    step(rt, &s[..9], 1)?;
    step(rt, &s[..15], 1)?;
    step(rt, &s, 1)?;
    step(rt, &s, 2)?;
    step(rt, &s, 5)?;
    step(rt, &s, usize::MAX)
}
