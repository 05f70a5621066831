// A proof line of eight bytes: read, written, and held against the table of rules.
#![tactic(auto)]

ghost use Rattle.std.specs.Prelude.{◌≡◌, ◌+◌, ◌*◌, ◌≤◌, ◌<◌, length};
ghost use Rattle.graph.specs.Limits.{line_limit};
ghost use Rattle.graph.specs.Lines.{uses_of, used_or_zero, tidy as tidyLine};
ghost use Rattle.proof_lines.specs.Codec.{two, line, line_at, Put};
ghost use Rattle.proof_lines.specs.Reading.{line_of, line_seen, fields_of, decoded, number_of, uses_in, Ruled};

// The fields of a line as they stand.
#[derive(Clone, Copy, PartialEq, Eq, Debug)]
pub struct Fields {
    pub rule: u8,
    pub place: u8,
    pub first: u16,
    pub second: u16,
}

// A whole line: its fields, and the number in its reserved bytes.
#[derive(Clone, Copy, PartialEq, Eq, Debug)]
pub struct Line {
    pub fields: Fields,
    pub reserved: u16,
}

// The rules, by their numbers.
#[derive(Clone, Copy, PartialEq, Eq, Debug)]
pub enum Rule {
    Equation = 1,
    Child = 2,
    Reflexivity = 3,
    Symmetry = 4,
    Transitivity = 5,
    Down = 6,
}

// A number that is no rule.
#[derive(Clone, Copy, PartialEq, Eq, Debug)]
pub struct NoRule;

impl TryFrom<u8> for Rule {
    type Error = NoRule;

    ghost try_from_gives = { Ruled };

    fn try_from(number: u8) -> Result<Rule, NoRule> {
        match number {
            1 => Ok(Rule::Equation),
            2 => Ok(Rule::Child),
            3 => Ok(Rule::Reflexivity),
            4 => Ok(Rule::Symmetry),
            5 => Ok(Rule::Transitivity),
            6 => Ok(Rule::Down),
            _ => Err(NoRule),
        }
    }
}

// Which fields a rule uses.
#[derive(Clone, Copy, PartialEq, Eq, Debug)]
pub struct Row {
    pub first: bool,
    pub second: bool,
    pub place: bool,
}

// A row for each rule, in their order: one fixed table, as document 01 wants it, and so looked up by the rule's number.
const ROWS: [Row; 6] = [
    Row {
        first: true,
        second: false,
        place: false,
    },
    Row {
        first: true,
        second: false,
        place: true,
    },
    Row {
        first: true,
        second: false,
        place: false,
    },
    Row {
        first: true,
        second: false,
        place: false,
    },
    Row {
        first: true,
        second: true,
        place: false,
    },
    Row {
        first: true,
        second: false,
        place: true,
    },
];

// The fields of a line of each rule; those that it doesn't use are zero.
impl Fields {
    fn of(rule: Rule, place: u8, first: u16, second: u16) -> Fields
        ensures { line_of result ≡ line (number_of rule) place first second }
    {
        Fields {
            rule: rule as u8,
            place,
            first,
            second,
        }
    }

    pub fn equation(name: u16) -> Fields
        ensures { line_of result ≡ line 1 0 name 0 }
    {
        Fields::of(Rule::Equation, 0, name, 0)
    }

    pub fn child(node: u16, place: u8) -> Fields
        ensures { line_of result ≡ line 2 place node 0 }
    {
        Fields::of(Rule::Child, place, node, 0)
    }

    pub fn reflexivity(node: u16) -> Fields
        ensures { line_of result ≡ line 3 0 node 0 }
    {
        Fields::of(Rule::Reflexivity, 0, node, 0)
    }

    pub fn symmetry(cited: u16) -> Fields
        ensures { line_of result ≡ line 4 0 cited 0 }
    {
        Fields::of(Rule::Symmetry, 0, cited, 0)
    }

    pub fn transitivity(first: u16, second: u16) -> Fields
        ensures { line_of result ≡ line 5 0 first second }
    {
        Fields::of(Rule::Transitivity, 0, first, second)
    }

    pub fn down(cited: u16, place: u8) -> Fields
        ensures { line_of result ≡ line 6 place cited 0 }
    {
        Fields::of(Rule::Down, place, cited, 0)
    }
}

// The 16-bit number at a byte, high byte first.
pub fn pair(s: &[u8], at: usize) -> u16
    requires { at + 2 ≤ length s.now }
    ensures { result ≡ two s.now at }
{
    u16::from_be_bytes([s[at], s[at + 1]])
}

// The fields of line `k`.
pub fn fields_at(s: &[u8], k: usize) -> Fields
    requires { 8 * k + 8 ≤ length s.now }
    ensures { result ≡ fields_of (line_at s.now k) }
{
    let o = 8 * k;
    Fields {
        rule: s[o],
        place: s[o + 1],
        first: pair(s, o + 2),
        second: pair(s, o + 4),
    }
}

// Line `k`, whatever its reserved bytes, if it is whole.
pub fn decode(s: &[u8], k: usize) -> Option<Line>
    ensures { result ≡ decoded s.now k }
{
    if k >= s.len() / 8 {
        return None;
    }
    Some(Line {
        fields: fields_at(s, k),
        reserved: pair(s, 8 * k + 6),
    })
}

// Writes line `n`, and no byte beside it.
pub fn put_line(buf: &mut [u8], n: usize, l: Fields)
    requires { (n < line_limit) × (8 * n + 8 ≤ length buf.old) }
    ensures { Put buf.old n (line_of l) buf.new }
{
    let o = 8 * n;
    let first = l.first.to_be_bytes();
    let second = l.second.to_be_bytes();
    // Byte by byte: a refusal at 8 nodes took 1.23 times Rust's time, by one `copy_from_slice` 1.44, by one for each two bytes 1.32; the goal is 1.3.
    buf[o] = l.rule;
    buf[o + 1] = l.place;
    buf[o + 2] = first[0];
    buf[o + 3] = first[1];
    buf[o + 4] = second[0];
    buf[o + 5] = second[1];
    buf[o + 6] = 0;
    buf[o + 7] = 0;
}

// The table's row for a rule; a number that is no rule uses no field.
#[tactic(auto, using(crate::proofs::RowLaws::row_at, crate::proofs::RowLaws::no_row))]
fn row_of(rule: u8) -> Row
    ensures { uses_in result ≡ uses_of rule }
{
    match rule {
        1..=6 => ROWS[usize::from(rule) - 1],
        _ => Row {
            first: false,
            second: false,
            place: false,
        },
    }
}

// A field is used, or zero.
fn used_or_zero(used: bool, x: u16) -> bool
    ensures { result ≡ used_or_zero used x }
{
    used || x == 0
}

// The fields that the line's rule doesn't use are zero, by the table, and so are its reserved bytes.
#[tactic(auto, using(crate::proofs::RowLaws::by_row))]
pub fn tidy(l: &Line) -> bool
    ensures { result ≡ tidyLine (line_seen l.now) }
{
    let row = row_of(l.fields.rule);
    used_or_zero(row.first, l.fields.first)
        & used_or_zero(row.second, l.fields.second)
        & used_or_zero(row.place, u16::from(l.fields.place))
        & (l.reserved == 0)
}
