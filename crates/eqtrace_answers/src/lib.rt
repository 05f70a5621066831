// A reply's bytes, put into a lent buffer.
#![tactic(auto)]

ghost use Rattle.std.specs.Prelude.{◌≡◌, [], ◌∷◌, ◌+◌, ◌*◌, ◌%◌, ◌≤◌, ◌<◌, length, drop};
ghost use Rattle.eqtrace_answers.specs.Text.{spaced};
ghost use Rattle.eqtrace_answers.specs.Puts.{DigitsShow, letters, numbers, meant, Says, Small, Adds};

use refusals::Refusal;

// What the program says of one order; the cited names stand beside it. No Result: with an order that can't be read comes its number, which
// `Refusal` has no place for.
#[derive(Clone, Copy, PartialEq, Eq, Debug)]
pub enum Answer {
    Node(u8),
    Held(u16),
    Gone(u16),
    Same,
    Below,
    Above,
    Apart,
    Refused(Refusal),
    Unreadable(u32),
}

impl Answer {
    // The word that its line begins with.
    fn word(self) -> &'static [u8]
        ensures { result.now ≡ letters self }
    {
        match self {
            Answer::Node(_) => b"node",
            Answer::Held(_) => b"held",
            Answer::Gone(_) => b"gone",
            Answer::Same => b"same",
            Answer::Below => b"below",
            Answer::Above => b"above",
            Answer::Apart => b"apart",
            Answer::Refused(_) | Answer::Unreadable(_) => b"refused",
        }
    }
}

// The digits of a number: the last bytes, from `from` on. By hand, so that an answer's bytes stand on no library but `std`, whose own text of a
// number wants a heap or a `Display`, as at `say`.
#[derive(Clone, Copy)]
pub struct Digits {
    pub bytes: [u8; 5],
    pub from: usize,
}

// The last digit of `n`.
fn digit(n: u32) -> u8
    ensures { result ≡ 48 + n % 10 }
{
    b'0' + (n % 10) as u8
}

impl Digits {
    fn of(n: u32) -> Digits
        requires { n < 100000 }
        ensures { DigitsShow n result }
    {
        let mut bytes = [0; 5];
        let mut k = 4;
        let mut x = n;
        // no `for`: how many digits there are depends on the number
        while 10 <= x {
            bytes[k] = digit(x);
            x /= 10;
            k -= 1;
        }
        bytes[k] = digit(x);
        Digits { bytes, from: k }
    }

    fn as_slice(&self) -> &[u8]
        requires { self.now.from ≤ length self.now.bytes }
        ensures { result.now ≡ drop self.now.from self.now.bytes }
    {
        &self.bytes[self.from..]
    }
}

// A reply's text so far: a lent buffer, and the place in it where the next bytes go. The buffer is the caller's memory: there is no heap.
#[derive(Drop)]
struct Draft<'a> {
    out: &'a mut [u8],
    at: usize,
}

impl<'a> Draft<'a> {
    fn put_bytes(&mut self, bytes: &[u8])
        requires { self.old.at + length bytes.now ≤ length self.old.out.now }
        ensures { Adds self.old bytes.now self.new }
    {
        let end = self.at + bytes.len();
        self.out[self.at..end].copy_from_slice(bytes);
        self.at = end;
    }

    // A number after a space.
    fn put_number(&mut self, n: u32)
        requires { (n < 100000) × (self.old.at + 6 ≤ length self.old.out.now) }
        ensures { Adds self.old (spaced (n ∷ [])) self.new }
    {
        self.put_bytes(b" ");
        let digits = Digits::of(n);
        self.put_bytes(digits.as_slice());
    }

    // The names, each after a space.
    fn put_names(&mut self, names: &[u16])
        requires { self.old.at + 6 * length names.now ≤ length self.old.out.now }
        ensures { Adds self.old (spaced names.now) self.new }
    {
        for name in names {
            self.put_number(u32::from(*name));
        }
    }

    // An answer's own numbers, and the names where it cites some.
    fn put_numbers(&mut self, answer: Answer, names: &[u16])
        requires { Small answer × (self.old.at + 12 + 6 * length names.now ≤ length self.old.out.now) }
        ensures { Adds self.old (spaced (numbers answer names.now)) self.new }
    {
        match answer {
            Answer::Node(i) => self.put_number(u32::from(i)),
            Answer::Held(x) | Answer::Gone(x) => self.put_number(u32::from(x)),
            Answer::Same | Answer::Below | Answer::Above => self.put_names(names),
            Answer::Apart => {}
            Answer::Refused(r) => {
                self.put_number(u32::from(r.number()));
                self.put_names(names);
            }
            Answer::Unreadable(i) => {
                self.put_number(u32::from(Refusal::UnreadableOrder.number()));
                self.put_number(i);
            }
        }
    }
}

// A reply's line, with the names where it cites some; its length. By hand: with a `Display` and `write!` into the buffer the proof didn't close,
// since `fmt` promises its text on Ok alone and no contract rules out its Err, while this can't fail.
pub fn say(out: &mut [u8], answer: Answer, names: &[u16]) -> usize
    requires { Small answer × (20 + 6 * length names.now ≤ length out.old) }
    ensures { Says (meant answer names.now) out.old out.new result }
{
    let mut draft = Draft { out, at: 0 };
    draft.put_bytes(answer.word());
    draft.put_numbers(answer, names);
    draft.put_bytes(b"\n");
    draft.at
}
