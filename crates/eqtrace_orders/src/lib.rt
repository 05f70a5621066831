// An order's bytes to an order.
#![tactic(auto)]

ghost use Rattle.std.specs.Prelude.{◌≡◌, [], ◌≤◌, length};
ghost use Rattle.eqtrace_orders.specs.Grammar.{digits_from, number_in, by_letter};
ghost use Rattle.eqtrace_orders.specs.Parse.{handed_on, words_found, order_found, Parses};

use bounded_list::BoundedList;

pub type Numbers = BoundedList<u16, 6>;

// An order. Five children are enough to be refused, so the first five are handed on.
#[derive(Clone, Copy)]
pub enum Order {
    Variable,
    Functor { symbol: u16, children: Numbers },
    Equate { name: u16, left: u16, right: u16 },
    Withdraw { name: u16 },
    Query { left: u16, right: u16 },
}

// The digits' value, at most 65,535. No `str::parse`: it wants UTF-8 first, and takes a plus.
fn digits(word: &[u8]) -> Option<u16>
    ensures { result ≡ handed_on (digits_from 0 word.now) }
{
    let mut v: u16 = 0;
    for b in word {
        if !b.is_ascii_digit() {
            return None;
        }
        let next = u32::from(v) * 10 + u32::from(*b - b'0');
        v = u16::try_from(next).ok()?;
    }
    Some(v)
}

// A word as a number: decimal, without leading zeros, at most 65,535.
fn number(word: &[u8]) -> Option<u16>
    ensures { result ≡ handed_on (number_in word.now) }
{
    match word {
        [] | [b'0', _, ..] => None,
        _ => digits(word),
    }
}

// The words, each a number; the first six are kept.
fn collect(words: &[u8]) -> Option<Numbers>
    ensures { result ≡ words_found words.now }
{
    let mut numbers = Numbers::new(0);
    for word in words.split(|b| *b == b' ') {
        numbers.push_if_room(number(word)?);
    }
    Some(numbers)
}

// `V`; `F`: a symbol and any count of children; `E`: a name, left and right; `W`: a name; `Q`: two nodes.
fn by_letter(letter: u8, numbers: &[u16]) -> Option<Order>
    requires { length numbers.now ≤ 6 }
    ensures { result ≡ order_found (by_letter letter numbers.now) }
{
    match (letter, numbers) {
        (b'V', []) => Some(Order::Variable),
        (b'F', [symbol, children @ ..]) => Some(Order::Functor {
            symbol: *symbol,
            children: Numbers::from_slice(0, children)?,
        }),
        (b'E', [name, left, right]) => Some(Order::Equate {
            name: *name,
            left: *left,
            right: *right,
        }),
        (b'W', [name]) => Some(Order::Withdraw { name: *name }),
        (b'Q', [left, right]) => Some(Order::Query {
            left: *left,
            right: *right,
        }),
        _ => None,
    }
}

// A letter, and numbers after it where a space follows.
pub fn parse(line: &[u8]) -> Option<Order>
    ensures { Parses line.now result }
{
    match line {
        [letter] => by_letter(*letter, &[]),
        [letter, b' ', words @ ..] => by_letter(*letter, collect(words)?.as_slice()),
        _ => None,
    }
}
