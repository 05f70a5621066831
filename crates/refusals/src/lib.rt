// Why a call refuses.
#![tactic(auto)]

ghost use Rattle.std.specs.Prelude.{◌≡◌};
ghost use Rattle.refusals.specs.Numbers.{refusal_number};

// The refusals of all calls, in the order of their numbers. Where a refusal comes with a proof or names a line, it has how many lines the
// proof has, or which line it is.
#[derive(Clone, Copy, PartialEq, Eq, Debug)]
pub enum Refusal {
    NotAWorkspace,
    NodesFull,
    TooManyChildren,
    UnknownNode,
    ShortBuffer,
    NameHeld,
    EquationsFull,
    Clash { lines: u16 },
    Cycle { lines: u16 },
    NameNotHeld,
    BadLength,
    BrokenLine { line: u16 },
    NotShown,
    NotAProofFile,
    BadFileLength,
    UnreadableOrder,
    ShortOutput,
    OtherArity,
}

impl Refusal {
    // Its number, as users read it. No `From`: `u8::from` of a refusal wouldn't say what the number is.
    pub fn number(self) -> u8
        ensures { result ≡ refusal_number self }
    {
        match self {
            Refusal::NotAWorkspace => 1,
            Refusal::NodesFull => 2,
            Refusal::TooManyChildren => 3,
            Refusal::UnknownNode => 4,
            Refusal::ShortBuffer => 5,
            Refusal::NameHeld => 6,
            Refusal::EquationsFull => 7,
            Refusal::Clash { .. } => 8,
            Refusal::Cycle { .. } => 9,
            Refusal::NameNotHeld => 10,
            Refusal::BadLength => 11,
            Refusal::BrokenLine { .. } => 12,
            Refusal::NotShown => 13,
            Refusal::NotAProofFile => 14,
            Refusal::BadFileLength => 15,
            Refusal::UnreadableOrder => 16,
            Refusal::ShortOutput => 17,
            Refusal::OtherArity => 18,
        }
    }
}
