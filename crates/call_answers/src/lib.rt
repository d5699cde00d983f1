// Why calls are refused. A call answers `Result<T, Refusal>`: a value, or one refusal by its name.
#![tactic(auto)]

ghost use Rattle.std.specs.Prelude.{◌≡◌};
ghost use Rattle.calls.specs.Refusals.{refusal_number};
ghost use Rattle.call_answers.specs.AnswerMeaning.{refusal_of};

// Why a call is refused, in the order of the numbers 1 to 16.
#[derive(Clone, Copy, PartialEq, Eq)]
pub enum Refusal {
    Length,
    Head,
    Code,
    Contents,
    Body,
    Weight,
    Unknown,
    Full,
    Rule,
    Step,
    Sheet,
    Output,
    Line,
    List,
    Text,
    Size,
}

// The number of a refusal.
pub fn number(r: Refusal) -> u8
    ensures { result ≡ refusal_number (refusal_of r) }
{
    match r {
        Refusal::Length => 1,
        Refusal::Head => 2,
        Refusal::Code => 3,
        Refusal::Contents => 4,
        Refusal::Body => 5,
        Refusal::Weight => 6,
        Refusal::Unknown => 7,
        Refusal::Full => 8,
        Refusal::Rule => 9,
        Refusal::Step => 10,
        Refusal::Sheet => 11,
        Refusal::Output => 12,
        Refusal::Line => 13,
        Refusal::List => 14,
        Refusal::Text => 15,
        Refusal::Size => 16,
    }
}

impl From<Refusal> for u8 {
    ghost from_gives = { λ r n. n ≡ refusal_number (refusal_of r) };

    fn from(r: Refusal) -> u8 {
        number(r)
    }
}
