// The words after a p line: what the one at a place is, and where it ends.
#![tactic(auto)]

ghost use Rattle.std.specs.Prelude.{◌≡◌, true, ◌+◌, ◌≤◌, ◌<◌, length, drop};
ghost use Rattle.model.specs.Base.{all};
ghost use Rattle.texts.specs.Decimals.{is_digit, is_decimal, number_in};
ghost use Rattle.theory_texts.specs.Figures.{run};
ghost use Rattle.theory_texts.specs.WordKinds.{kind_of_digits, kind_here, kind_at, word_length};
ghost use Rattle.import_words.specs.Kinds.{kind_number, IsWord};

// What a word is: the 0 that closes a clause, or a mark.
#[derive(Clone, Copy)]
pub enum Kind {
    Closing,
    Mark,
}

// The place after a word, and what the word is, if it is either.
#[derive(Clone, Copy)]
pub struct Word {
    pub kind: Option<Kind>,
    pub end: usize,
}

// What digits are, where "0" by itself is of a given kind.
fn kind_of(digits: &[u8], options: &[u8], zero: Option<Kind>) -> Option<Kind>
    requires { (all is_digit digits.now ≡ true) × (is_decimal options.now ≡ true) }
    ensures { kind_number result ≡ kind_of_digits (kind_number zero) (number_in options.now) digits.now }
{
    if !import_numbers::is_decimal(digits) {
        None
    } else if digits[0] == b'0' {
        zero
    } else if import_numbers::is_at_most(digits, options) {
        Some(Kind::Mark)
    } else {
        None
    }
}

// What the digits from a place on are, up to a blank, a line end or the end.
fn read_number(text: &[u8], from: usize, options: &[u8], zero: Option<Kind>) -> Word
    requires { (from ≤ length text.now) × (is_decimal options.now ≡ true) }
    ensures { let b = drop from text.now in
        IsWord result (kind_here (kind_number zero) (number_in options.now) b) (from + run b) (length text.now) }
{
    let end = import_bytes::past_digits(text, from);
    if !import_bytes::breaks_at(text, end) {
        return Word { kind: None, end };
    }
    let kind = kind_of(&text[from..end], options, zero);
    Word { kind, end }
}

// What the word at a place is: "-0" is none.
pub fn read_word(text: &[u8], at: usize, options: &[u8]) -> Word
    requires { (at < length text.now) × (is_decimal options.now ≡ true) }
    ensures { let b = drop at text.now in
        IsWord result (kind_at (number_in options.now) b) (at + word_length b) (length text.now) }
{
    if text[at] == b'-' {
        read_number(text, at + 1, options, None)
    } else {
        read_number(text, at, options, Some(Kind::Closing))
    }
}
