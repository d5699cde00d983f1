// The two calls that the order desk, a C program, makes on plain bytes. Each answers one number: its low 8 bits are the refusal (0:
// accepted), the rest is the value (the option that a lookup found, else 0).
#![tactic(auto)]

ghost use Rattle.std.specs.Prelude.{◌≡◌};
ghost use Rattle.calls.specs.Refusals.{refusal_number};
ghost use Rattle.calls.specs.Calls.{check_of, lookup_of};
ghost use Rattle.call_answers.specs.AnswerMeaning.{refusal_of, answer_of, done_of, found_of};
ghost use Rattle.c_calls.specs.Packed.{packed_done, packed_value, packed_bool, Fits};

use call_answers::Refusal;

// A value begins above the refusal's 8 bits.
pub const VALUE: u64 = 256;

// A refusal as one number.
pub fn refused(r: Refusal) -> u64
    ensures { result ≡ refusal_number (refusal_of r) }
{
    u64::from(call_answers::number(r))
}

// The answer of a call that has no value to give, as one number.
pub fn done(answer: Result<(), Refusal>) -> u64
    ensures { result ≡ packed_done (done_of answer) }
{
    match answer {
        Ok(()) => 0,
        Err(r) => refused(r),
    }
}

// The answer of a call that gives a number, as one number.
pub fn found(answer: Result<usize, Refusal>) -> u64
    requires { Fits (found_of answer) }
    ensures { result ≡ packed_value (found_of answer) }
{
    match answer {
        Ok(v) => VALUE * (v as u64),
        Err(r) => refused(r),
    }
}

// The answer of a call that says yes or no, as one number.
pub fn told(answer: Result<bool, Refusal>) -> u64
    ensures { result ≡ packed_bool (answer_of answer) }
{
    match answer {
        Ok(true) => VALUE,
        Ok(false) => 0,
        Err(r) => refused(r),
    }
}

// The book check.
#[unsafe(no_mangle)]
pub extern "C" fn nd_book_check(book: &[u8]) -> u64
    ensures { result ≡ packed_done (check_of book.now) }
{
    done(call_books::check(book))
}

// The code lookup.
#[unsafe(no_mangle)]
pub extern "C" fn nd_code_lookup(book: &[u8], code: &[u8]) -> u64
    ensures { result ≡ packed_value (lookup_of book.now code.now) }
{
    found(call_books::lookup(book, code))
}
