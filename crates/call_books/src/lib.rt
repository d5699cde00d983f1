// The book check and the code lookup.
#![tactic(auto)]

ghost use Rattle.std.specs.Prelude.{◌≡◌, ◌≤◌, length};
ghost use Rattle.model.specs.Limits.{head_length};
ghost use Rattle.model.specs.Book.{head_in_limits};
ghost use Rattle.calls.specs.Calls.{check_of, lookup_of};
ghost use Rattle.calls.specs.Chains.{part_refusal};
ghost use Rattle.call_laws.specs.Books.{GoodHead};
ghost use Rattle.call_answers.specs.AnswerMeaning.{done_of, due_of, found_of};

use call_answers::Refusal;
use common_limits::{CODE_LENGTH, HEAD_LENGTH, MOST_NODES, MOST_OPTIONS, MOST_RULES};
use common_weight::MOST_WEIGHT;

// The numbers of the head are within their limits, and the fourth is zero.
fn is_head(book: &[u8]) -> bool
    requires { head_length ≤ length book.now }
    ensures { result ≡ head_in_limits book.now }
{
    let options = common_nodes::word_at(book, 0);
    let rules = common_nodes::word_at(book, 2);
    let nodes = common_nodes::word_at(book, 4);
    let zero = common_nodes::word_at(book, 6);
    options <= MOST_OPTIONS && rules <= MOST_RULES && nodes <= MOST_NODES && zero == 0
}

// What a book with a good head and the length due is refused for: its codes, its contents, its bodies, its weight.
fn check_parts(book: &[u8], n: usize, m: usize, t: usize) -> Result<(), Refusal>
    requires { GoodHead book.now n m t }
    ensures { due_of result ≡ part_refusal book.now }
{
    let contents = HEAD_LENGTH + CODE_LENGTH * n;
    let bodies = contents + 4 * m;
    if !book_distinct_codes::are_codes(&book[HEAD_LENGTH..], n) {
        return Err(Refusal::Code);
    }
    if !book_body::are_in_line(&book[contents..], m, t) {
        return Err(Refusal::Contents);
    }
    if !book_body::are_bodies(&book[contents..], m, &book[bodies..], t, n) {
        return Err(Refusal::Body);
    }
    if MOST_WEIGHT < common_weight::weigh_book(book) {
        return Err(Refusal::Weight);
    }
    Ok(())
}

// The book check.
pub fn check(book: &[u8]) -> Result<(), Refusal>
    ensures { done_of result ≡ check_of book.now }
{
    if book.len() < HEAD_LENGTH {
        return Err(Refusal::Length);
    }
    if !is_head(book) {
        return Err(Refusal::Head);
    }
    let n = common_nodes::word_at(book, 0);
    let m = common_nodes::word_at(book, 2);
    let t = common_nodes::word_at(book, 4);
    if book.len() != HEAD_LENGTH + CODE_LENGTH * n + 4 * m + 2 * t {
        return Err(Refusal::Length);
    }
    check_parts(book, n, m, t)
}

// The code lookup: the option whose code has these characters.
pub fn lookup(book: &[u8], code: &[u8]) -> Result<usize, Refusal>
    ensures { found_of result ≡ lookup_of book.now code.now }
{
    check(book)?;
    let n = common_nodes::word_at(book, 0);
    let place = book_codes::find(&book[HEAD_LENGTH..], n, code);
    match place {
        Some(v) => Ok(v),
        None => Err(Refusal::Unknown),
    }
}
