// The import of a clause file: 15, then 16, then 12; else the book that it gives.
#![tactic(auto)]

ghost use Rattle.std.specs.Prelude.{◌≡◌, true, ◌+◌, ◌<◌};
ghost use Rattle.texts.specs.Decimals.{is_decimal, number_in};
ghost use Rattle.calls.specs.Calls.{import_of};
ghost use Rattle.call_answers.specs.AnswerMeaning.{found_of, after_call};
ghost use Rattle.call_import.specs.Sizes.{over_limits, Small};

use call_answers::Refusal;
use common_limits::{CODE_LENGTH, HEAD_LENGTH, MOST_NODES, MOST_OPTIONS, MOST_RULES};
use common_weight::MOST_WEIGHT;
use import_clauses::Shape;
use import_judge::Judged;

// Whether so many options, told by their digits, clauses and marks are too many for a book. The nodes are known to be few before a
// weight is summed: the root and the nodes, then each mark once more.
fn is_too_large(options: &[u8], clauses: usize, marks: usize) -> bool
    requires { (is_decimal options.now ≡ true) × (clauses + marks < 18446744073709551616) }
    ensures { result ≡ over_limits (number_in options.now) clauses marks }
{
    if 3 < options.len() {
        return true;
    }
    if MOST_OPTIONS < import_numbers::small_number(options) {
        return true;
    }
    if MOST_RULES < clauses {
        return true;
    }
    let nodes = clauses + marks;
    if MOST_NODES < nodes {
        return true;
    }
    let weight = common_weight::add_weights(1, nodes as u16);
    MOST_WEIGHT < common_weight::add_weights(weight, marks as u16)
}

// The book of a file that is not too large, where the output has room for it.
fn put_file(text: &[u8], options: usize, judged: Judged, out: &mut [u8]) -> Result<usize, Refusal>
    requires { Small text.now options judged }
    ensures { after_call (found_of result) out.new ≡ import_of text.now out.old }
{
    let rules = judged.clauses;
    let nodes = rules + judged.marks;
    let long = HEAD_LENGTH + CODE_LENGTH * options + 4 * rules + 2 * nodes;
    if out.len() < long {
        return Err(Refusal::Output);
    }
    let shape = Shape {
        body: judged.body,
        options,
        rules,
        nodes,
    };
    import_clauses::put_book(text, shape, out);
    Ok(long)
}

// The import: the length of the book, which stands at the start of the output; the output's rest stays.
pub fn import(text: &[u8], out: &mut [u8]) -> Result<usize, Refusal>
    ensures { after_call (found_of result) out.new ≡ import_of text.now out.old }
{
    let Some(judged) = import_judge::judge(text) else {
        return Err(Refusal::Text);
    };
    let digits = &text[judged.options..judged.space];
    if is_too_large(digits, judged.clauses, judged.marks) {
        return Err(Refusal::Size);
    }
    let options = import_numbers::small_number(digits);
    put_file(text, options, judged, out)
}
