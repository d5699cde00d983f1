// The options that the bodies of a book and the lines of an order name, noted in a table.
#![tactic(auto)]

ghost use Rattle.std.specs.Prelude.{◌≡◌, true, map, ◌*◌, ◌≤◌, eqb, leb, ltb, length, take};
ghost use Rattle.model.specs.Base.{all, any};
ghost use Rattle.model.specs.Limits.{most_options, most_nodes};
ghost use Rattle.model.specs.Literal.{option};
ghost use Rattle.model.specs.Code.{node_of};
ghost use Rattle.model.specs.Book.{words, numbers_of};
ghost use Rattle.calls.specs.Index.{names};
ghost use Rattle.calls.specs.Lines.{most_lines};
ghost use Rattle.theory_formats.specs.Loading.{Accepted};
ghost use Rattle.order_lines.specs.LineMeaning.{lines_of};
ghost use Rattle.order_named.specs.Noting.{table_length, Adds, place_named};

use common_limits::{CODE_LENGTH, HEAD_LENGTH, MOST_OPTIONS};
use order_lines::{Line, SLOTS};
use report_marks::NAMED_LENGTH;

// Where a node is noted: a mark at its option, any other at the place that nobody reads. So the machine need not guess which of the two a
// node is.
fn place_named(x: usize) -> usize
    ensures { result ≡ place_named x }
{
    if common_nodes::is_literal(x) {
        common_nodes::value_of(x)
    } else {
        MOST_OPTIONS
    }
}

// The options of so many nodes, each of which has its place in the table.
fn note_nodes(s: &[u8], count: usize, named: &mut [u8; NAMED_LENGTH])
    requires count_le_most_nodes { (count ≤ most_nodes) × (2 * count ≤ length s.now) × (length named.old ≡ table_length) }
    requires s_value { all (λ x. leb (place_named x) most_options) (words count s.now) ≡ true }
    ensures { Adds (λ v. any (names v) (map node_of (words count s.now))) named.old named.new }
{
    for i in 0..count {
        let place = place_named(common_nodes::word_at(s, 2 * i));
        named[place] = 1;
    }
}

// The options that the bodies of an accepted book name.
pub fn note_bodies(book: &[u8], named: &mut [u8; NAMED_LENGTH])
    requires { Accepted book.now × (length named.old ≡ table_length) }
    ensures { Adds (λ v. any (names v) (map node_of (numbers_of book.now))) named.old named.new }
{
    let codes = CODE_LENGTH * common_nodes::word_at(book, 0);
    let bodies = HEAD_LENGTH + codes + 4 * common_nodes::word_at(book, 2);
    note_nodes(&book[bodies..], common_nodes::word_at(book, 4), named);
}

// The options that the counted lines name.
pub fn note_lines(lines: [Line; SLOTS], count: u16, named: &mut [u8; NAMED_LENGTH])
    requires count_le_most_lines { (count ≤ most_lines) × (length named.old ≡ table_length) }
    requires lines_value { all (λ l. ltb (option l) most_options) (take count (lines_of lines)) ≡ true }
    ensures { Adds (λ v. any (λ l. eqb v (option l)) (take count (lines_of lines))) named.old named.new }
{
    for line in &lines[..usize::from(count)] {
        named[usize::from(line.option)] = 1;
    }
}
