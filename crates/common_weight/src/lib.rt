// The weight of a sheet and of a book: their nodes, and the literals among these once more. A weight is summed here and nowhere else, in 16
// bits, and each sum says beside it that it is at most 8,192.
#![tactic(auto)]

ghost use Rattle.std.specs.Prelude.{◌≡◌, ◌+◌, ◌*◌, ◌≤◌, length};
ghost use Rattle.model.specs.Code.{weight};
ghost use Rattle.model.specs.Sheet.{used_in, nodes_in};
ghost use Rattle.model.specs.Book.{size_of, length_due, book_nodes};
ghost use Rattle.common_weight.specs.Sums.{most_sum};

use common_limits::{CODE_LENGTH, HEAD_LENGTH};

// The weight that a book or a sheet may have.
pub const MOST_WEIGHT: u16 = 4096;

// A literal is a node and a mark.
pub const LITERAL_WEIGHT: u16 = 2;

// The weight of the numbers that a sheet says are used. Nothing else need be known of the sheet.
pub fn weigh_sheet(s: &[u16]) -> u16
    requires { (2 * used_in s.now ≤ most_sum) × (2 + used_in s.now ≤ length s.now) }
    ensures { (result ≡ weight (nodes_in s.now)) × (result ≤ most_sum) }
{
    let used = s[1];
    let mut sum = used;
    for x in &s[2..2 + usize::from(used)] {
        if common_nodes::is_literal(usize::from(*x)) {
            sum += 1;
        }
    }
    sum
}

// The weight of the numbers that a book's head says are its bodies, and of the root that comes to them on a sheet. Nothing else need be
// known of the book.
pub fn weigh_book(book: &[u8]) -> u16
    requires { (1 + 2 * size_of book.now ≤ most_sum) × (length_due book.now ≤ length book.now) }
    ensures { (result ≡ weight (book_nodes book.now)) × (result ≤ most_sum) }
{
    let codes = CODE_LENGTH * common_nodes::word_at(book, 0);
    let bodies = HEAD_LENGTH + codes + 4 * common_nodes::word_at(book, 2);
    let size = common_nodes::number_at(book, 4);
    let mut sum = 1 + size;
    for i in 0..usize::from(size) {
        if common_nodes::is_literal(common_nodes::word_at(book, bodies + 2 * i)) {
            sum += 1;
        }
    }
    sum
}

// A weight with another beside it.
pub fn add_weights(weight: u16, more: u16) -> u16
    requires { weight + more ≤ most_sum }
    ensures { (result ≡ weight + more) × (result ≤ most_sum) }
{
    weight + more
}
