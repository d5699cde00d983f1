// The core of a load: the sheet of an accepted book.
#![tactic(auto)]

ghost use Rattle.std.specs.Prelude.{◌≡◌, length};
ghost use Rattle.model.specs.Limits.{sheet_length};
ghost use Rattle.model.specs.Sheet.{sheet_of};
ghost use Rattle.model.specs.Book.{options_of, book_nodes};
ghost use Rattle.theory_formats.specs.Loading.{Accepted};

use common_limits::{CODE_LENGTH, HEAD_LENGTH, ROOT_KIND};

// The options, the count of nodes and the root, with as many children as there are rules, then the numbers of the bodies and zeros.
pub fn fill_sheet(book: &[u8], target: &mut [u16])
    requires { Accepted book.now × (length target.old ≡ sheet_length) }
    ensures { target.new ≡ sheet_of (options_of book.now) (book_nodes book.now) }
{
    let n = common_nodes::word_at(book, 0);
    let m = common_nodes::word_at(book, 2);
    let t = common_nodes::word_at(book, 4);
    let bodies = HEAD_LENGTH + CODE_LENGTH * n + 4 * m;
    book_bytes::put_three(target, n, t + 1, ROOT_KIND + m);
    book_bytes::fill_numbers(&book[bodies..], t, &mut target[3..]);
}
