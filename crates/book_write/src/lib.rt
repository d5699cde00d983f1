// The core of the writer: the book of a sheet.
#![tactic(auto)]

ghost use Rattle.std.specs.Prelude.{◌≡◌, ◌+◌, ◌-◌, ◌*◌, ◌≤◌, length, get_or};
ghost use Rattle.model.specs.Base.{placed};
ghost use Rattle.model.specs.Code.{children};
ghost use Rattle.model.specs.Limits.{most_options, most_nodes};
ghost use Rattle.model.specs.Sheet.{options_in, used_in};
ghost use Rattle.model.specs.Book.{options_of, written};
ghost use Rattle.theory_formats.specs.Loading.{Accepted};
ghost use Rattle.theory_forms.specs.Sheets.{Formed};

use common_limits::{CODE_LENGTH, HEAD_LENGTH};

// The options of a sheet.
pub fn options_in(sheet: &[u16]) -> usize
    requires { Formed sheet.now }
    ensures { (result ≡ options_in sheet.now) × (result ≤ most_options) }
{
    usize::from(sheet[0])
}

// Its nodes below the root.
fn nodes_below(sheet: &[u16]) -> usize
    requires { Formed sheet.now }
    ensures { (result ≡ used_in sheet.now - 1) × (result ≤ most_nodes) }
{
    usize::from(sheet[1]) - 1
}

// Its rules: the children of its root.
fn rules_in(sheet: &[u16]) -> usize
    requires { Formed sheet.now }
    ensures { (result ≡ children (get_or sheet.now 2 0)) × (result ≤ most_nodes) }
{
    common_nodes::children_of(usize::from(sheet[2]))
}

// The length of what is written of a sheet.
pub fn written_length(sheet: &[u16]) -> usize
    requires { Formed sheet.now }
    ensures { let l = sheet.now in result ≡ 8 + (13 * options_in l + (4 * children (get_or l 2 0) + 2 * (used_in l - 1))) }
{
    HEAD_LENGTH + CODE_LENGTH * options_in(sheet) + 4 * rules_in(sheet) + 2 * nodes_below(sheet)
}

// The book of a sheet, with the codes of another book of as many options.
pub fn put_book(sheet: &[u16], book: &[u8], out: &mut [u8])
    requires formed { Formed sheet.now }
    requires accepted { Accepted book.now × (options_of book.now ≡ options_in sheet.now) }
    requires book_in_bounds { length (written sheet.now book.now) ≤ length out.old }
    ensures { out.new ≡ placed (written sheet.now book.now) out.old }
{
    let n = options_in(sheet);
    let t = nodes_below(sheet);
    let m = rules_in(sheet);
    let contents = HEAD_LENGTH + CODE_LENGTH * n;
    let end = 3 + t;
    book_bytes::put_head(out, n, m, t);
    book_bytes::put_parts(
        &book[HEAD_LENGTH..contents],
        &sheet[3..end],
        m,
        &mut out[HEAD_LENGTH..],
    );
}
