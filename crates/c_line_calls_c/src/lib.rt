// The archive of the calls on the lines of an order (include/nibdrumlin_sheets.h): each function for C hands on to the one of
// `c_line_calls` that has its name.
#![tactic(auto)]

ghost use Rattle.std.specs.Prelude.{◌≡◌};
ghost use Rattle.calls.specs.Calls.{key_with, withdraw_with, complete_of};
ghost use Rattle.c_calls.specs.Packed.{packed_done, packed_bool};
ghost use Rattle.order_lines.specs.LineMeaning.{lines_of, order};

use order_lines::Line;

// A keying: where it is accepted, the slot at the count gets the line, the count rises by one, and the mark is counted in the index.
#[unsafe(no_mangle)]
pub extern "C" fn nd_key(
    sheet: &mut [u16],
    lines: &mut [Line],
    count: &mut u16,
    index: &mut [u16],
    option: u64,
    negative: bool,
) -> u64
    ensures value { result
        ≡ packed_done
        (key_with (order sheet.old lines.old count.old)
        index.old option negative).answer }
    ensures sheet_after { sheet.new
        ≡ (key_with (order sheet.old lines.old count.old)
        index.old option negative).lent.own.sheet }
    ensures lines_after { lines_of lines.new
        ≡ (key_with (order sheet.old lines.old count.old)
        index.old option negative).lent.own.lines }
    ensures count_after { count.new
        ≡ (key_with (order sheet.old lines.old count.old)
        index.old option negative).lent.own.count }
    ensures index_after { index.new
        ≡ (key_with (order sheet.old lines.old count.old)
        index.old option negative).lent.index }
{
    c_line_calls::nd_key(sheet, lines, count, index, option, negative)
}

// A withdrawal of line k: where it is accepted, the later lines move up by one, the count falls by one, and the index is counted anew.
#[unsafe(no_mangle)]
pub extern "C" fn nd_withdraw(
    sheet: &mut [u16],
    book: &[u8],
    lines: &mut [Line],
    count: &mut u16,
    index: &mut [u16],
    k: u64,
) -> u64
    ensures value { result
        ≡ packed_done
        (withdraw_with (order sheet.old lines.old count.old)
        book.now index.old k).answer }
    ensures sheet_after { sheet.new
        ≡ (withdraw_with (order sheet.old lines.old count.old)
        book.now index.old k).lent.own.sheet }
    ensures lines_after { lines_of lines.new
        ≡ (withdraw_with (order sheet.old lines.old count.old)
        book.now index.old k).lent.own.lines }
    ensures count_after { count.new
        ≡ (withdraw_with (order sheet.old lines.old count.old)
        book.now index.old k).lent.own.count }
    ensures index_after { index.new
        ≡ (withdraw_with (order sheet.old lines.old count.old)
        book.now index.old k).lent.index }
{
    c_line_calls::nd_withdraw(sheet, book, lines, count, index, k)
}

// The "complete" question; the value is 1 where the sheet is complete. Nothing is written.
#[unsafe(no_mangle)]
pub extern "C" fn nd_complete(sheet: &[u16], book: &[u8], lines: &[Line], count: u16) -> u64
    ensures { result ≡ packed_bool (complete_of (order sheet.now lines.now count) book.now) }
{
    c_line_calls::nd_complete(sheet, book, lines, count)
}
