// The calls on the lines of an order, for C (include/nibdrumlin_sheets.h). Each copies the lines out and hands the copy on; a keying and a
// withdrawal, where they are accepted, store in the lent lines and the lent count what is to stand there. Each answers one number: its low
// 8 bits are the refusal (0: accepted), the rest is the value.
#![tactic(auto)]

ghost use Rattle.std.specs.Prelude.{◌≡◌};
ghost use Rattle.calls.specs.Calls.{key_with, withdraw_with, complete_of};
ghost use Rattle.c_calls.specs.Packed.{packed_done, packed_bool};
ghost use Rattle.order_lines.specs.LineMeaning.{lines_of, order};

use order_lines::{Line, SLOTS};

// A keying, by a copy of the lines: its answer, and what it leaves of the sheet and the index.
fn key_copied(
    sheet: &mut [u16],
    lines: [Line; SLOTS],
    count: u16,
    index: &mut [u16],
    option: u64,
    negative: bool,
) -> u64
    ensures value { result
        ≡ packed_done (key_with (order sheet.old lines count) index.old option negative).answer }
    ensures sheet_after { sheet.new
        ≡ (key_with (order sheet.old lines count) index.old option negative).lent.own.sheet }
    ensures index_after { index.new
        ≡ (key_with (order sheet.old lines count) index.old option negative).lent.index }
{
    c_calls::done(call_keying::key_with(sheet, lines, count, index, option, negative))
}

// A withdrawal, by a copy of the lines: its answer, and what it leaves of the sheet and the index.
fn withdraw_copied(
    sheet: &mut [u16],
    book: &[u8],
    lines: [Line; SLOTS],
    count: u16,
    index: &mut [u16],
    k: u64,
) -> u64
    ensures value { result
        ≡ packed_done
        (withdraw_with (order sheet.old lines count) book.now index.old k).answer }
    ensures sheet_after { sheet.new
        ≡ (withdraw_with (order sheet.old lines count) book.now index.old k).lent.own.sheet }
    ensures index_after { index.new
        ≡ (withdraw_with (order sheet.old lines count) book.now index.old k).lent.index }
{
    c_calls::done(call_withdrawal::withdraw(sheet, book, lines, count, index, k))
}

// The "complete" question, by a copy of the lines.
fn complete_copied(sheet: &[u16], book: &[u8], lines: [Line; SLOTS], count: u16) -> u64
    ensures { result ≡ packed_bool (complete_of (order sheet.now lines count) book.now) }
{
    c_calls::told(call_complete::complete(sheet, book, lines, count))
}

// A keying: where it is accepted, the slot at the count gets the line, the count rises by one, and the mark is counted in the index.
#[unsafe(no_mangle)]
pub extern "C" fn nd_key(
    sheet: &mut [u16],
    lines: &mut [Line],
    count: &mut u16,
    index: &mut [u16],
    option: u64,
    negative: bool,
) -> u64
    ensures value { result
        ≡ packed_done
        (key_with (order sheet.old lines.old count.old)
        index.old option negative).answer }
    ensures sheet_after { sheet.new
        ≡ (key_with (order sheet.old lines.old count.old)
        index.old option negative).lent.own.sheet }
    ensures lines_after { lines_of lines.new
        ≡ (key_with (order sheet.old lines.old count.old)
        index.old option negative).lent.own.lines }
    ensures count_after { count.new
        ≡ (key_with (order sheet.old lines.old count.old)
        index.old option negative).lent.own.count }
    ensures index_after { index.new
        ≡ (key_with (order sheet.old lines.old count.old)
        index.old option negative).lent.index }
{
    let n = *count;
    let all = order_lines::copied(lines, n);
    let answer = key_copied(
        sheet,
        all,
        order_lines::judged(lines.len(), n),
        index,
        option,
        negative,
    );
    if answer == 0 {
        lines[n as usize] = Line {
            option: option as u16,
            negative,
        };
        *count = n + 1;
    }
    answer
}

// A withdrawal of line k: where it is accepted, the later lines move up by one, the count falls by one, and the index is counted anew.
#[unsafe(no_mangle)]
pub extern "C" fn nd_withdraw(
    sheet: &mut [u16],
    book: &[u8],
    lines: &mut [Line],
    count: &mut u16,
    index: &mut [u16],
    k: u64,
) -> u64
    ensures value { result
        ≡ packed_done
        (withdraw_with (order sheet.old lines.old count.old)
        book.now index.old k).answer }
    ensures sheet_after { sheet.new
        ≡ (withdraw_with (order sheet.old lines.old count.old)
        book.now index.old k).lent.own.sheet }
    ensures lines_after { lines_of lines.new
        ≡ (withdraw_with (order sheet.old lines.old count.old)
        book.now index.old k).lent.own.lines }
    ensures count_after { count.new
        ≡ (withdraw_with (order sheet.old lines.old count.old)
        book.now index.old k).lent.own.count }
    ensures index_after { index.new
        ≡ (withdraw_with (order sheet.old lines.old count.old)
        book.now index.old k).lent.index }
{
    let n = *count;
    let all = order_lines::copied(lines, n);
    let answer = withdraw_copied(
        sheet,
        book,
        all,
        order_lines::judged(lines.len(), n),
        index,
        k,
    );
    if answer == 0 {
        let last = n - 1;
        *count = last;
        order_lines::move_up(lines, k as usize, last as usize);
    }
    answer
}

// The "complete" question; the value is 1 where the sheet is complete. Nothing is written.
#[unsafe(no_mangle)]
pub extern "C" fn nd_complete(sheet: &[u16], book: &[u8], lines: &[Line], count: u16) -> u64
    ensures { result ≡ packed_bool (complete_of (order sheet.now lines.now count) book.now) }
{
    let all = order_lines::copied(lines, count);
    complete_copied(sheet, book, all, order_lines::judged(lines.len(), count))
}
