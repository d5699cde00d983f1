// The calls on sheets, for C (include/nibdrumlin_sheets.h). Each answers one number, as the calls of `c_calls` do: the low 8 bits are
// the refusal (0: accepted), the rest is the value.
#![tactic(auto)]

ghost use Rattle.std.specs.Prelude.{◌≡◌};
ghost use Rattle.calls.specs.Calls.{load_of, write_of, report_of, step_with, run_with, fill_of};
ghost use Rattle.c_calls.specs.Packed.{packed_done, packed_value, packed_bool};
ghost use Rattle.c_sheet_calls.specs.PackedValues.{packed_ran};

use c_calls::VALUE;

// Of a run's value the lowest bit says whether it is settled, and the count stands above it.
const COUNT: u64 = 2 * VALUE;

// The loader.
#[unsafe(no_mangle)]
pub extern "C" fn nd_load(book: &[u8], sheet: &mut [u16]) -> u64
    ensures value { result ≡ packed_done (load_of book.now sheet.old).answer }
    ensures sheet_after { sheet.new ≡ (load_of book.now sheet.old).lent }
{
    c_calls::done(call_transfer::load(book, sheet))
}

// The writer; the value is the length.
#[unsafe(no_mangle)]
pub extern "C" fn nd_write(sheet: &[u16], book: &[u8], out: &mut [u8]) -> u64
    ensures value { result ≡ packed_value (write_of sheet.now book.now out.old).answer }
    ensures out_after { out.new ≡ (write_of sheet.now book.now out.old).lent }
{
    c_calls::found(call_transfer::write(sheet, book, out))
}

// The report; the value is 1 where the sheet is contradictory.
#[unsafe(no_mangle)]
pub extern "C" fn nd_report(sheet: &[u16], out: &mut [u8]) -> u64
    ensures value { result ≡ packed_bool (report_of sheet.now out.old).answer }
    ensures out_after { out.new ≡ (report_of sheet.now out.old).lent }
{
    c_calls::told(call_report::report(sheet, out))
}

// A single step, on a sheet with its index.
#[unsafe(no_mangle)]
pub extern "C" fn nd_step(
    sheet: &mut [u16],
    index: &mut [u16],
    rule: u64,
    place: u64,
    i: u64,
    j: u64,
) -> u64
    ensures value { result ≡ packed_done (step_with sheet.old index.old rule place i j).answer }
    ensures sheet_after { sheet.new ≡ (step_with sheet.old index.old rule place i j).lent.own }
    ensures index_after { index.new ≡ (step_with sheet.old index.old rule place i j).lent.index }
{
    c_calls::done(call_step::step(sheet, index, rule, place, i, j))
}

// A run, on a sheet with its index; the value is twice the count, plus 1 where it is settled.
#[unsafe(no_mangle)]
pub extern "C" fn nd_run(sheet: &mut [u16], index: &mut [u16], budget: u64) -> u64
    ensures value { result ≡ packed_ran (run_with sheet.old index.old budget).answer }
    ensures sheet_after { sheet.new ≡ (run_with sheet.old index.old budget).lent.own }
    ensures index_after { index.new ≡ (run_with sheet.old index.old budget).lent.index }
{
    match call_run::run_with(sheet, index, budget) {
        Ok(end) if end.settled => COUNT * end.count + VALUE,
        Ok(end) => COUNT * end.count,
        Err(r) => c_calls::refused(r),
    }
}

// The index of a sheet, filled whatever it held.
#[unsafe(no_mangle)]
pub extern "C" fn nd_index(sheet: &[u16], index: &mut [u16]) -> u64
    ensures value { result ≡ packed_done (fill_of sheet.now index.old).answer }
    ensures index_after { index.new ≡ (fill_of sheet.now index.old).lent }
{
    c_calls::done(call_index::fill(sheet, index))
}
