// The archive of the calls on sheets (include/nibdrumlin_sheets.h): each function for C hands on to the one of `c_sheet_calls` that has
// its name.
#![tactic(auto)]

ghost use Rattle.std.specs.Prelude.{◌≡◌};
ghost use Rattle.calls.specs.Calls.{load_of, write_of, report_of, step_with, run_with, fill_of};
ghost use Rattle.c_calls.specs.Packed.{packed_done, packed_value, packed_bool};
ghost use Rattle.c_sheet_calls.specs.PackedValues.{packed_ran};

// The loader.
#[unsafe(no_mangle)]
pub extern "C" fn nd_load(book: &[u8], sheet: &mut [u16]) -> u64
    ensures value { result ≡ packed_done (load_of book.now sheet.old).answer }
    ensures sheet_after { sheet.new ≡ (load_of book.now sheet.old).lent }
{
    c_sheet_calls::nd_load(book, sheet)
}

// The writer; the value is the length.
#[unsafe(no_mangle)]
pub extern "C" fn nd_write(sheet: &[u16], book: &[u8], out: &mut [u8]) -> u64
    ensures value { result ≡ packed_value (write_of sheet.now book.now out.old).answer }
    ensures out_after { out.new ≡ (write_of sheet.now book.now out.old).lent }
{
    c_sheet_calls::nd_write(sheet, book, out)
}

// The report; the value is 1 where the sheet is contradictory.
#[unsafe(no_mangle)]
pub extern "C" fn nd_report(sheet: &[u16], out: &mut [u8]) -> u64
    ensures value { result ≡ packed_bool (report_of sheet.now out.old).answer }
    ensures out_after { out.new ≡ (report_of sheet.now out.old).lent }
{
    c_sheet_calls::nd_report(sheet, out)
}

// A single step, on a sheet with its index.
#[unsafe(no_mangle)]
pub extern "C" fn nd_step(
    sheet: &mut [u16],
    index: &mut [u16],
    rule: u64,
    place: u64,
    i: u64,
    j: u64,
) -> u64
    ensures value { result ≡ packed_done (step_with sheet.old index.old rule place i j).answer }
    ensures sheet_after { sheet.new ≡ (step_with sheet.old index.old rule place i j).lent.own }
    ensures index_after { index.new ≡ (step_with sheet.old index.old rule place i j).lent.index }
{
    c_sheet_calls::nd_step(sheet, index, rule, place, i, j)
}

// A run, on a sheet with its index; the value is twice the count, plus 1 where it is settled.
#[unsafe(no_mangle)]
pub extern "C" fn nd_run(sheet: &mut [u16], index: &mut [u16], budget: u64) -> u64
    ensures value { result ≡ packed_ran (run_with sheet.old index.old budget).answer }
    ensures sheet_after { sheet.new ≡ (run_with sheet.old index.old budget).lent.own }
    ensures index_after { index.new ≡ (run_with sheet.old index.old budget).lent.index }
{
    c_sheet_calls::nd_run(sheet, index, budget)
}

// The index of a sheet, filled whatever it held.
#[unsafe(no_mangle)]
pub extern "C" fn nd_index(sheet: &[u16], index: &mut [u16]) -> u64
    ensures value { result ≡ packed_done (fill_of sheet.now index.old).answer }
    ensures index_after { index.new ≡ (fill_of sheet.now index.old).lent }
{
    c_sheet_calls::nd_index(sheet, index)
}
