// The marks of the lines that stand, put on a sheet that has room for them.
#![tactic(auto)]

ghost use Rattle.std.specs.Prelude.{◌≡◌, true, ◌+◌, ◌-◌, ◌*◌, ◌≤◌, ◌<◌, ltb, length, take};
ghost use Rattle.model.specs.Base.{all};
ghost use Rattle.model.specs.Literal.{option};
ghost use Rattle.model.specs.Code.{weight};
ghost use Rattle.model.specs.Limits.{most_weight, literal_weight};
ghost use Rattle.model.specs.Sheet.{options_in, nodes_in, is_sheet};
ghost use Rattle.calls.specs.Lines.{most_lines, without, with_marks};
ghost use Rattle.order_lines.specs.LineMeaning.{lines_of};

use order_lines::{Line, SLOTS};

// The marks of lines, in order.
fn put_marks(sheet: &mut [u16], lines: &[Line])
    requires sheet_value { is_sheet sheet.old ≡ true }
    requires lines_value { all (λ l. ltb (option l) (options_in sheet.old)) (lines_of lines.now) ≡ true }
    requires room { weight (nodes_in sheet.old) + literal_weight * length lines.now ≤ most_weight }
    ensures { sheet.new ≡ with_marks sheet.old (lines_of lines.now) }
{
    for line in lines {
        sheet_append::append(sheet, line.option, line.negative);
    }
}

// The marks of all counted lines but line k, in order. None of them can be refused any more.
pub fn put_standing(sheet: &mut [u16], lines: [Line; SLOTS], count: usize, k: usize)
    requires sheet_value { (is_sheet sheet.old ≡ true) × (count ≤ most_lines) × (k < count) }
    requires lines_value { all (λ l. ltb (option l) (options_in sheet.old)) (take count (lines_of lines)) ≡ true }
    requires count_bound { weight (nodes_in sheet.old) + literal_weight * (count - 1) ≤ most_weight }
    ensures { sheet.new ≡ with_marks sheet.old (without k (take count (lines_of lines))) }
{
    put_marks(sheet, &lines[..k]);
    put_marks(sheet, &lines[k + 1..count]);
}
