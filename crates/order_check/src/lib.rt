// Whether the lines of an order are in order.
#![tactic(auto)]

ghost use Rattle.std.specs.Prelude.{◌≡◌, ◌&&◌, leb, ltb, take};
ghost use Rattle.model.specs.Base.{all};
ghost use Rattle.model.specs.Literal.{option};
ghost use Rattle.calls.specs.Lines.{most_lines};
ghost use Rattle.order_lines.specs.LineMeaning.{lines_of};

use order_lines::{Line, MOST_LINES, SLOTS};

// No more lines are counted than there are slots, and each names an option below N.
pub fn are_in_order(lines: [Line; SLOTS], count: u16, n: u16) -> bool
    ensures { result ≡ (leb count most_lines && all (λ l. ltb (option l) n) (take count (lines_of lines))) }
{
    count <= MOST_LINES
        && lines[..usize::from(count)]
            .iter()
            .all(|line| line.option < n)
}
