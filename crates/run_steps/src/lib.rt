// The core of a run: the strategy's steps on a sheet, as many as the budget allows or as there are.
#![tactic(auto)]

ghost use Rattle.std.specs.Prelude.{◌≡◌, true, false};
ghost use Rattle.model.specs.Base.{maybe};
ghost use Rattle.theory_rewriting.specs.Reached.{Ends};
ghost use Rattle.theory_forms.specs.Sheets.{Formed};
ghost use Rattle.search_place.specs.Redexes.{next_of};
ghost use Rattle.run_bounds.specs.BoundTables.{ComeTo};

use common_limits::SHEET_ROOM;
use run_one_step::Ahead;

// What a run ends with: whether no rule applies any more, and the number of steps done.
#[derive(Clone, Copy)]
pub struct Ended {
    pub settled: bool,
    pub count: u64,
}

// The strategy's steps on a sheet, by the sizes of its trees and the bounds of its places.
fn run_by(sheet: &mut [u16], sizes: &mut [u16], low: &mut [u16], budget: u64) -> Ended
    requires { ComeTo 1 0 sheet.old sizes.old low.old }
    ensures { Ends sheet.old budget result.settled result.count sheet.new }
{
    let mut ahead = Ahead {
        floor: 1,
        cursor: 0,
    };
    for count in 0..budget {
        let next = run_bounds::next_redex(sheet, sizes, low, ahead.floor, ahead.cursor);
        let Some(redex) = next else {
            return Ended {
                settled: true,
                count,
            };
        };
        ahead = run_one_step::advance(sheet, sizes, low, redex);
    }
    let last = run_bounds::next_redex(sheet, sizes, low, ahead.floor, ahead.cursor);
    Ended {
        settled: last.is_none(),
        count: budget,
    }
}

// The same, with the tables made for it.
pub fn run_on(sheet: &mut [u16], budget: u64) -> Ended
    requires { Formed sheet.old }
    ensures { Ends sheet.old budget result.settled result.count sheet.new }
{
    let mut sizes = [0u16; SHEET_ROOM];
    let mut low = [1u16; SHEET_ROOM];
    search_sizes::fill(&sheet[2..], &mut sizes);
    run_by(sheet, &mut sizes, &mut low, budget)
}
