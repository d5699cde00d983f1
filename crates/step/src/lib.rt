// The core of a step: whether one rule applies at one place of a sheet, for child i and inner child j, and the sheet after it.
#![tactic(auto)]

ghost use Rattle.std.specs.Prelude.{◌≡◌, true, ◌+◌, ◌≤◌, ◌<◌, length, get_or};
ghost use Rattle.model.specs.Base.{is_some};
ghost use Rattle.model.specs.Code.{children};
ghost use Rattle.model.specs.Limits.{last_rule};
ghost use Rattle.model.specs.Rules as M;
ghost use Rattle.model.specs.Rules.{rewrite};
ghost use Rattle.model.specs.Sheet.{used_in, nodes_in};
ghost use Rattle.model.specs.Results.{stepped};
ghost use Rattle.theory_reading.specs.Spans.{child_at};
ghost use Rattle.theory_reading.specs.Stretches.{Stretch, forest_in};
ghost use Rattle.theory_rewriting.specs.Heads.{Headed, rewritten_to};
ghost use Rattle.theory_forms.specs.Sheets.{Formed};

// Whether a rule that names a child applies to the first tree of the stretch, whose head is right for it and whose child i stands at a
// place.
pub fn applies_headed(part: &[u16], rule: usize, i: usize, j: usize, at: usize) -> bool
    requires le_rule { (1 ≤ rule) × (rule ≤ 15) }
    requires stretch { Stretch part.now }
    requires headed { Headed rule part.now }
    requires i_bound { (i < children (get_or part.now 0 0)) × (at ≡ child_at i part.now) }
    ensures { result ≡ is_some (rewrite rule i j (forest_in part.now)) }
{
    match rule {
        1..=8 => rule_simplify::applies(part, rule, i, j, at),
        9..=10 => rule_spread::applies(part, rule, i, j, at),
        11..=13 => rule_lift::applies(part, rule, i, j, at),
        14 => rule_factor::applies(part, i, j, at),
        _ => rule_least::drops(part, i, j, at),
    }
}

// The step itself on the stretch from its place on, where the rule applies.
pub fn turn(part: &mut [u16], rule: usize, i: usize, j: usize)
    requires le_rule { (1 ≤ rule) × (rule ≤ last_rule) }
    requires stretch { Stretch part.old }
    requires headed { Headed rule part.old }
    requires part_value { is_some (rewrite rule i j (forest_in part.old)) ≡ true }
    ensures { part.new ≡ rewritten_to rule i j part.old }
{
    match rule {
        1..=8 => rule_simplify::turn(part, rule, i, j),
        9..=10 => rule_spread::turn(part, rule, i, j),
        11..=13 => rule_lift::turn(part, rule, i, j),
        14 => rule_regroup::turn(part, i, j),
        15 => rule_least::drop_member(part, i, j),
        _ => rule_least::end(part, rule, i, j),
    }
}

// Whether the rule applies to the first tree of the stretch: i and j are any numbers, and compared as they are.
pub fn applies(part: &[u16], rule: usize, i: u64, j: u64) -> bool
    requires le_rule { (1 ≤ rule) × (rule ≤ last_rule) × (1 ≤ length part.now) }
    requires stretch { Stretch part.now }
    ensures { result ≡ is_some (rewrite rule i j (forest_in part.now)) }
{
    if !rule_table::is_headed(part, rule) {
        return false;
    }
    if 15 < rule {
        return rule_least::ends(part, rule, i as usize, j as usize);
    }
    let k = common_nodes::children_of(usize::from(part[0]));
    if k as u64 <= i {
        return false;
    }
    let child = i as usize;
    let at = common_nodes::child_at(part, child);
    applies_headed(part, rule, child, j as usize, at)
}

// The step on a sheet on which it applies: from its place on the numbers are rewritten, and the used count follows, but for rules 9
// to 12 and 17, which keep the number of nodes.
pub fn apply(sheet: &mut [u16], rule: usize, place: usize, i: usize, j: usize)
    requires formed { Formed sheet.old }
    requires sheet_value { is_some (M.step rule place i j (nodes_in sheet.old)) ≡ true }
    ensures { sheet.new ≡ stepped sheet.old rule place i j }
{
    let from = 2 + place;
    turn(&mut sheet[from..], rule, i, j);
    match rule {
        9..=12 | 17 => {}
        _ => sheet[1] = sheet_shifts::live_count(&sheet[2..]) as u16,
    }
}

// The same, where it is known how many nodes fewer there will be, so that the used count is not counted anew. Rule 14 may leave more
// nodes than there were: after it they are counted.
pub fn apply_by(sheet: &mut [u16], rule: usize, place: usize, i: usize, j: usize, fewer: usize)
    requires formed { Formed sheet.old }
    requires sheet_value { is_some (M.step rule place i j (nodes_in sheet.old)) ≡ true }
    requires fewer_value { (rule ≡ 14 → ⊥) → used_in (stepped sheet.old rule place i j) + fewer ≡ used_in sheet.old }
    ensures { sheet.new ≡ stepped sheet.old rule place i j }
{
    let from = 2 + place;
    let used = usize::from(sheet[1]);
    turn(&mut sheet[from..], rule, i, j);
    if rule == 14 {
        sheet[1] = sheet_shifts::live_count(&sheet[2..]) as u16;
    } else {
        sheet[1] = (used - fewer) as u16;
    }
}
