// Rule 14, what it asks: conjunctions that share a literal, in one disjunction.
#![tactic(auto)]

ghost use Rattle.std.specs.Prelude.{◌≡◌, ◌≤◌, ◌<◌, length, get_or, is_ok, MatchResult};
ghost use Rattle.common_lists.specs.Given.{given};
ghost use Rattle.model.specs.Base.{is_some, only_if};
ghost use Rattle.model.specs.Limits.{sheet_room};
ghost use Rattle.model.specs.Code.{children};
ghost use Rattle.model.specs.Rules.{rewrite};
ghost use Rattle.theory_reading.specs.Spans.{child_at};
ghost use Rattle.theory_reading.specs.Stretches.{Stretch, forest_in};
ghost use Rattle.theory_rewriting.specs.Heads.{Headed};
ghost use Rattle.rule_factor.specs.Walks.{all_share, among, group_here, groups_in, shares_here, unit_at, unit_place};

// The place of the first of so many trees that is the literal itself; else the place after them. It hops over a tree at a time, whose
// size is read, so it goes beside the count of the trees.
pub fn unit_place(part: &[u16], trees: usize, literal: u16) -> Result<usize, usize>
    requires { length part.now ≤ sheet_room }
    ensures found { is_ok result ≡ among literal trees part.now }
    ensures place { MatchResult result (λ at. at ≡ unit_place literal trees part.now) (λ end. end ≡ unit_place literal trees part.now) }
    ensures near { unit_place literal trees part.now ≤ length part.now }
{
    let mut at = 0;
    for passed in 0..trees {
        if at == part.len() {
            return Err(at);
        }
        if part[at] == literal {
            return Ok(at);
        }
        at += common_nodes::span_of(&part[at..], 1);
    }
    Err(at)
}

// The literal that is child j of the group, where no earlier child is the same literal.
pub fn unit_of(part: &[u16], j: usize) -> Option<u16>
    requires in_bounds { (1 ≤ length part.now) × (length part.now ≤ sheet_room) }
    requires part_in_bounds { j < children (get_or part.now 0 0) → child_at j part.now < length part.now }
    ensures { given result ≡ unit_at j part.now }
{
    if common_nodes::children_of(usize::from(part[0])) <= j {
        return None;
    }
    let before = common_nodes::span_of(&part[1..], j);
    let x = part[1 + before];
    if common_nodes::is_literal(usize::from(x)) && unit_place(&part[1..], j, x).is_err() {
        Some(x)
    } else {
        None
    }
}

// The first tree is a literal, or a conjunction that has the literal among its children.
fn shares(part: &[u16], literal: u16) -> bool
    requires { (1 ≤ length part.now) × (length part.now ≤ sheet_room) }
    ensures { result ≡ shares_here literal part.now }
{
    let x = usize::from(part[0]);
    common_nodes::is_literal(x)
        || common_nodes::kind_of(x) == 3
            && unit_place(&part[1..], common_nodes::children_of(x), literal).is_ok()
}

// One for a group, nothing for a literal.
fn group_of(x: u16) -> u16
    ensures { (result ≡ group_here x) × (result ≤ 1) }
{
    if common_nodes::is_literal(usize::from(x)) {
        0
    } else {
        1
    }
}

// The number of groups among so many trees, where each shares the literal.
pub fn sharing_groups(part: &[u16], trees: usize, literal: u16) -> Option<u16>
    requires { (length part.now ≤ sheet_room) × (trees ≤ sheet_room) }
    ensures { given result ≡ only_if (all_share literal trees part.now) (groups_in trees part.now) }
{
    let mut groups = 0;
    let mut at = 0;
    for passed in 0..trees {
        if at == part.len() {
            return Some(groups);
        }
        if !shares(&part[at..], literal) {
            return None;
        }
        groups += group_of(part[at]);
        at += common_nodes::span_of(&part[at..], 1);
    }
    Some(groups)
}

// Whether the rule applies to the first tree of the stretch, whose head is right for it. Before child i only literals may stand,
// a number each, so it stands at place 1 + i; and where it does and all children share, those before it are literals.
pub fn applies(part: &[u16], i: usize, j: usize, at: usize) -> bool
    requires stretch { Stretch part.now }
    requires headed { Headed 14 part.now }
    requires i_bound { (i < children (get_or part.now 0 0)) × (at ≡ child_at i part.now) }
    ensures { result ≡ is_some (rewrite 14 i j (forest_in part.now)) }
{
    if at != 1 + i || common_nodes::kind_of(usize::from(part[at])) != 3 {
        return false;
    }
    let Some(literal) = unit_of(&part[at..], j) else {
        return false;
    };
    let k = common_nodes::children_of(usize::from(part[0]));
    match sharing_groups(&part[1..], k, literal) {
        Some(groups) => 2 <= groups,
        None => false,
    }
}
