// Breaking: in one pass over a tree, all literals that make it fail once one of them fails.
#![tactic(auto)]

ghost use Rattle.std.specs.Prelude.{◌≡◌, true, false, ◌&&◌, [], ℕ, ◌+◌, ◌*◌, ◌≤◌, ◌<◌, eqb, length, get_or, take, drop, MatchOption};
ghost use Rattle.model.specs.Limits.{sheet_room, most_literals};
ghost use Rattle.model.specs.Forest.{or};
ghost use Rattle.model.specs.Code.{children};
ghost use Rattle.model.specs.Clauses.{need};
ghost use Rattle.theory_meaning.specs.Evaluation.{fails_all};
ghost use Rattle.theory_forms.specs.Scan.{is_literal};
ghost use Rattle.theory_reading.specs.Leaves.{place_at};
ghost use Rattle.theory_meaning.specs.NumberTrees.{conn_at, with_node, tree_fails, SpellsTree};
ghost use Rattle.report_breaking.specs.Breaking.{opposite, IsBrokenBy};
ghost use Rattle.report_breaking.specs.Stacks.{among, InTable, broken, Stacked, bottom, standing, tried, raised};
ghost use Rattle.report_breaking.specs.Stacks.{Blank, BlankBut, Children, Apart, Counted, Made, Stack};

use common_limits::{LEAST_FACTOR, MOST_LITERALS};

// A tree that is made: its entry, and where its literals end.
#[derive(Clone, Copy)]
pub struct Tree {
    pub first: u16,
    pub end: usize,
}

impl Tree {
    // It fails as it is, and has no literals.
    fn failing(base: usize) -> Tree
        requires { base ≤ sheet_room }
        ensures { (result.first ≡ 2 * base + 1) × (result.end ≡ base) }
    {
        Tree {
            first: (2 * base + 1) as u16,
            end: base,
        }
    }

    // It does not, and its literals stand from one place to another.
    fn standing(base: usize, end: usize) -> Tree
        requires { base ≤ sheet_room }
        ensures { (result.first ≡ 2 * base) × (result.end ≡ end) }
    {
        Tree {
            first: (2 * base) as u16,
            end,
        }
    }
}

// Where the stack begins, and where its literals end.
#[derive(Clone, Copy)]
pub struct Top {
    pub top: usize,
    pub end: usize,
}

// The place of the complement of the literal at a place.
pub fn opposite_of(place: usize) -> usize
    requires { place < most_literals }
    ensures { result ≡ opposite place }
{
    if place % 2 == 0 { place + 1 } else { place - 1 }
}

// Raises the count of each literal of a list that is at a number.
fn hold(list: &[u16], held: &mut [u16], count: u16)
    requires { InTable list.now × (length held.old ≡ most_literals) × (count < 65535) }
    ensures { (x : ℕ) → get_or held.new x 0 ≡ raised count list.now held.old x }
{
    for x in list {
        let place = usize::from(*x);
        if held[place] == count {
            held[place] = count + 1;
        }
    }
}

// Counts, for each literal, how many trees have it, as long as each has it that does not fail as it is. How many those are.
fn hold_all(children: &[u16], places: &[u16], end: usize, held: &mut [u16]) -> u16
    requires end_in_bounds { (end ≤ length places.now) × InTable (take end places.now) × Blank held.old }
    requires children_len_bound { (length children.now ≤ sheet_room) × Stacked end children.now }
    ensures { Counted (take end places.now) children.now held.new result }
{
    let mut count = 0;
    let mut to = end;
    for child in children {
        let first = usize::from(*child);
        let from = first / 2;
        if first % 2 == 0 {
            hold(&places[from..to], held, count);
            count += 1;
        }
        to = from;
    }
    count
}

// Keeps of a list, from its start on, each literal once whose count is at a number, and sets the counts back. How many.
fn keep(list: &mut [u16], count: u16, held: &mut [u16]) -> usize
    requires { InTable list.old × (length held.old ≡ most_literals)
        × (1 ≤ count) × BlankBut list.old held.old }
    ensures upper_bound { (result ≤ length list.old)
        × ((x : ℕ) → among x (take result list.new) ≡
        (among x list.old && eqb (get_or held.old x 0) count)) }
    ensures by_index { (x : ℕ) → get_or held.new x 0 ≡ 0 }
{
    let mut kept = 0;
    // By places, since the list is written while it is read.
    for i in 0..list.len() {
        let x = list[i];
        let place = usize::from(x);
        if held[place] == count {
            list[kept] = x;
            kept += 1;
        }
        held[place] = 0;
    }
    kept
}

// How many trees do not fail as they are.
fn count_standing(children: &[u16]) -> usize
    ensures { (result ≡ standing children.now) × (result ≤ length children.now) }
{
    children.iter().filter(|x| **x % 2 == 0).count()
}

// The literals that all trees have which do not fail as they are take the place of theirs, from the base on. Where they end.
fn intersect(
    children: &[u16],
    base: usize,
    end: usize,
    places: &mut [u16],
    held: &mut [u16],
) -> usize
    requires { Children places.old children.now base end × (1 ≤ standing children.now) × Blank held.old }
    ensures lower_bound { (base ≤ result) × (result ≤ end) × (take base places.new ≡ take base places.old) }
    ensures by_index { (q : ℕ) → among q (drop base (take result places.new)) ≡
        fails_all or (broken q (take end places.old) children.now) }
    ensures in_table { InTable (take result places.new) × Blank held.new }
{
    let count = hold_all(children, places, end, held);
    base + keep(&mut places[base..end], count, held)
}

// How many of its children must fail so that a node with so many fails.
fn need_of(x: usize, children: usize) -> usize
    requires { children ≤ sheet_room }
    ensures { result ≡ need (conn_at x) children }
{
    match common_nodes::kind_of(x) {
        4 => children,
        6 => (children + 1).saturating_sub(common_nodes::value_of(x) % LEAST_FACTOR),
        _ => 1,
    }
}

// Joins the trees last read, whose literals begin at the base, under a node. It fails where enough of them do. Where one more must
// fail, it has the literals of each that stands; where more must, a disjunction has those that all have, and kind 6 has none, since no
// literal is in two members.
fn join(
    children: &[u16],
    x: usize,
    base: usize,
    end: usize,
    places: &mut [u16],
    held: &mut [u16],
) -> Tree
    requires children { Children places.old children.now base end × (length places.old ≡ sheet_room) × Blank held.old }
    requires apart { Apart x (take end places.old) children.now }
    ensures made { Made
        (λ q. fails_all (conn_at x) (broken q (take end places.old) children.now))
        (take end places.old)
        children.now
        (take result.end places.new)
        result.first }
    ensures end_le_end { (result.end ≤ end) × Blank held.new }
{
    let need = need_of(x, children.len());
    let failing = children.len() - count_standing(children);
    if need <= failing {
        Tree::failing(base)
    } else if need == failing + 1 {
        Tree::standing(base, end)
    } else if common_nodes::kind_of(x) != 4 {
        Tree::standing(base, base)
    } else {
        Tree::standing(base, intersect(children, base, end, places, held))
    }
}

// Where the literals of the trees last read begin, which end at a place.
fn base_of(children: &[u16], end: usize) -> usize
    ensures { result ≡ bottom end children.now }
{
    match children.last() {
        Some(last) => usize::from(*last) / 2,
        None => end,
    }
}

// A literal fails as it is, or is broken by itself; not where its complement fails, since then nobody asks.
fn read_literal(place: usize, failed: &[u8], end: usize, places: &mut [u16]) -> Tree
    requires place_lt_most_literals { (place < most_literals) × (length failed.now ≡ most_literals) }
    requires end_in_bounds { (end < length places.old) × (length places.old ≡ sheet_room) × InTable (take end places.old) }
    ensures made { Made
        (λ q. eqb (get_or (tried failed.now q) place 0) 1)
        (take end places.old)
        []
        (take result.end places.new)
        result.first }
    ensures end_bound { result.end ≤ end + 1 }
{
    if failed[place] == 1 {
        Tree::failing(end)
    } else if failed[opposite_of(place)] == 1 {
        Tree::standing(end, end)
    } else {
        places[end] = place as u16;
        Tree::standing(end, end + 1)
    }
}

// A node that has its children on the stack.
fn read_group(
    x: usize,
    top: usize,
    end: usize,
    places: &mut [u16],
    stack: &[u16],
    held: &mut [u16],
) -> Tree
    requires x_in_bounds { (top + children x ≤ length stack.now)
        × (length stack.now ≡ sheet_room)
        × Stack places.old stack.now top end }
    requires places_len { (length places.old ≡ sheet_room) × Blank held.old }
    requires apart { Apart x (take end places.old) (take (children x) (drop top stack.now)) }
    ensures made { Made
        (λ q. fails_all (conn_at x)
        (broken q (take end places.old) (take (children x) (drop top stack.now))))
        (take end places.old)
        (take (children x) (drop top stack.now))
        (take result.end places.new)
        result.first }
    ensures end_le_end { (result.end ≤ end) × Blank held.new }
{
    let to = top + common_nodes::children_of(x);
    let base = base_of(&stack[top..to], end);
    join(&stack[top..to], x, base, end, places, held)
}

// One node more, before the trees of the stack: its entry takes the place of its children's.
fn read_node(
    x: usize,
    failed: &[u8],
    top: usize,
    end: usize,
    places: &mut [u16],
    stack: &mut [u16],
    held: &mut [u16],
) -> Top
    requires le_top { (1 ≤ top)
        × (is_literal x ≡ true → place_at x < most_literals)
        × (is_literal x ≡ false → top + children x ≤ length stack.old) }
    requires end_lt_sheet_room { (end < sheet_room)
        × (length places.old ≡ sheet_room)
        × (length stack.old ≡ sheet_room)
        × Stack places.old stack.old top end }
    requires failed_len { (length failed.now ≡ most_literals) × Blank held.old }
    requires apart { Apart x (take end places.old) (take (children x) (drop top stack.old)) }
    ensures end_bound { (result.end ≤ end + 1)
        × Stack places.new stack.new result.top result.end
        × Blank held.new }
    ensures by_index { (q : ℕ) → broken q (take result.end places.new) (drop result.top stack.new) ≡
        with_node (tried failed.now q) x (broken q (take end places.old) (drop top stack.old)) }
{
    if common_nodes::is_literal(x) {
        let new = top - 1;
        let tree = read_literal(common_nodes::place_of(x), failed, end, places);
        stack[new] = tree.first;
        Top {
            top: new,
            end: tree.end,
        }
    } else {
        let new = top + common_nodes::children_of(x) - 1;
        let tree = read_group(x, top, end, places, stack, held);
        stack[new] = tree.first;
        Top {
            top: new,
            end: tree.end,
        }
    }
}

// The literals that break a tree, unless it fails as it is: their places, at the start of a list, and how many. The stack is lent;
// what the list and the stack hold before does not matter.
pub fn breaking(tree: &[u16], failed: &[u8], places: &mut [u16], stack: &mut [u16]) -> Option<usize>
    requires { SpellsTree tree.now
        × (length tree.now ≤ sheet_room)
        × (length failed.now ≡ most_literals)
        × (length places.old ≡ sheet_room)
        × (length stack.old ≡ sheet_room) }
    ensures { MatchOption result (tree_fails failed.now tree.now ≡ true) (IsBrokenBy failed.now tree.now places.new) }
{
    let mut held = [0u16; MOST_LITERALS];
    let mut top = stack.len();
    let mut end = 0;
    for i in (0..tree.len()).rev() {
        let next = read_node(
            usize::from(tree[i]),
            failed,
            top,
            end,
            places,
            stack,
            &mut held,
        );
        top = next.top;
        end = next.end;
    }
    if stack[top] % 2 == 1 { None } else { Some(end) }
}
