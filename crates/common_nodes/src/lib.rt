// Numbers in bytes; the numbers of a sheet as nodes, kind times 4,096 plus value; and the trees that a run of them spells, read from the
// left.
#![tactic(auto)]

ghost use Rattle.std.specs.Prelude.{◌≡◌, ◌+◌, ◌-◌, ◌<◌, ◌≤◌, leb, length, true};
ghost use Rattle.model.specs.Book.{word};
ghost use Rattle.model.specs.Base.{only_if};
ghost use Rattle.model.specs.Code.{kind, value, children};
ghost use Rattle.theory_forms.specs.Scan.{is_literal, joined_by};
ghost use Rattle.common_lists.specs.Given.{given};
ghost use Rattle.model.specs.Limits.{kind_factor, sheet_room};
ghost use Rattle.theory_reading.specs.Spans.{arity, span, child_at};
ghost use Rattle.theory_reading.specs.Leaves.{place_at};

use common_limits::{KIND_FACTOR, LEAST_FACTOR};

// The number at a place of a slice, its low byte first.
#[tactic(auto, unfolding(model::specs::Book::word))]
pub fn number_at(s: &[u8], k: usize) -> u16
    requires { k + 1 < length s.now }
    ensures { result ≡ word s.now k }
{
    u16::from_le_bytes([s[k], s[k + 1]])
}

// The same number at the machine's width.
pub fn word_at(s: &[u8], k: usize) -> usize
    requires { k + 1 < length s.now }
    ensures { result ≡ word s.now k }
{
    usize::from(number_at(s, k))
}

#[tactic(auto, unfolding(model::specs::Code::kind))]
pub fn kind_of(x: usize) -> usize
    ensures { result ≡ kind x }
{
    x / KIND_FACTOR
}

#[tactic(auto, unfolding(model::specs::Code::value))]
pub fn value_of(x: usize) -> usize
    ensures { result ≡ value x }
{
    x % KIND_FACTOR
}

// The number of children of a node that is no literal.
#[tactic(auto, unfolding(model::specs::Code::children, model::specs::Base::pick))]
pub fn children_of(x: usize) -> usize
    ensures { result ≡ children x }
{
    let v = value_of(x);
    if kind_of(x) == 6 { v / LEAST_FACTOR } else { v }
}

// Kinds 1 and 2 are literals.
#[tactic(auto, unfolding(theory_forms::specs::Scan::is_literal))]
pub fn is_literal(x: usize) -> bool
    ensures { result ≡ is_literal x }
{
    matches!(kind_of(x), 1 | 2)
}

// A node takes as many of the trees after it as it has children: none where there are fewer.
#[tactic(auto, unfolding(model::specs::Base::only_if))]
fn gather(t: usize, k: usize) -> Option<usize>
    requires { t ≤ 65535 }
    ensures { given result ≡ only_if (leb k t) (t - k + 1) }
{
    if t < k { None } else { Some(t - k + 1) }
}

// How many trees there are with one node more, before so many trees, in a body of n options: none where it is no node, or lacks children.
// The commonest kinds are tested first, and kind 6 after all others.
#[tactic(auto, unfolding(theory_forms::specs::Scan::joined_by, model::specs::Base::then, model::specs::Base::only_if, model::specs::Base::pick, model::specs::Code::joined, model::specs::Code::node_of, model::specs::Code::children, model::specs::Sheet::body_node))]
pub fn join(x: usize, n: usize, t: usize) -> Option<usize>
    requires { t ≤ 65535 }
    ensures { given result ≡ joined_by n x t }
{
    let k = kind_of(x);
    if k == 1 || k == 2 {
        (value_of(x) < n).then_some(t + 1)
    } else if k == 3 || k == 4 {
        gather(t, value_of(x))
    } else if k == 6 {
        gather(t, value_of(x) / LEAST_FACTOR)
    } else {
        None
    }
}

// The number of children that a node announces. It is read off before the test for a literal, so that the machine need not guess which
// of the two a node is.
#[tactic(auto, using(theory_forms::specs::Numbers::children_small), unfolding(theory_reading::specs::Spans::arity, model::specs::Base::pick))]
pub fn arity_of(x: usize) -> usize
    ensures { (result ≡ arity x) × (result < kind_factor) }
{
    let k = children_of(x);
    if is_literal(x) { 0 } else { k }
}

// The number of nodes of the first so many trees: each node settles one tree that was pending and announces its children.
pub fn span_of(s: &[u16], trees: usize) -> usize
    requires { (length s.now ≤ sheet_room) × (trees ≤ sheet_room) }
    ensures { (result ≡ span trees s.now) × (result ≤ length s.now) }
{
    let mut pending = trees;
    for (i, x) in s.iter().enumerate() {
        if pending == 0 {
            return i;
        }
        pending = pending - 1 + arity_of(usize::from(*x));
    }
    s.len()
}

// The place of child i of the group that a stretch begins with.
#[tactic(auto, using(common_lists::proofs::Lent::lent_part))]
pub fn child_at(s: &[u16], i: usize) -> usize
    requires { (1 ≤ length s.now) × (length s.now ≤ sheet_room) × (i ≤ sheet_room) }
    ensures { (result ≡ child_at i s.now) × (result ≤ length s.now) }
{
    1 + span_of(&s[1..], i)
}

// The place in a table of the literal that a number of kind 1 or 2 is.
#[tactic(auto, using(theory_forms::specs::Numbers::value_small, theory_reading::specs::Leaves::literal_kind), unfolding(theory_reading::specs::Leaves::place_at))]
pub fn place_of(x: usize) -> usize
    requires { is_literal x ≡ true }
    ensures { result ≡ place_at x }
{
    2 * value_of(x) + kind_of(x) - 1
}
