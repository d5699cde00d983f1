// The table of the seventeen rules, the node kind and the fewest children of each, read by the rule's number; and the test of a node by it.
#![tactic(auto)]

ghost use Rattle.std.specs.Prelude.{◌≡◌, ◌≤◌, length};
ghost use Rattle.model.specs.Limits.{last_rule};
ghost use Rattle.model.specs.Rules.{is_rule};
ghost use Rattle.rule_table.specs.Columns.{kind_for, fewest_for};
ghost use Rattle.rule_table.specs.Headings.{headed};

use common_limits::{KIND_FACTOR, KIND_FACTOR_16, LAST_RULE};

// The number of an empty conjunction (kind 3): such a node is true.
pub const TRUE: u16 = 3 * KIND_FACTOR_16;

// The number of an empty disjunction (kind 4): such a node is false.
pub const FALSE: u16 = 4 * KIND_FACTOR_16;

// The two columns in bytes, since an array that is read by an index is built at each call.
const KINDS: [u8; LAST_RULE] = [3, 4, 5, 3, 4, 5, 3, 4, 4, 5, 3, 5, 3, 4, 6, 6, 6];

const FEWEST: [u8; LAST_RULE] = [2, 2, 2, 1, 1, 1, 1, 1, 2, 2, 1, 1, 1, 2, 1, 0, 0];

// The kind of node that a rule is for.
pub fn kind_for(rule: usize) -> usize
    requires { (1 ≤ rule) × (rule ≤ last_rule) }
    ensures { result ≡ kind_for rule }
{
    usize::from(KINDS[rule - 1])
}

// The fewest children that it wants.
pub fn fewest_for(rule: usize) -> usize
    requires { (1 ≤ rule) × (rule ≤ last_rule) }
    ensures { result ≡ fewest_for rule }
{
    usize::from(FEWEST[rule - 1])
}

// The number is a rule's: it has a row in the table.
pub fn is_rule(rule: u64) -> bool
    ensures { result ≡ is_rule rule }
{
    1 <= rule && rule <= LAST_RULE as u64 && fewest_for(rule as usize) < KIND_FACTOR
}

// The head of the stretch is of the rule's kind and has enough children.
pub fn is_headed(part: &[u16], rule: usize) -> bool
    requires { (1 ≤ rule) × (rule ≤ last_rule) × (1 ≤ length part.now) }
    ensures { result ≡ headed rule part.now }
{
    let head = usize::from(part[0]);
    common_nodes::kind_of(head) == kind_for(rule)
        && fewest_for(rule) <= common_nodes::children_of(head)
}
