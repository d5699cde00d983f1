// The contents and the bodies of a book.
#![tactic(auto)]

ghost use Rattle.std.specs.Prelude.{◌≡◌, true, ◌*◌, ◌≤◌, length};
ghost use Rattle.model.specs.Base.{all};
ghost use Rattle.model.specs.Limits.{most_options, most_rules, most_nodes};
ghost use Rattle.model.specs.Book.{words, entries, in_line, cut, body_ok};

// The entries of the contents are in line, and their counts add up to the total.
pub fn are_in_line(s: &[u8], m: usize, total: usize) -> bool
    requires { (m ≤ most_rules) × (4 * m ≤ length s.now) }
    ensures { result ≡ in_line total 0 (entries m s.now) }
{
    let mut sum = 0;
    for i in 0..m {
        let first = common_nodes::word_at(s, 4 * i);
        let count = common_nodes::word_at(s, 4 * i + 2);
        if first != sum || count < 1 {
            return false;
        }
        sum += count;
    }
    sum == total
}

// A body of so many nodes is one tree of nodes for n options, its members in their seats.
fn is_body(s: &[u8], count: usize, n: usize) -> bool
    requires { (count ≤ most_nodes) × (2 * count ≤ length s.now) × (n ≤ most_options) }
    ensures { result ≡ body_ok n (words count s.now) }
{
    common_members::count_trees(&s[..2 * count], n) == Some(1)
}

// Every body is one tree, its members in their seats. The contents are in line, so that the bodies lie within the nodes.
pub fn are_bodies(contents: &[u8], m: usize, s: &[u8], total: usize, n: usize) -> bool
    requires m_le_most_rules { (m ≤ most_rules) × (total ≤ most_nodes) × (n ≤ most_options) }
    requires m_in_bounds { (4 * m ≤ length contents.now) × (2 * total ≤ length s.now) }
    requires contents_value { in_line total 0 (entries m contents.now) ≡ true }
    ensures { result ≡ all (body_ok n) (cut (entries m contents.now) (words total s.now)) }
{
    let mut sum = 0;
    for i in 0..m {
        let count = common_nodes::word_at(contents, 4 * i + 2);
        if !is_body(&s[2 * sum..], count, n) {
            return false;
        }
        sum += count;
    }
    true
}
