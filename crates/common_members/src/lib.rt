// The members of kind 6, at least so many of these: whether they are true, false, or literals of distinct options. A bit for each option
// says whether a member named it, so nothing is lent or cleared from one node to the next.
#![tactic(auto)]

ghost use Rattle.std.specs.Prelude.{◌≡◌, true, ◌||◌, not, List, [], ◌∷◌, map, ℕ, ◌+◌, ◌/◌, ◌<◌, ◌≤◌, eqb, length, get_or, take, drop};
ghost use Rattle.std.proofs.Math.Option.{some};
ghost use Rattle.model.specs.Base.{all};
ghost use Rattle.model.specs.Limits.{most_options, sheet_room};
ghost use Rattle.model.specs.Code.{node_of};
ghost use Rattle.model.specs.Sheet.{body_node};
ghost use Rattle.model.specs.Book.{words};
ghost use Rattle.theory_forms.specs.Seats.{names, apart};
ghost use Rattle.common_lists.specs.Given.{given};
ghost use Rattle.common_members.specs.Marks.{marked, mark_words, Marks, admitted};
ghost use Rattle.common_members.specs.Tested.{tested};

use common_limits::{KIND_FACTOR, MOST_OPTIONS};

// Numbers one after the other: those of a sheet, or those of a book, each in two bytes.
pub trait Numbers: Copy {
    ghost numbers: { Self → List ℕ };

    fn count(self) -> usize
        ensures { result ≡ length (numbers self) };

    fn number(self, i: usize) -> usize
        requires { i < length (numbers self) }
        ensures { result ≡ get_or (numbers self) i 0 };
}

impl<'a> Numbers for &'a [u16] {
    ghost numbers = { λ s. s.now };

    fn count(self) -> usize {
        self.len()
    }

    fn number(self, i: usize) -> usize {
        usize::from(self[i])
    }
}

impl<'a> Numbers for &'a [u8] {
    ghost numbers = { λ s. words (length s.now / 2) s.now };

    #[tactic(auto, using(theory_formats::specs::Bytes::length_words))]
    fn count(self) -> usize {
        self.len() / 2
    }

    #[tactic(auto, using(theory_formats::specs::Bytes::length_words, theory_formats::specs::Bytes::word_among))]
    fn number(self, i: usize) -> usize {
        common_nodes::word_at(self, 2 * i)
    }
}

// The kind that asks for some of its members.
const LEAST_KIND: usize = 6;

// The bits of one word, and the words that have a bit for each option.
const WORD_BITS: usize = 64;

const WORDS: usize = MOST_OPTIONS / WORD_BITS;

// Marks an option, and says whether it was not marked before.
fn mark(marks: &mut [usize; WORDS], v: usize) -> bool
    requires { (v < most_options) × (length marks.old ≡ mark_words) }
    ensures value { result ≡ not (marked marks.old v) }
    ensures marks { Marks (λ w. eqb w v || marked marks.old w) marks.new }
{
    let place = v / WORD_BITS;
    let bit = v % WORD_BITS;
    let word = marks[place];
    if (word >> bit) % 2 == 1 {
        return false;
    }
    marks[place] = word | (1 << bit);
    true
}

// Whether a node may be a member before those that named the marked options; its own option is then marked too.
fn is_member(x: usize, marks: &mut [usize; WORDS]) -> bool
    requires { (body_node most_options x ≡ true) × (length marks.old ≡ mark_words) }
    ensures value { result ≡ admitted (marked marks.old) (node_of x) }
    ensures marks { Marks (λ w. names w (node_of x ∷ []) || marked marks.old w) marks.new }
{
    if common_nodes::is_literal(x) {
        mark(marks, common_nodes::value_of(x))
    } else {
        x == 3 * KIND_FACTOR || x == 4 * KIND_FACTOR
    }
}

// Whether so many numbers from a place on, which are nodes of a body, are members: read from the last, as the definition has it.
fn are_members<N: Numbers>(numbers: N, from: usize, count: usize) -> bool
    requires in_bounds { (from + count ≤ length (N.numbers numbers)) × (from + count ≤ sheet_room) }
    requires nodes { all (body_node most_options) (take count (drop from (N.numbers numbers))) ≡ true }
    ensures { result ≡ apart (map node_of (take count (drop from (N.numbers numbers)))) }
{
    let mut marks = [0; WORDS];
    for i in (0..count).rev() {
        if !is_member(numbers.number(from + i), &mut marks) {
            return false;
        }
    }
    true
}

// One node more before numbers that spell so many trees: the number at a place, where the trees of the numbers after it are known. Members
// that are none are refused like a node that lacks children.
fn join<N: Numbers>(numbers: N, i: usize, n: usize, t: usize) -> Option<usize>
    requires in_bounds { (i < length (N.numbers numbers)) × (length (N.numbers numbers) ≤ sheet_room) × (n ≤ most_options) }
    requires rest { tested n (drop (i + 1) (N.numbers numbers)) ≡ some t }
    ensures { given result ≡ tested n (drop i (N.numbers numbers)) }
{
    let x = numbers.number(i);
    let u = common_nodes::join(x, n, t)?;
    if common_nodes::kind_of(x) != LEAST_KIND {
        return Some(u);
    }
    are_members(numbers, i + 1, common_nodes::children_of(x)).then_some(u)
}

// How many trees the numbers spell, for n options: none where they spell none, or where some members are not in their seats.
pub fn count_trees<N: Numbers>(numbers: N, n: usize) -> Option<usize>
    requires { (length (N.numbers numbers) ≤ sheet_room) × (n ≤ most_options) }
    ensures { given result ≡ tested n (N.numbers numbers) }
{
    let mut trees = 0;
    for i in (0..numbers.count()).rev() {
        trees = join(numbers, i, n, trees)?;
    }
    Some(trees)
}
