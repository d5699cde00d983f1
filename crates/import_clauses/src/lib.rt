// An imported book, written from the words of a clause file that has been judged good.
#![tactic(auto)]

ghost use Rattle.std.specs.Prelude.{true, ◌≡◌, ◌∷◌, [], ◌+◌, ◌*◌, ◌≤◌, ◌<◌, length, drop};
ghost use Rattle.std.proofs.Math.Option.{some};
ghost use Rattle.std.proofs.lemmas.List.Edits.{sets};
ghost use Rattle.model.specs.Base.{is_some, placed};
ghost use Rattle.model.specs.Limits.{most_options, sheet_room, head_length, code_length};
ghost use Rattle.model.specs.Literal.{literal};
ghost use Rattle.model.specs.Code.{leaf};
ghost use Rattle.model.specs.Book.{bytes_of};
ghost use Rattle.texts.specs.ClauseFile.{mark_by, mark_of_word};
ghost use Rattle.texts.specs.ClauseBook.{nodes_of_file, book_of_file};
ghost use Rattle.theory_texts.specs.Figures.{run};
ghost use Rattle.theory_texts.specs.WordKinds.{digits_of, word_length, word_at};
ghost use Rattle.import_clauses.specs.Drafts.{closed, with_nodes, drafted};
ghost use Rattle.import_clauses.specs.FileFrom.{clauses_from, file_from, JudgedGood};

use common_limits::{CODE_LENGTH, HEAD_LENGTH, KIND_FACTOR};

// What a judged text gives its book: where its words begin, and how many options, rules and nodes there are.
#[derive(Clone, Copy)]
pub struct Shape {
    pub body: usize,
    pub options: usize,
    pub rules: usize,
    pub nodes: usize,
}

// A mark, and the place after its word.
#[derive(Clone, Copy)]
struct Mark {
    option: usize,
    barred: bool,
    end: usize,
}

// The pair of contents of one rule: where its body begins, and its node count.
fn put_pair(out: &mut [u8], contents: usize, k: usize, first: usize, count: usize)
    requires { contents + 4 * k + 4 ≤ length out.old }
    ensures { out.new ≡ sets out.old (contents + 4 * k) (bytes_of (first ∷ count ∷ [])) }
{
    let at = contents + 4 * k;
    book_bytes::put_word(out, at, first);
    book_bytes::put_word(out, at + 2, count);
}

// A mark, at a node of the bodies.
fn put_mark(out: &mut [u8], bodies: usize, next: usize, mark: Mark)
    requires { (mark.option < most_options) × (bodies + 2 * next + 2 ≤ length out.old) }
    ensures { out.new ≡ with_nodes bodies next (leaf (literal mark.option mark.barred) ∷ []) out.old }
{
    let number = sheet_append::number_of(mark.option as u16, mark.barred);
    book_bytes::put_word(out, bodies + 2 * next, usize::from(number));
}

// A rule whose marks stand already: its any-of, kind 4, before them, and its pair of contents.
fn put_rule(out: &mut [u8], contents: usize, bodies: usize, k: usize, first: usize, next: usize)
    requires first_lt_next { (first < next) × (next ≤ sheet_room) × (contents + 4 * k + 4 ≤ length out.old) }
    requires first_in_bounds { bodies + 2 * first + 2 ≤ length out.old }
    ensures { out.new ≡ closed contents bodies k first next out.old }
{
    let count = next - first;
    book_bytes::put_word(out, bodies + 2 * first, 4 * KIND_FACTOR + (count - 1));
    put_pair(out, contents, k, first, count);
}

// The mark whose digits stand at a place.
fn read_number(text: &[u8], from: usize, barred: bool) -> Mark
    requires { (from ≤ length text.now) × (is_some (mark_by most_options barred (digits_of (drop from text.now))) ≡ true) }
    ensures { let b = drop from text.now in
        (mark_by most_options barred (digits_of b) ≡ some (literal result.option result.barred))
        × (result.end ≡ from + run b) × (result.end ≤ length text.now) }
{
    let end = import_bytes::past_digits(text, from);
    let number = import_numbers::small_number(&text[from..end]);
    Mark {
        option: number - 1,
        barred,
        end,
    }
}

// The mark that the word at a place is: barred, where a minus stands before its digits.
fn read_mark(text: &[u8], at: usize) -> Mark
    requires { (at < length text.now) × (is_some (mark_of_word most_options (word_at (drop at text.now))) ≡ true) }
    ensures { let b = drop at text.now in
        (mark_of_word most_options (word_at b) ≡ some (literal result.option result.barred))
        × (result.end ≡ at + word_length b) × (result.end ≤ length text.now) }
{
    if text[at] == b'-' {
        read_number(text, at + 1, true)
    } else {
        read_number(text, at, false)
    }
}

// The clauses of a judged text, in one pass over their words: marks as they come, and at each 0 the rule that ends there.
fn put_clauses(text: &[u8], shape: Shape, out: &mut [u8])
    requires judged_good { JudgedGood text.now shape.body shape.options shape.rules }
    requires body_in_bounds { length (book_of_file (file_from shape.options text.now shape.body)) ≤ length out.old }
    ensures { let contents = head_length + code_length * shape.options in
        let clauses = clauses_from shape.options text.now shape.body in
        out.new ≡ drafted contents (contents + 4 * shape.rules) 0 0 1 clauses out.old }
{
    let contents = HEAD_LENGTH + CODE_LENGTH * shape.options;
    let bodies = contents + 4 * shape.rules;
    let mut k = 0;
    let mut first = 0;
    let mut next = 1;
    let mut at = import_bytes::past_blanks(text, shape.body);
    // Each turn hops over a word, whose end is read.
    while at < text.len() {
        if text[at] == b'0' {
            put_rule(out, contents, bodies, k, first, next);
            k += 1;
            first = next;
            next += 1;
            at = import_bytes::past_blanks(text, at + 1);
        } else {
            let mark = read_mark(text, at);
            put_mark(out, bodies, next, mark);
            next += 1;
            at = import_bytes::past_blanks(text, mark.end);
        }
    }
}

// The book of a judged text: its head, its codes, and its clauses.
pub fn put_book(text: &[u8], shape: Shape, out: &mut [u8])
    requires judged_good { JudgedGood text.now shape.body shape.options shape.rules }
    requires nodes_value { shape.nodes ≡ length (nodes_of_file (file_from shape.options text.now shape.body)) }
    requires body_in_bounds { length (book_of_file (file_from shape.options text.now shape.body)) ≤ length out.old }
    ensures { out.new ≡ placed (book_of_file (file_from shape.options text.now shape.body)) out.old }
{
    book_bytes::put_head(out, shape.options, shape.rules, shape.nodes);
    import_codes::put_codes(shape.options, &mut out[HEAD_LENGTH..]);
    put_clauses(text, shape, out);
}
