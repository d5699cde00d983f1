// A clause file judged and counted in one pass: its p line, the words after it, and whether there are as many clauses as it states.
#![tactic(auto)]

ghost use Rattle.std.specs.Prelude.{◌≡◌, true, false, ◌+◌, ◌≤◌, ◌<◌, length, drop, MatchOption, IfSome};
ghost use Rattle.std.proofs.Math.Option.{none};
ghost use Rattle.texts.specs.Decimals.{is_decimal, number_in};
ghost use Rattle.texts.specs.ClauseFile.{file_of};
ghost use Rattle.theory_texts.specs.Breaks.{words_after};
ghost use Rattle.theory_texts.specs.Tally.{tally};
ghost use Rattle.import_judge.specs.Judging.{one_counted, count_told, stated_at, PlacedHead, Gives};

use import_head::Head;
use import_words::Kind;

// The words counted so far: clauses closed, marks, and whether a clause is open.
#[derive(Clone, Copy)]
pub struct Tally {
    pub clauses: usize,
    pub marks: usize,
    pub pending: bool,
}

// A clause file judged: where V's digits stand, and where the words after its p line begin; its clauses and marks.
#[derive(Clone, Copy)]
pub struct Judged {
    pub options: usize,
    pub space: usize,
    pub body: usize,
    pub clauses: usize,
    pub marks: usize,
}

// One word more.
fn counted(tally: Tally, kind: Kind) -> Tally
    requires { tally.clauses + tally.marks < 18446744073709551615 }
    ensures { result ≡ one_counted kind tally }
{
    match kind {
        Kind::Closing => Tally {
            clauses: tally.clauses + 1,
            pending: false,
            ..tally
        },
        Kind::Mark => Tally {
            marks: tally.marks + 1,
            pending: true,
            ..tally
        },
    }
}

// The words after a p line, counted: none, where a clause is open in the end or some word is neither a mark nor closes a clause.
fn count_words(text: &[u8], body: usize, options: &[u8]) -> Option<Tally>
    requires { (body ≤ length text.now) × (is_decimal options.now ≡ true) }
    ensures told { count_told result
        ≡ tally (number_in options.now) 0 0 false (words_after (drop body text.now)) }
    ensures marks_in_bounds { IfSome result (λ t. t.clauses + t.marks ≤ length text.now) }
{
    let mut so_far = Tally {
        clauses: 0,
        marks: 0,
        pending: false,
    };
    let mut at = import_bytes::past_blanks(text, body);
    // Each turn hops over a word, whose end is read.
    while at < text.len() {
        let word = import_words::read_word(text, at, options);
        let kind = word.kind?;
        so_far = counted(so_far, kind);
        at = import_bytes::past_blanks(text, word.end);
    }
    if so_far.pending { None } else { Some(so_far) }
}

// The words after a p line, if there are as many clauses as it states.
fn judge_words(text: &[u8], head: Head) -> Option<Judged>
    requires { PlacedHead text.now head }
    ensures { MatchOption result (stated_at text.now head ≡ none) (λ j. Gives (stated_at text.now head) text.now j) }
{
    let tally = count_words(text, head.body, &text[head.options..head.space])?;
    if !import_numbers::is_number(&text[head.clauses..head.body], tally.clauses) {
        return None;
    }
    Some(Judged {
        options: head.options,
        space: head.space,
        body: head.body,
        clauses: tally.clauses,
        marks: tally.marks,
    })
}

// A text judged and counted: none, where it is no clause file.
pub fn judge(text: &[u8]) -> Option<Judged>
    ensures { MatchOption result (file_of text.now ≡ none) (λ j. Gives (file_of text.now) text.now j) }
{
    let at = import_bytes::past_comments(text);
    let head = import_head::read_head(text, at)?;
    judge_words(text, head)
}
