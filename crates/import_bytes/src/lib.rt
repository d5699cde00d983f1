// The bytes of a clause file, from a place on: where a line ends, and how far blanks, digits and comment lines go.
#![tactic(auto)]

ghost use Rattle.std.specs.Prelude.{◌≡◌, false, ◌+◌, ◌≤◌, ◌<◌, eqb, length, get_or, drop};
ghost use Rattle.model.specs.Base.{all};
ghost use Rattle.texts.specs.ClauseFile.{file_of};
ghost use Rattle.theory_texts.specs.Breaks.{breaks};
ghost use Rattle.theory_texts.specs.Spans.{span};
ghost use Rattle.theory_texts.specs.Figures.{run};
ghost use Rattle.theory_texts.specs.Comments.{no_end, line_length};
ghost use Rattle.theory_texts.specs.PLines.{ends_line};

// The bytes of a comment that are looked at together.
const BLOCK: usize = 32;

// Whether a line ends here: by 10, by 13 directly before 10, or by the end of the text.
pub fn ends_line_at(text: &[u8], at: usize) -> bool
    requires { at ≤ length text.now }
    ensures { result ≡ ends_line (drop at text.now) }
{
    if text.len() <= at {
        true
    } else if text[at] == b'\r' {
        at + 1 < text.len() && text[at + 1] == b'\n'
    } else {
        text[at] == b'\n'
    }
}

// Whether a blank stands here, or a line ends.
pub fn breaks_at(text: &[u8], at: usize) -> bool
    requires { at ≤ length text.now }
    ensures { result ≡ breaks (drop at text.now) }
{
    text.len() <= at || text[at] == b' ' || text[at] == b'\t' || ends_line_at(text, at)
}

// The place after the blanks and line ends that stand here.
pub fn past_blanks(text: &[u8], at: usize) -> usize
    requires { at ≤ length text.now }
    ensures { (result ≡ at + span breaks (drop at text.now)) × (result ≤ length text.now) }
{
    for i in at..text.len() {
        if !breaks_at(text, i) {
            return i;
        }
    }
    text.len()
}

// The place after the digits that stand here.
pub fn past_digits(text: &[u8], at: usize) -> usize
    requires { at ≤ length text.now }
    ensures { (result ≡ at + run (drop at text.now)) × (result ≤ length text.now) }
{
    at + text[at..].iter().take_while(|b| b.is_ascii_digit()).count()
}

// No 10 stands in a stretch. All of it is read, with no way out before its last byte, so that the machine can take many at a time.
fn goes_on(s: &[u8]) -> bool
    ensures { result ≡ all no_end s.now }
{
    let mut on = true;
    for b in s {
        on &= *b != b'\n';
    }
    on
}

// A place not past the end of the line, after as many whole blocks as have no 10.
fn past_blocks(text: &[u8], at: usize) -> usize
    requires { at ≤ length text.now }
    ensures { let l = text.now in
        (result ≤ length l) × (result + line_length (drop result l) ≡ at + line_length (drop at l)) }
{
    let mut i = at;
    // Each turn hops by a block.
    while BLOCK <= text.len() - i && goes_on(&text[i..i + BLOCK]) {
        i += BLOCK;
    }
    i
}

// The place of the line's 10, or the end of the text.
fn line_end(text: &[u8], at: usize) -> usize
    requires { at ≤ length text.now }
    ensures { (result ≡ at + line_length (drop at text.now)) × (result ≤ length text.now) }
{
    let from = past_blocks(text, at);
    from + text[from..].iter().take_while(|b| **b != b'\n').count()
}

// The place after all comment lines: no other begins there.
pub fn past_comments(text: &[u8]) -> usize
    ensures { (result ≤ length text.now)
        × (file_of (drop result text.now) ≡ file_of text.now)
        × (eqb (get_or (drop result text.now) 0 0) 99 ≡ false) }
{
    let mut at = 0;
    // Each turn hops over a line, whose end is looked for.
    while at < text.len() && text[at] == b'c' {
        let end = line_end(text, at);
        if text.len() <= end {
            return end;
        }
        at = end + 1;
    }
    at
}
