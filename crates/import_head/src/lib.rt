// The p line of a clause file: what it begins with, V, C and its end, and where they stand.
#![tactic(auto)]

ghost use Rattle.std.specs.Prelude.{◌≡◌, ◌≤◌, length, drop, is_some, IfSome};
ghost use Rattle.theory_texts.specs.PLines.{has_p_line};
ghost use Rattle.import_head.specs.Heads.{rest_good, Rest, Stands};

// Where the two numbers of a p line stand: V's digits before the space, C's after it and before the body.
#[derive(Clone, Copy)]
pub struct Head {
    pub options: usize,
    pub space: usize,
    pub clauses: usize,
    pub body: usize,
}

// The rest of a p line after V: a space, C, and the line's end.
fn read_rest(text: &[u8], options: usize, space: usize) -> Option<Head>
    requires { space ≤ length text.now }
    ensures found { is_some result ≡ rest_good text.now space }
    ensures rest { IfSome result (λ h. Rest text.now options space h) }
{
    if text.len() <= space || text[space] != b' ' {
        return None;
    }
    let clauses = space + 1;
    let body = import_bytes::past_digits(text, clauses);
    if !import_numbers::is_decimal(&text[clauses..body])
        || !import_bytes::ends_line_at(text, body)
    {
        return None;
    }
    Some(Head {
        options,
        space,
        clauses,
        body,
    })
}

// The p line that a text has at a place, if any.
pub fn read_head(text: &[u8], at: usize) -> Option<Head>
    requires { at ≤ length text.now }
    ensures found { is_some result ≡ has_p_line (drop at text.now) }
    ensures stands { IfSome result (λ h. Stands text.now at h) }
{
    if !text[at..].starts_with(b"p cnf ") {
        return None;
    }
    let options = at + 6;
    let space = import_bytes::past_digits(text, options);
    if !import_numbers::is_decimal(&text[options..space]) {
        return None;
    }
    read_rest(text, options, space)
}
