// A text's lines, and the fields of a line.
ghost use Rattle.std.specs.Prelude.{◌≡◌, ◌<◌, ◌≤◌, [], ◌∷◌, length, drop, true, false, IfSome, IfNone};
ghost use Rattle.inc_script.specs.Lines.{fields_from, fields_of, lines_of, part_before, part_from, tail_fields};

/// The bytes before the first that is `stop`, and those from there on.
#[tactic(auto, using(crate::proofs::LineLemmas::cuts))]
pub fn cut_at(bytes: &[u8], stop: u8) -> (&[u8], &[u8])
    ensures before { result.0.now ≡ part_before stop bytes.now }
    ensures from { result.1.now ≡ part_from stop bytes.now }
    ensures shorter { length result.1.now ≤ length bytes.now }
{
    for (at, byte) in bytes.iter().enumerate() {
        if *byte == stop {
            return bytes.split_at(at);
        }
    }
    (bytes, &[])
}

/// The first line of a text, and the text behind its line feed.
pub fn first_line(text: &[u8]) -> (&[u8], &[u8])
    requires some { 0 < length text.now }
    ensures lines { lines_of text.now ≡ result.0.now ∷ lines_of result.1.now }
    ensures shorter { length result.1.now < length text.now }
{
    let (line, rest) = cut_at(text, b'\n');
    match rest {
        [] => (line, rest),
        [_, after @ ..] => (line, after),
    }
}

/// The first field of a line, and what stands behind it: nothing, or spaces and more fields.
#[tactic(auto, using(crate::proofs::LineLemmas::first_field))]
pub fn first_field(line: &[u8]) -> (&[u8], &[u8])
    ensures fields { fields_of line.now ≡ result.0.now ∷ tail_fields result.1.now }
    ensures shorter { length result.1.now ≤ length line.now }
{
    cut_at(line, b' ')
}

/// The next field, of what stands behind one, and what stands behind it.
pub fn next_field(tail: &[u8]) -> Option<(&[u8], &[u8])>
    ensures some { IfSome result (λ next. tail_fields tail.now ≡ next.0.now ∷ tail_fields next.1.now) }
    ensures shorter { IfSome result (λ next. length next.1.now < length tail.now) }
    ensures none { IfNone result (tail.now ≡ []) }
{
    match tail {
        [] => None,
        [_, after @ ..] => Some(first_field(without_spaces(after))),
    }
}

/// What stands behind the spaces at the front.
#[tactic(auto, using(crate::proofs::LineLemmas::space_passed, crate::proofs::LineLemmas::no_space))]
fn without_spaces(bytes: &[u8]) -> &[u8]
    ensures fields { fields_from true bytes.now ≡ fields_of result.now }
    ensures shorter { length result.now ≤ length bytes.now }
{
    let mut rest = bytes;
    while let [first, after @ ..] = rest {
        if *first != b' ' {
            return rest;
        }
        rest = after;
    }
    rest
}

/// How many fields stand there.
pub fn count_fields(tail: &[u8]) -> usize
    ensures value { result ≡ length (tail_fields tail.now) }
    ensures few { result ≤ length tail.now }
{
    let mut count = 0;
    let mut rest = tail;
    while let Some((_, after)) = next_field(rest) {
        count += 1;
        rest = after;
    }
    count
}
