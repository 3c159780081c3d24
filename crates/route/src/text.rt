// Lines of a text and their fields: fields are apart by blanks, and from # to the line's end is a comment.
ghost use Rattle.std.specs.Prelude.{◌≡◌, ◌<◌, length, drop, ◌-◌, position, not};
ghost use Rattle.std.specs.Iterator.{at_most};
ghost use Rattle.route.specs.Text as spec;

// A line is given by a text and the place where it begins, since the train's line is kept so; a line alone begins at 0. A field is given by its places
// as well: the next one is looked for from its end on.
// Where a field begins and ends; at one place where there is none.
#[derive(Clone, Copy)]
pub struct Span {
    pub from: usize,
    pub to: usize,
}

// Whether a byte is a blank.
#[tactic(auto, unfolding(crate::specs::Text::is_blank))]
fn is_blank(b: u8) -> bool
    ensures { result ≡ spec.is_blank b }
{
    (b == b' ') | ((b == b'\t') | (b == b'\r'))
}

// Whether a byte belongs to a field.
#[tactic(auto, unfolding(crate::specs::Text::in_field))]
fn in_field(b: u8) -> bool
    ensures { result ≡ spec.in_field b }
{
    !(is_blank(b) | ((b == b'\n') | (b == b'#')))
}

// Whether a byte is no line end.
#[tactic(auto, unfolding(crate::specs::Text::in_line))]
fn in_line(b: u8) -> bool
    ensures { result ≡ spec.in_line b }
{
    b != b'\n'
}

// The text from `at` on.
fn rest(text: &[u8], at: usize) -> &[u8]
    ensures { result.now ≡ drop at text.now }
{
    text.get(at..).unwrap_or(&[])
}

// Three searches that differ in their test: one over a closure would have to say in its contract what the closure answers, and be no plainer.
// The first place without a blank.
fn first_unblank(text: &[u8]) -> Option<usize>
    ensures { result ≡ position (λ b. not (spec.is_blank b)) text.now }
{
    text.iter().position(|b| !is_blank(*b))
}

// The first place that belongs to no field.
fn first_outside(text: &[u8]) -> Option<usize>
    ensures { result ≡ position (λ b. not (spec.in_field b)) text.now }
{
    text.iter().position(|b| !in_field(*b))
}

// The first line end.
fn first_end(text: &[u8]) -> Option<usize>
    ensures { result ≡ position (λ b. not (spec.in_line b)) text.now }
{
    text.iter().position(|b| !in_line(*b))
}

// The field that begins at `at` or behind the blanks there.
pub fn field_from(text: &[u8], at: usize) -> Span
    ensures { result ≡ spec.field_from text.now at }
{
    let blanks = rest(text, at);
    let from = at + first_unblank(blanks).unwrap_or(blanks.len());
    let field = rest(text, from);
    Span {
        from,
        to: from + first_outside(field).unwrap_or(field.len()),
    }
}

// Field k, from 0, of the line that begins at `at`.
pub fn field(text: &[u8], at: usize, k: usize) -> Span
    ensures { result ≡ spec.field text.now at k }
{
    let mut s = field_from(text, at);
    for _ in 0..k {
        s = field_from(text, s.to);
    }
    s
}

// The bytes of a span; none where it lies outside the text.
pub fn part(text: &[u8], s: Span) -> &[u8]
    ensures { result.now ≡ spec.bytes_of text.now s }
{
    let from = s.from;
    let to = s.to;
    if text.len() < to {
        return &text[0..0];
    }
    if to < from {
        return &text[0..0];
    }
    &text[from..to]
}

// Where the line behind the one at `at` begins; the text's end behind the last one.
pub fn next_line(text: &[u8], at: usize) -> usize
    requires { at < length text.now }
    ensures { (result ≡ spec.next_line text.now at) × (at < result) }
{
    match first_end(rest(text, at)) {
        Some(k) => at + k + 1,
        None => text.len(),
    }
}

// The lines of a text: where each begins.
#[derive(Drop)]
pub struct LineStarts<'a> {
    text: &'a [u8],
    at: usize,
}

pub fn lines(text: &[u8]) -> LineStarts<'_>
    ensures text { result.text.now ≡ text.now }
    ensures from_its_beginning { result.at ≡ 0 }
{
    LineStarts { text, at: 0 }
}

impl Iterator for LineStarts<'_> {
    type Item = usize;

    ghost next_gives = { λ l line m. spec.NextLine l.text.now l.at line m.text.now m.at };

    ghost remaining = { λ l. at_most (length l.text.now - l.at) };

    fn next(&mut self) -> Option<usize> {
        let at = self.at;
        if self.text.len() <= at {
            return None;
        }
        self.at = next_line(self.text, at);
        Some(at)
    }
}
