// What holds at an offset, a limit or the top speed, and up to where; and the lowest limit that covers it.
ghost use Rattle.std.specs.Prelude.{◌≡◌, find};
ghost use Rattle.view.specs.Holders as spec;

use si::Velocity;
use speed::laid::Laid;
use speed::speed_limit::lesser;

// A limit, or the top speed.
#[derive(Clone, Copy)]
pub enum Held {
    Limit(Laid),
    Top,
}

// Whether a limit covers x, its tail counted in, and has the size of v.
#[tactic(auto, unfolding(crate::specs::Holders::holds))]
fn holds(l: Laid, x: f64, v: f64) -> bool
    ensures { result ≡ spec.holds x v l }
{
    ((l.start <= x) & (x < l.end)) & (ieee::size(l.value) == ieee::size(v))
}

// The first of the limits that holds v at x.
fn holder(limits: &[Laid], x: f64, v: f64) -> Option<Laid>
    ensures { result ≡ find (spec.holds x v) limits.now }
{
    limits.iter().copied().find(|l| holds(*l, x, v))
}

// What holds v at x: the first of the limits that does, otherwise the top speed where v has its size; none only where a limit that was laid is not among
// those given.
#[tactic(auto, unfolding(crate::specs::Holders::held_by))]
pub fn held_by(limits: &[Laid], x: f64, v: f64, top: Velocity) -> Option<Held>
    ensures { result ≡ spec.held_by limits.now x v top.0 }
{
    match holder(limits, x, v) {
        Some(l) => Some(Held::Limit(l)),
        None if ieee::size(v) == ieee::size(top.0) => Some(Held::Top),
        None => None,
    }
}

// The start of a limit with the size of v where it is behind x and before `to`, otherwise `to`.
#[tactic(auto, unfolding(crate::specs::Holders::sooner))]
fn sooner(l: Laid, x: f64, to: f64, v: f64) -> f64
    ensures { result ≡ spec.sooner x v to l }
{
    if (x < l.start) & (ieee::size(l.value) == ieee::size(v)) {
        return lesser(to, l.start);
    }
    to
}

// The first start behind x, and before `to`, of a limit with the size of v; `to` where there is none.
fn next_start(limits: &[Laid], x: f64, to: f64, v: f64) -> f64
    ensures { result ≡ spec.next_start limits.now x to v }
{
    limits.iter().fold(to, |first, l| sooner(*l, x, first, v))
}

// Where the part of a limit that x lies in ends, no later than `to`: its board, then its tail.
fn part_end(l: Laid, x: f64, to: f64) -> f64
    ensures { result ≡ spec.part_end l.board l.end x to }
{
    if x < l.board {
        return lesser(lesser(l.board, to), l.end);
    }
    lesser(l.end, to)
}

// Where a row that begins at x ends, no later than `to`: with the board of the limit that holds it, then with its tail; otherwise at the next limit's start.
#[tactic(auto, unfolding(crate::specs::Holders::piece_end))]
pub fn piece_end(limits: &[Laid], x: f64, to: f64, v: f64, held: Option<Held>) -> f64
    ensures { result ≡ spec.piece_end limits.now x to v held }
{
    match held {
        Some(Held::Limit(l)) => part_end(l, x, to),
        Some(Held::Top) => next_start(limits, x, to, v),
        None => next_start(limits, x, to, v),
    }
}

// Whether a limit covers x, its tail counted in, with a size below that of v.
#[tactic(auto, unfolding(crate::specs::Holders::below))]
fn below(l: Laid, x: f64, v: f64) -> bool
    ensures { result ≡ spec.below x v l }
{
    ((l.start <= x) & (x < l.end)) & (ieee::size(l.value) < ieee::size(v))
}

// The speed of the limit found; v where none is.
fn speed_or(v: f64, found: Option<Laid>) -> f64
    ensures { result ≡ spec.speed_or v found }
{
    match found {
        Some(l) => l.value,
        None => v,
    }
}

// A limit in the place of the one found, where it covers x with a smaller size; v has the size to go below at first.
#[tactic(auto, unfolding(crate::specs::Holders::lower))]
fn lower(found: Option<Laid>, l: Laid, x: f64, v: f64) -> Option<Laid>
    ensures { result ≡ spec.lower x v found l }
{
    if below(l, x, speed_or(v, found)) {
        Some(l)
    } else {
        found
    }
}

// Of the limits the first with the smallest size among those that cover x with a size below that of v; none where none does.
pub fn lowest_below(limits: &[Laid], x: f64, v: f64) -> Option<Laid>
    ensures { result ≡ spec.lowest limits.now x v }
{
    limits.iter().fold(None, |found, l| lower(found, *l, x, v))
}
