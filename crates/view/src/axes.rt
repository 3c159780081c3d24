// The frame of a picture: where offsets, speeds and heights stand on the page, and the axes with their figures at round steps.
ghost use Rattle.std.specs.Prelude.{◌≡◌, ◌≤◌, cond};
ghost use Rattle.std.specs.Float.Ieee.{lt};

use crate::figures::{Figure, Scaled, whole};
use show::Sink;
use speed::speed_limit::lesser;
use std::fmt::{self, Display};

// A place on the page.
#[derive(Clone, Copy)]
pub struct Place {
    pub x: f64,
    pub y: f64,
}

// As a path writes it.
impl Display for Place {
    fn fmt<W: fmt::Write>(&self, f: &mut fmt::Formatter<W>) -> fmt::Result {
        write!(f, "{} {}", Figure(self.x), Figure(self.y))
    }
}

// From the lowest height to the highest.
#[derive(Clone, Copy)]
pub struct Span {
    pub low: f64,
    pub high: f64,
}

impl Span {
    // The place of a height, from 530 up to 440; in halves, which do not overflow.
    pub fn level(self, h: f64) -> f64 {
        530.0 - 90.0 * ratio(h / 2.0 - self.low / 2.0, self.high / 2.0 - self.low / 2.0)
    }
}

// What the picture shows: offsets from 0 to `last`, of which those before `begin` were dropped, speeds up to `reach`, and heights where some link has them.
#[derive(Clone, Copy)]
pub struct Frame {
    pub begin: f64,
    pub last: f64,
    pub reach: f64,
    pub heights: Option<Span>,
}

impl Frame {
    // The place of an offset across, from 60 to 1060.
    pub fn across(self, o: f64) -> f64 {
        60.0 + 1000.0 * ratio(lesser(larger(o, 0.0), self.last), self.last)
    }

    // The place of a speed, from 376 up to 96.
    pub fn up(self, v: f64) -> f64 {
        376.0 - 280.0 * lesser(ratio(ieee::size(v), self.reach), 1.0)
    }

    // Whether distances are told in kilometres, from 10,000 m on.
    fn in_kilometres(self) -> bool {
        10000.0 <= self.last
    }

    // The metres of one on the distance axis.
    fn unit(self) -> f64 {
        if self.in_kilometres() { 1000.0 } else { 1.0 }
    }
}

// b where a is below it, otherwise a; f64::max would answer b for an a that is no number.
pub fn larger(a: f64, b: f64) -> f64
    ensures { result ≡ cond (lt a b) b a }
{
    if a < b { b } else { a }
}

// a over b; 0 where b is not above 0.
fn ratio(a: f64, b: f64) -> f64 {
    if 0.0 < b { a / b } else { 0.0 }
}

// A power of ten.
#[derive(Clone, Copy)]
struct Ten {
    power: i32,
    value: f64,
}

// The largest power of ten from 1 on that is not above x; 1 where x is below 10.
fn ten_up(x: f64) -> Ten {
    let mut ten = Ten {
        power: 0,
        value: 1.0,
    };
    for power in 1..321 {
        let value = ten.value * 10.0;
        if !(value <= x) {
            return ten;
        }
        ten = Ten { power, value };
    }
    ten
}

// The largest power of ten up to t that is not above x.
fn ten_down(t: Ten, x: f64) -> Ten {
    let mut ten = t;
    for power in (-400..t.power).rev() {
        if ten.value <= x {
            return ten;
        }
        let value = ten.value / 10.0;
        ten = Ten { power, value };
    }
    ten
}

// What a round step has of a power of ten.
#[derive(Clone, Copy)]
pub enum Digit {
    One,
    Two,
    Five,
}

impl Digit {
    // n times 1, 2 or 5.
    fn times(self, n: u64) -> u64
        requires { n ≤ 1000000000000000 }
    {
        match self {
            Digit::One => n,
            Digit::Two => 2 * n,
            Digit::Five => 5 * n,
        }
    }

    // x times 1, 2 or 5.
    fn of(self, x: f64) -> f64 {
        match self {
            Digit::One => x,
            Digit::Two => 2.0 * x,
            Digit::Five => 5.0 * x,
        }
    }
}

// A round step: 1, 2 or 5 times a power of ten, and its size.
#[derive(Clone, Copy)]
pub struct Step {
    pub digit: Digit,
    pub power: i32,
    pub each: f64,
}

impl Step {
    // k steps in figures.
    fn figures(self, k: f64) -> Scaled {
        Scaled {
            digits: self.digit.times(whole(k)),
            power: self.power,
        }
    }
}

// The smallest round step that is not below `least`; 1 where that is not above 0.
pub fn round_step(least: f64) -> Step {
    if !((0.0 < least) & ieee::is_finite(least)) {
        return Step {
            digit: Digit::One,
            power: 0,
            each: 1.0,
        };
    }
    let Ten { power, value } = ten_down(ten_up(least), least);
    for digit in [Digit::One, Digit::Two, Digit::Five] {
        let each = digit.of(value);
        if least <= each {
            return Step { digit, power, each };
        }
    }
    Step {
        digit: Digit::One,
        power: power.saturating_add(1),
        each: 10.0 * value,
    }
}

// Offsets across in metres, speeds in m/s at the left, in km/h at the right, heights in metres at the left.
#[derive(Clone, Copy)]
enum Axis {
    Distance,
    Speed,
    Hourly,
    Height(Span),
}

// A line of a tick.
fn line(out: Sink, class: &str, from: Place, letter: char, to: f64) {
    write!(
        out,
        "<path class=\"{class}\" d=\"M{from}{letter}{}\"/>\n",
        Figure(to),
    );
}

// A text at a place.
pub fn text<D: Display + Drop>(out: Sink, class: &str, at: Place, words: D) {
    write!(
        out,
        "<text class=\"{class}\" x=\"{}\" y=\"{}\">{words}</text>\n",
        Figure(at.x),
        Figure(at.y),
    );
}

// A line across the picture at a height on the page, and its figure at the left.
fn grid_line<D: Display + Drop>(out: Sink, y: f64, figure: D) {
    line(out, "grid", Place { x: 54.0, y }, 'H', 1060.0);
    text(
        out,
        "end",
        Place {
            x: 50.0,
            y: y + 4.0,
        },
        figure,
    );
}

// The tick of k steps.
fn tick(out: Sink, f: Frame, axis: Axis, k: f64, s: Step) {
    let v = k * s.each;
    let sign = if k < 0.0 { "-" } else { "" };
    let figure = format_args!("{sign}{}", s.figures(k));
    match axis {
        Axis::Distance => {
            let x = f.across(v * f.unit());
            line(out, "tick", Place { x, y: 376.0 }, 'V', 382.0);
            text(out, "middle", Place { x, y: 395.0 }, figure);
        }
        Axis::Speed => grid_line(out, f.up(v), figure),
        Axis::Hourly => {
            let y = f.up(v / 3.6);
            line(out, "tick", Place { x: 1060.0, y }, 'H', 1066.0);
            text(
                out,
                "start",
                Place {
                    x: 1070.0,
                    y: y + 4.0,
                },
                figure,
            );
        }
        Axis::Height(span) => grid_line(out, span.level(v), figure),
    }
}

// The ticks of an axis from `low` to `high`, at most 20, about as many as asked for.
fn ticks(out: Sink, f: Frame, axis: Axis, low: f64, high: f64, most: f64) {
    let s = round_step(high / most - low / most);
    let begin = low / s.each;
    if !(ieee::size(begin) < 100000000000000.0) {
        return;
    }
    let first = (begin - 0.000001).ceil();
    for i in 0..20 {
        let k = first + f64::from(i);
        if !((k - 0.000001) * s.each <= high) {
            return;
        }
        tick(out, f, axis, k, s);
    }
}

// The words beside the axes.
fn units(out: Sink, f: Frame) {
    text(out, "end", Place { x: 50.0, y: 84.0 }, "m/s");
    text(out, "start", Place { x: 1070.0, y: 84.0 }, "km/h");
    let distance = if f.in_kilometres() {
        "distance in km"
    } else {
        "distance in m"
    };
    text(out, "middle", Place { x: 560.0, y: 412.0 }, distance);
    if f.heights.is_some() {
        text(out, "start", Place { x: 60.0, y: 432.0 }, "height in m");
    }
}

// The axes.
pub fn axes(out: Sink, f: Frame) {
    ticks(out, f, Axis::Speed, 0.0, f.reach, 7.0);
    ticks(out, f, Axis::Hourly, 0.0, f.reach * 3.6, 7.0);
    ticks(out, f, Axis::Distance, 0.0, f.last / f.unit(), 10.0);
    write!(out, "<path class=\"axis\" d=\"M60 96V376H1060V96\"/>\n");
    if let Some(span) = f.heights {
        ticks(out, f, Axis::Height(span), span.low, span.high, 5.0);
        write!(out, "<path class=\"axis\" d=\"M60 440V530H1060\"/>\n");
    }
    units(out, f);
}
