// The picture of a run as SVG: distance across, the speed posted as a step line, limits with their tails, link borders, dropped links grey, heights below.
use crate::axes::{Frame, Place, Span, axes, larger, text};
use crate::figures::{Figure, digit_count};
use crate::legend::{legend, title};
use crate::profile::{Border, Height};
use crate::stretches::Posted;
use link::train_params::TrainParams;
use show::Sink;
use speed::laid::Laid;
use speed::speed_limit::lesser;

// What speeds from v on are shaded with, from one offset to another.
fn bar(out: Sink, f: Frame, from: f64, to: f64, v: f64) {
    if (from < to) & (from < f.last) & (0.0 < to) {
        let x = f.across(from);
        let left = Figure(x);
        let right = Figure(larger(f.across(to), x + 1.0));
        write!(out, "M{left} {}H{right}V96H{left}Z", Figure(f.up(v)));
    }
}

// Limits, over the tails: all of either as one shape, so that they have one shade where they overlap.
fn limits(out: Sink, f: Frame, all: &[Laid]) {
    write!(out, "<path class=\"tail\" d=\"");
    for l in all {
        bar(out, f, l.board, l.end, l.value);
    }
    write!(out, "\"/>\n<path class=\"board\" d=\"");
    for l in all {
        bar(out, f, l.start, l.board, l.value);
    }
    write!(out, "\"/>\n");
}

// Links that were dropped.
fn dropped(out: Sink, f: Frame) {
    if 0.0 < f.begin {
        let right = Figure(f.across(f.begin));
        write!(out, "<path class=\"dropped\" d=\"M60 96H{right}V376H60Z");
        if f.heights.is_some() {
            write!(out, "M60 440H{right}V530H60Z");
        }
        write!(out, "\"/>\n");
    }
}

// A border across the picture, one of n; of many a mark over it.
fn border_at(out: Sink, f: Frame, x: f64, n: usize) {
    let across = Figure(x);
    if 80 < n {
        write!(out, "M{across} 88V96");
        return;
    }
    write!(out, "M{across} 76V376");
    if f.heights.is_some() {
        write!(out, "M{across} 440V530");
    }
}

// Link borders; one that is not two wide from the last drawn is left out.
fn borders(out: Sink, f: Frame, all: &[Border]) {
    write!(out, "<path class=\"border\" d=\"");
    let mut drawn = 0.0;
    for border in all {
        let x = f.across(border.offset);
        if drawn + 2.0 <= x {
            border_at(out, f, x, all.len());
            drawn = x;
        }
    }
    write!(out, "\"/>\n");
}

// The number of a link from x on, where there is room for it in the width.
fn link_number(out: Sink, x: f64, width: f64, link: u32) {
    let digits = 8.0 * f64::from(digit_count(link as u64));
    if width < digits + 4.0 {
        return;
    }
    let word = if digits + 34.0 <= width { "link " } else { "" };
    let middle = Place {
        x: x + width / 2.0,
        y: 84.0,
    };
    text(out, "middle", middle, format_args!("{word}{link}"));
}

// The links' numbers, each up to the next border.
fn numbers(out: Sink, f: Frame, all: &[Border]) {
    for (i, border) in all.iter().enumerate() {
        let end = match all.get(i + 1) {
            Some(next) => next.offset,
            None => f.last,
        };
        let x = f.across(border.offset);
        link_number(out, x, f.across(end) - x, border.link);
    }
}

// The speed posted where the path begins.
fn beginning(f: Frame, posted: Posted) -> f64 {
    let point = (0..posted.len())
        .rev()
        .map(|k| posted.at(k))
        .find(|p| p.offset.0 <= f.begin)
        .unwrap_or(posted.at(0));
    point.speed_limit.0
}

// The speeds posted, as a step line from the path's beginning to its end.
fn steps(out: Sink, f: Frame, posted: Posted) {
    let first = Place {
        x: f.across(f.begin),
        y: f.up(beginning(f, posted)),
    };
    write!(out, "<path class=\"posted\" d=\"M{first}");
    for k in 0..posted.len() {
        let p = posted.at(k);
        let o = p.offset.0;
        if (f.begin < o) & (o < f.last) {
            let across = Figure(f.across(o));
            write!(out, "H{across}V{}", Figure(f.up(p.speed_limit.0)));
        }
    }
    write!(out, "H{}\"/>\n", Figure(f.across(f.last)));
}

// The heights: points of a line that goes on behind each but a break.
fn heights(out: Sink, f: Frame, span: Span, all: &[Height]) {
    write!(out, "<path class=\"height\" d=\"");
    let mut letter = 'M';
    for h in all {
        letter = match h.height {
            Some(height) => {
                let at = Place {
                    x: f.across(h.offset),
                    y: span.level(height),
                };
                write!(out, "{letter}{at}");
                'L'
            }
            None => 'M',
        };
    }
    write!(out, "\"/>\n");
}

// From the lowest to the highest of the heights; none where there are breaks alone. Heights that are all one get room around them.
fn span_of(all: &[Height]) -> Option<Span> {
    let mut low = f64::INFINITY;
    let mut high = f64::NEG_INFINITY;
    for height in all.iter().filter_map(|h| h.height) {
        low = lesser(low, height);
        high = larger(high, height);
    }
    if !(low <= high) {
        return None;
    }
    if low == high {
        let room = larger(0.5, ieee::size(low) / 1000000.0);
        return Some(Span {
            low: low - room,
            high: high + room,
        });
    }
    Some(Span { low, high })
}

// How each class is drawn.
const STYLE: &str = ".page { fill: white }
.title { font-size: 15px; font-weight: bold }
.middle { text-anchor: middle }
.end { text-anchor: end }
.axis { fill: none; stroke: black }
.tick { stroke: black }
.grid { stroke: black; stroke-opacity: 0.15 }
.dropped { fill: #808080; fill-opacity: 0.3 }
.board { fill: #f1b3b4 }
.tail { fill: #ffdbda }
.border { stroke: #808080; stroke-width: 0.7; stroke-dasharray: 5 3 }
.posted { fill: none; stroke: #1f3f9f; stroke-width: 2.5 }
.height { fill: none; stroke: #2ca02c; stroke-width: 2; stroke-linecap: round }
";

// The page, as high as asked for.
fn head(out: Sink, height: usize) {
    write!(
        out,
        "<svg xmlns=\"http://www.w3.org/2000/svg\" viewBox=\"0 0 1120 {height}\" font-family=\"sans-serif\" font-size=\"12\">\n",
    );
    write!(out, "<style>\n{STYLE}</style>\n");
    write!(
        out,
        "<rect class=\"page\" width=\"1120\" height=\"{height}\"/>\n"
    );
}

// A run: the file and the train, the path from `begin` to `last`, and what was joined since `new`.
#[derive(Clone, Copy)]
pub struct Picture<'a> {
    pub name: &'a [u8],
    pub train: TrainParams,
    pub begin: f64,
    pub last: f64,
    pub posted: Posted<'a>,
    pub limits: &'a [Laid],
    pub borders: &'a [Border],
    pub heights: &'a [Height],
}

impl Picture<'_> {
    // The picture of a run in which nothing was joined.
    fn empty(&self, out: Sink) {
        head(out, 80);
        title(out, self.name, self.train);
        text(
            out,
            "start",
            Place { x: 60.0, y: 61.0 },
            "The path has no links, or none with a length.",
        );
        write!(out, "</svg>\n");
    }

    // What the picture shows: speeds a little beyond the top speed; 1 m/s where that is 0.
    fn frame(&self) -> Frame {
        let top = ieee::size(self.train.speed_max.0);
        Frame {
            begin: self.begin,
            last: self.last,
            reach: if 0.0 < top { top * 1.05 } else { 1.0 },
            heights: span_of(self.heights),
        }
    }

    // The whole picture.
    pub fn draw(&self, out: Sink) {
        if !(0.0 < self.last) {
            self.empty(out);
            return;
        }
        let f = self.frame();
        head(out, if f.heights.is_some() { 545 } else { 425 });
        title(out, self.name, self.train);
        legend(out, f);
        limits(out, f, self.limits);
        dropped(out, f);
        axes(out, f);
        borders(out, f, self.borders);
        numbers(out, f, self.borders);
        steps(out, f, self.posted);
        if let Some(span) = f.heights {
            heights(out, f, span, self.heights);
        }
        write!(out, "</svg>\n");
    }
}
