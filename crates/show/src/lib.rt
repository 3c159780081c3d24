// What the programs print, and where it goes.
//
//     write!(out, "{n} link points, {}\n", Whole(x));             a line, by std's `write!`; no `?`: a sink lets go what a failed write answers
//     write!(out, "{:12}{:12} per mille\n", Rounded(a), Rounded(b));   numbers to three places, right in columns of 12
//     out.write_all(name);                                        bytes that need be no text go as they are
//
// `out: Sink`. main makes the sinks, `Sink::Output(rt.stdout())` and `Sink::Errors(rt.stderr())`, and hands them on; a part that repeats is a Display.
#![tactic(auto)]

use std::fmt::{self, Display};
use std::io::Print;
use std::rt::{Stderr, Stdout};

// Where a text goes.
#[derive(Clone, Copy)]
pub enum Sink {
    Nowhere,
    Output(Stdout),
    Errors(Stderr),
}

impl Sink {
    // What `write!` calls. What is written to a stream that is closed or full is lost, and the run goes on.
    pub fn write_fmt<D: Display + Drop>(self, text: D) {
        let _ = match self {
            Sink::Nowhere => Ok(()),
            Sink::Output(to) => to.print(text),
            Sink::Errors(to) => to.print(text),
        };
    }

    // Bytes that need be no text.
    pub fn write_all(self, bytes: &[u8]) {
        let _ = match self {
            Sink::Nowhere => Ok(()),
            Sink::Output(to) => to.write_all(bytes),
            Sink::Errors(to) => to.write_all(bytes),
        };
    }
}

// Where the text of a run goes, and where its errors go.
#[derive(Clone, Copy)]
pub struct To {
    pub out: Sink,
    pub err: Sink,
}

// A number to three places behind the point, which are left out where they are 0.
#[derive(Clone, Copy)]
pub struct Rounded(pub f64);

// Thousandths without a sign: 1500 is 1.500, and 2000 is 2.
#[derive(Clone, Copy)]
struct Thousandths(u64);

impl Display for Thousandths {
    fn fmt<W: fmt::Write>(&self, f: &mut fmt::Formatter<W>) -> fmt::Result {
        let whole = self.0 / 1000;
        match self.0 % 1000 {
            0 => write!(f, "{whole}"),
            part => write!(f, "{whole}.{part:03}"),
        }
    }
}

impl Display for Rounded {
    fn fmt<W: fmt::Write>(&self, f: &mut fmt::Formatter<W>) -> fmt::Result {
        let x = self.0;
        if x != x {
            return f.pad_integral(true, "", "NaN");
        }
        let size = ieee::size(x) * 1000.0 + 0.5;
        if size > -1.0 && size < 18446744073709551616.0 {
            let t = std::num::truncating_f64_to_u64(size);
            let digits = fmt::InlineText::<24>::of(Thousandths(t));
            return f.pad_integral(t == 0 || !ieee::is_negative(x), "", digits.as_str());
        }
        let sign = if ieee::is_negative(x) { "-" } else { "" };
        write!(f, "{sign}over 1.8e16")
    }
}

// A number with its sign, what is behind the point cut off; a question mark for what is too large.
#[derive(Clone, Copy)]
pub struct Whole(pub f64);

impl Display for Whole {
    fn fmt<W: fmt::Write>(&self, f: &mut fmt::Formatter<W>) -> fmt::Result {
        let size = ieee::size(self.0);
        let sign = if ieee::is_negative(self.0) { "-" } else { "" };
        if size < 1000000000.0 {
            let n = std::num::truncating_f64_to_u64(size);
            write!(f, "{sign}{n}")
        } else {
            write!(f, "{sign}?")
        }
    }
}
