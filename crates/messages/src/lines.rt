// Lines of a route, in words: the call that one is, and why one cannot be read.
use crate::fields::{quoted_at, unreadable};
use crate::places::{at_line, line_at};
use route::judge::{Fault, LineFault};
use route::kinds::{Call, TableLine};
use show::Sink;
use std::fmt;

// The word of a call.
pub fn call_word(call: Call) -> &'static str {
    match call {
        Call::New => "new",
        Call::Extend => "extend",
        Call::Clear => "clear",
        Call::Finish => "finish",
        Call::Recalculate => "recalculate",
        Call::Reindex => "reindex",
        Call::Locate => "locate",
        Call::Posted => "posted",
        Call::Resistance => "resistance",
        Call::Grades => "grades",
        Call::Curves => "curves",
        Call::Powers => "powers",
        Call::Show => "show",
    }
}

// The form of a line of the train or of the link table.
fn table_form(line: TableLine) -> &'static str {
    match line {
        TableLine::Train => "train LENGTH TOP_SPEED MASS MASS_PER_BRAKE AXLES TYPE C0 C1 C2",
        TableLine::Link => "link NUMBER LENGTH NEXT OTHER_NEXT BEFORE OTHER_BEFORE",
        TableLine::Elev => "elev OFFSET HEIGHT",
        TableLine::Heading => "heading OFFSET RADIANS",
        TableLine::Power => "power START END WATTS DISTRICT",
        TableLine::Set => "set all|TYPE tail|head",
        TableLine::When => "when mass|brake|axles =|>|<|>=|<= VALUE",
        TableLine::Limit => "limit START END SPEED",
    }
}

// The form of a call.
#[derive(Clone, Copy)]
struct Form(Call);

impl fmt::Display for Form {
    fn fmt<W: fmt::Write>(&self, f: &mut fmt::Formatter<W>) -> fmt::Result {
        let word = call_word(self.0);
        match self.0 {
            Call::Extend => write!(f, "{word} LINK .. (at most 1,025 whole numbers)"),
            Call::Clear | Call::Posted => write!(f, "{word} OFFSET"),
            Call::Reindex => write!(
                f,
                "{word} NEW .. (at most 1,025 whole numbers, for the old numbers 0, 1, 2, ..)"
            ),
            Call::Locate => write!(f, "{word} FRONT BACK"),
            Call::Resistance => write!(f, "{word} unk|fwd|bwd FRONT BACK WEIGHT"),
            Call::Grades | Call::Curves => write!(f, "{word} K (link K of the path, from 0)"),
            _ => write!(f, "{word} alone"),
        }
    }
}

// What was expected of a line that cannot be read.
#[derive(Clone, Copy)]
struct Expected(Fault);

impl fmt::Display for Expected {
    fn fmt<W: fmt::Write>(&self, f: &mut fmt::Formatter<W>) -> fmt::Result {
        let words = match self.0 {
            Fault::TableField(line, _) => table_form(line),
            Fault::CallField(call, _) => return write!(f, "{}", Form(call)),
            Fault::LinkNumber { last } => {
                return write!(
                    f,
                    "expected: links numbered 1, 2, 3, .. in the file's order; the last one was {last}"
                );
            }
            Fault::Word => {
                "unknown word; expected: train, link, elev, heading, power, set, when, limit, or a call"
            }
            Fault::SecondTrain => "expected: one train only",
            Fault::NoLink => "expected: a link line before it",
            Fault::NoSet => "expected: a set line of this link before it",
            Fault::SecondSet => "expected: one set of a link for the same trains",
            Fault::NoRoom => "no room for more of these lines",
            Fault::NoTrain => "expected: a train line in the file",
        };
        f.write_str(words)
    }
}

// The line of a file that cannot be read.
pub fn fault(out: Sink, name: &[u8], text: &[u8], wrong: LineFault) {
    at_line(out, name, wrong.line);
    let line = line_at(text, wrong.line).unwrap_or(b"");
    match wrong.fault {
        Fault::TableField(kind, k) => {
            unreadable(out, line, kind.asked(k), k);
            write!(out, "; expected");
        }
        Fault::CallField(call, k) => {
            unreadable(out, line, call.asked(k), k);
            write!(out, "; expected");
        }
        Fault::Word => quoted_at(out, line, 0),
        _ => {}
    }
    write!(out, ": {}. Nothing was run.\n", Expected(wrong.fault));
}
