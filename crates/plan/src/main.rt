// The planner: reads route files, runs their calls and shows each run as a table of stretches, or as a picture behind --svg.
#![tactic(auto)]

mod progress; // the line of a long run
mod beside; // what the original Rust posts behind a drop
mod changes; // calls that may change the path
mod session; // one call after another
mod columns; // the columns that a run needs
mod files; // a file's bytes, or why there are none

use messages::lines::fault;
use messages::warnings::warn;
use progress::Clock;
use route::judge::judge;
use session::{Route, Shown};
use show::{Sink, To};
use std::env::FillError;
use std::io::Read;
use std::rt;
use std::rt::{Env, Files};

// How it went, from the best to the worst: all calls done, a call refused, a file that could not be read or an argument that is unknown.
#[derive(Clone, Copy, PartialEq, Eq, PartialOrd, Ord)]
enum Status {
    Done,
    Refused,
    Unread,
}

impl Status {
    fn code(self) -> u32 {
        match self {
            Status::Done => 0,
            Status::Refused => 1,
            Status::Unread => 2,
        }
    }
}

// What the arguments asked for so far: where the text and the errors go, how the next file is shown, whether progress is shown, whether there was a file or
// a word about the options; and the status.
#[derive(Clone, Copy)]
struct Asked {
    to: To,
    pictures: Sink, // where pictures go
    shown: Shown,
    progress: bool,
    answered: bool,
    status: Status,
}

// Judges a text; runs it where every line can be read.
fn plan_text<R: rt::Clock>(sys: &R, a: Asked, name: &[u8], text: &[u8]) -> Status {
    let err = a.to.err;
    if let Some(mark) = files::marked(text) {
        files::wrong(err, name, mark);
        return Status::Unread;
    }
    let judged = match judge(text) {
        Ok(judged) => judged,
        Err(wrong) => {
            fault(err, name, text, wrong);
            return Status::Unread;
        }
    };
    warn(err, name, text, judged.links);
    let route = Route {
        name,
        text,
        judged,
        to: a.to,
        shown: a.shown,
    };
    let mut clock = Clock {
        on: a.progress,
        shown: None,
    };
    match columns::with_table(sys, &mut clock, route).refused {
        0 => Status::Done,
        _ => Status::Refused,
    }
}

// The text of an open file, in memory that is fixed (D84); one that fills its room may be longer.
fn plan_open<R: rt::Clock, F: Read>(sys: &R, a: Asked, file: &mut F, name: &[u8]) -> Status {
    let mut text = [0u8; 400000];
    let wrong = match files::read_full(file, &mut text) {
        Ok(0) => "the file is empty",
        Ok(n) if n < text.len() => return plan_text(sys, a, name, &text[..n]),
        Ok(_) => "longer than 399,999 bytes",
        Err(error) => files::unread(&error),
    };
    files::wrong(a.to.err, name, wrong);
    Status::Unread
}

// Opens a file and plans it; a name that is no text names no file here.
fn plan_named<R: Files + rt::Clock>(sys: &R, a: Asked, name: &[u8]) -> Status {
    let Ok(path) = std::str::from_utf8(name) else {
        files::wrong(a.to.err, name, "the file cannot be opened");
        return Status::Unread;
    };
    match std::fs::open(sys, path) {
        Ok(mut file) => plan_open(sys, a, &mut file, name),
        Err(error) => {
            files::wrong(a.to.err, name, files::unopened(&error));
            Status::Unread
        }
    }
}

// A file; its status.
fn plan_file<R: Files + rt::Clock>(sys: &R, mut a: Asked, name: &[u8]) -> Status {
    if let Shown::Picture(_) = a.shown {
        a.to.out = Sink::Nowhere;
    }
    write!(a.to.out, "== ");
    a.to.out.write_all(name);
    write!(a.to.out, "\n");
    plan_named(sys, a, name)
}

fn usage(out: Sink) {
    write!(
        out,
        "plan [--svg] FILE ..: runs the calls of route files; behind --svg the next file's run is a picture.\n"
    );
    write!(
        out,
        "Status: 0 all calls done, 1 a call refused, 2 a file that could not be read.\n"
    );
}

impl Asked {
    // An argument that is an option.
    fn option(&mut self, name: &[u8]) {
        match name {
            b"--svg" => self.shown = Shown::Picture(self.pictures),
            b"--together" => self.to.err = self.to.out,
            b"--progress" => self.progress = true,
            b"--help" => {
                usage(self.to.out);
                self.answered = true;
            }
            _ => {
                let err = self.to.err;
                files::wrong(err, name, "unknown option; --help tells the options");
                self.answered = true;
                self.status = Status::Unread;
            }
        }
    }

    // An argument: an option, or a file that is planned.
    fn argument<R: Files + rt::Clock>(&mut self, sys: &R, name: &[u8]) {
        if files::is_option(name) {
            self.option(name);
            return;
        }
        self.status = self.status.max(plan_file(sys, *self, name));
        self.shown = Shown::Table;
        self.answered = true;
    }

    // The arguments behind the program's name, one after the other; one that is too long counts as empty.
    fn arguments<R: Env + Files + rt::Clock>(&mut self, sys: &R) {
        for i in 1..usize::MAX {
            let mut name = io::buffer();
            match sys.arg(i, &mut name) {
                Ok(n) => self.argument(sys, &name[..n]),
                Err(FillError::TooLong) => self.argument(sys, b""),
                Err(FillError::NotPresent) => return,
            }
        }
    }

    // The status behind the last argument.
    fn ended(&self) -> Status {
        let err = self.to.err;
        if let Shown::Picture(_) = self.shown {
            write!(
                err,
                "plan: --svg: no file behind it; the file behind --svg is drawn\n"
            );
            return Status::Unread;
        }
        if !self.answered {
            usage(err);
            return Status::Unread;
        }
        self.status
    }
}

fn main(rt: HostRuntime) {
    let out = Sink::Output(rt.stdout());
    let mut asked = Asked {
        to: To {
            out,
            err: Sink::Errors(rt.stderr()),
        },
        pictures: out,
        shown: Shown::Table,
        progress: false,
        answered: false,
        status: Status::Done,
    };
    asked.arguments(&rt);
    let status = asked.ended();
    write!(asked.to.err, "plan: exit status {}\n", status.code());
}
