// One call after another.
use crate::beside::{Done, Original};
use crate::changes::{Step, change};
use crate::columns::{cut, part};
use crate::progress::Clock;
use answer::Refusal;
use link::network::Network;
use link::train_params::TrainParams;
use messages::lines::call_word;
use messages::outcomes::Refused;
use messages::refusals::{CallLine, change_refused};
use messages::warnings::warning;
use path::columns::{PathColumns, PathColumnsMut};
use path::path_tpc::PathTpc;
use path_posted::posted_speed::posted_speed;
use route::fields::float_at;
use route::fill::fill_list;
use route::judge::{Judged, LIST};
use route::kinds::{Call, Kind, kind_of};
use route_reads::reads::{PathView, Straps, list_powers, read_line, resistance_line};
use show::{Rounded, Sink, To};
use si::{Length, Velocity};
use speed::laid::Laid;
use std::rt;
use view::history::{History, add_links};
use view::picture::Picture;
use view::profile::{Border, Height, add_borders, add_heights};
use view::stretches::{Posted, table};

// How a run is shown: as a table of stretches, or as a picture that goes to a sink of its own.
#[derive(Clone, Copy)]
pub enum Shown {
    Table,
    Picture(Sink),
}

// A route whose lines can be read, the file's name, and where its run is told.
#[derive(Clone, Copy)]
pub struct Route<'a> {
    pub name: &'a [u8],
    pub text: &'a [u8],
    pub judged: Judged,
    pub to: To,
    pub shown: Shown,
}

// How many calls were done, and how many refused.
#[derive(Clone, Copy, Default)]
pub struct Counts {
    pub done: usize,
    pub refused: usize,
}

// What was joined, and how much of each.
#[derive(Drop)]
pub struct Joined<'a> {
    pub limits: &'a mut [Laid],
    pub borders: &'a mut [Border],
    pub heights: &'a mut [Height],
    pub counts: History,
}

// A run: the table, the path, what was joined, the run of the original, the straps, and the calls so far.
#[derive(Drop)]
pub struct Run<'a> {
    pub route: Route<'a>,
    pub train: TrainParams,
    pub network: Network<'a>,
    pub path: PathTpc,
    pub columns: PathColumnsMut<'a>,
    pub joined: Joined<'a>,
    pub original: Original<'a>,
    pub straps: Option<Straps>, // once they stand on the path
    pub counts: Counts,
    pub dropped: bool,
    pub warned: bool,
}

// The number of the last link point of a path, from 0.
fn last_of(p: PathTpc) -> usize {
    p.link_count.saturating_sub(1)
}

// Whether a call dropped links.
fn drops(call: Call, before: PathTpc, p: PathTpc) -> bool {
    (call == Call::Clear) & (p.link_count < before.link_count)
}

impl Joined<'_> {
    // The limits that were joined.
    fn limits(&self) -> &[Laid] {
        cut(&*self.limits, self.counts.limits)
    }

    // Those behind the first `from`.
    fn laid_behind(&self, from: usize) -> &[Laid] {
        part(&*self.limits, from, self.counts.limits)
    }

    // What an extension joined, from one link point to another.
    fn extend(
        &mut self,
        path: &PathColumns,
        from: usize,
        to: usize,
        network: &Network,
        train: TrainParams,
    ) {
        let n = self.counts;
        let limits = add_links(path, from, to, network, train, &mut *self.limits, n.limits);
        let borders = add_borders(path, from, to, &mut *self.borders, n.borders);
        let heights = add_heights(path, from, to, network, &mut *self.heights, n.heights);
        self.counts = History {
            limits,
            borders,
            heights,
        };
    }

    // The limits of all links, laid anew by a recalculation.
    fn lay_anew(&mut self, path: &PathColumns, to: usize, network: &Network, train: TrainParams) {
        self.counts.limits = add_links(path, 0, to, network, train, &mut *self.limits, 0);
    }
}

impl Run<'_> {
    // Where the path begins.
    fn begin(&self) -> Length {
        Length(column::get(&*self.columns.offsets, 0))
    }

    // Where it ends.
    fn end(&self) -> Length {
        Length(column::get(&*self.columns.offsets, last_of(self.path)))
    }

    // What a call that is done joined, or laid anew.
    fn lay(&mut self, call: Call, before: PathTpc) {
        let to = last_of(self.path);
        let path = self.columns.reading();
        match call {
            Call::New => self.joined.counts = History::default(),
            Call::Extend => {
                let from = last_of(before);
                self.joined
                    .extend(&path, from, to, &self.network, self.train);
            }
            Call::Recalculate => self.joined.lay_anew(&path, to, &self.network, self.train),
            _ => {}
        }
    }

    // What a call did to the path, behind the word that it is done.
    fn tell_change(&self, call: Call, before: PathTpc) {
        let out = self.route.to.out;
        let n = last_of(self.path);
        write!(out, "done");
        match call {
            Call::Extend => write!(
                out,
                ", the path has links: {n}, it ends at {}",
                Rounded(self.end().0)
            ),
            Call::Clear => write!(
                out,
                ", links left: {n} of {}, the path begins at {}",
                last_of(before),
                Rounded(self.begin().0)
            ),
            _ => {}
        }
        write!(out, "\n");
    }

    // A recalculation after a drop: said once for a file.
    fn recalculated(&mut self, line: usize) {
        if self.dropped & !self.warned {
            let err = self.route.to.err;
            warning(err, self.route.name, line);
            write!(
                err,
                "a recalculation after a drop: limits of dropped links, and their tails, are no longer laid\n"
            );
            self.warned = true;
        }
    }

    // More limits than there are records for: said when the last record is taken.
    fn overfull(&self, line: usize, before: usize) {
        let room = self.joined.limits.len();
        if (before < room) & (room <= self.joined.counts.limits) {
            let err = self.route.to.err;
            warning(err, self.route.name, line);
            write!(
                err,
                "32768 limits are listed, and no more: a row may be held by one that is not\n"
            );
        }
    }

    // The run of the original behind a call, which laid the limits behind the first `from`.
    fn follow(&mut self, call: Call, from: usize, drops: bool) {
        let n = self.joined.counts.limits;
        let done = Done {
            begin: self.begin(),
            top: Velocity(self.train.speed_max.0),
            drops,
            fits: n < self.joined.limits.len(),
        };
        let laid = self.joined.laid_behind(from);
        self.original.follow(call, done, laid);
    }

    // What the original and the port post at the beginning of a path whose links were dropped.
    fn compare(&self) {
        let x = self.begin();
        let here = posted_speed(self.path, Length(x.0), &self.columns.reading());
        let here = here.unwrap_or(Velocity(0.0));
        let limits = self.joined.limits();
        self.original
            .side_by_side(self.route.to.out, x, here, limits);
    }

    // The run behind a call that is done.
    fn done(&mut self, line: usize, call: Call, step: Step) {
        let before = self.path;
        let limits = self.joined.counts.limits;
        self.path = step.path;
        self.tell_change(call, before);
        let dropped = drops(call, before, step.path);
        self.lay(call, before);
        self.follow(call, if call == Call::Extend { limits } else { 0 }, dropped);
        match call {
            Call::New => self.straps = None,
            Call::Clear => {
                self.straps = self.straps.and_then(|s| s.fixed(step.grades, step.curves));
            }
            Call::Recalculate => self.recalculated(line),
            _ => {}
        }
        self.overfull(line, limits);
        self.dropped = (call != Call::New) & (self.dropped | dropped);
        self.counts.done = self.counts.done.saturating_add(1);
        if dropped {
            self.compare();
        }
    }

    // A call that may change the path, its answer in words, and where it is refused the whole reason.
    fn change(&mut self, line: &CallLine) {
        let x = float_at(line.words, 0, 1);
        let mut list = [0u32; LIST];
        let n = fill_list(line.words, 0, &mut list);
        let list = cut(&list, n);
        let step = change(
            line.call,
            self.train,
            Length(x),
            list,
            self.path,
            &mut self.columns,
            &self.network,
        );
        match step {
            Ok(step) => self.done(line.number, line.call, step),
            Err(refusal) => {
                write!(self.route.to.out, "{}\n", Refused(refusal));
                self.refuse(line, refusal, x, list);
            }
        }
    }

    fn refuse(&mut self, line: &CallLine, refusal: Refusal, x: f64, list: &[u32]) {
        change_refused(
            self.route.to.err,
            line,
            refusal,
            x,
            list,
            self.train,
            self.path,
            &self.columns.reading(),
            &self.network,
        );
        self.counts.refused = self.counts.refused.saturating_add(1);
    }

    // The speeds posted so far.
    fn posted(&self) -> Posted<'_> {
        Posted(cut(
            &*self.columns.speeds,
            self.path.speed_count.saturating_mul(2),
        ))
    }

    // The table of stretches.
    fn show_table(&self) {
        let top = Velocity(self.train.speed_max.0);
        table(self.route.to.out, self.posted(), self.joined.limits(), top);
    }

    // A call that reads the path; whether it is done.
    fn read(&mut self, line: &CallLine) -> bool {
        let to = self.route.to;
        let view = PathView {
            record: self.path,
            columns: self.columns.reading(),
        };
        match line.call {
            Call::Show => {
                write!(to.out, "\n");
                // Behind a picture there is no table.
                if let Shown::Table = self.route.shown {
                    self.show_table();
                }
                true
            }
            Call::Powers => {
                list_powers(to.out, &view);
                true
            }
            Call::Resistance => {
                let straps = resistance_line(to, line, self.train, self.straps, &view);
                self.straps = straps.or(self.straps);
                straps.is_some()
            }
            _ => read_line(to, line, self.train, &view),
        }
    }

    // One line of the route.
    fn turn(&mut self, number: usize, words: &[u8]) {
        let Kind::Call(call) = kind_of(words, 0) else {
            return;
        };
        let line = CallLine {
            name: self.route.name,
            text: self.route.text,
            number,
            words,
            call,
        };
        write!(self.route.to.out, "line {number}: {}: ", call_word(call));
        if !call.is_reading() {
            self.change(&line);
        } else if self.read(&line) {
            self.counts.done = self.counts.done.saturating_add(1);
        } else {
            self.counts.refused = self.counts.refused.saturating_add(1);
        }
    }

    // What the calls leave as a picture.
    fn draw(&self, out: Sink) {
        let joined = &self.joined;
        let picture = Picture {
            name: self.route.name,
            train: self.train,
            begin: self.begin().0,
            last: self.end().0,
            posted: self.posted(),
            limits: joined.limits(),
            borders: cut(&*joined.borders, joined.counts.borders),
            heights: cut(&*joined.heights, joined.counts.heights),
        };
        picture.draw(out);
    }

    // What the calls leave, as it is to be shown, and how many were done and refused.
    fn show(&self) {
        let to = self.route.to;
        let Counts { done, refused } = self.counts;
        match self.route.shown {
            Shown::Table => {
                self.show_table();
                write!(to.out, "calls: {done} done, {refused} refused\n");
            }
            Shown::Picture(out) => {
                self.draw(out);
                write!(to.err, "plan: ");
                to.err.write_all(self.route.name);
                write!(to.err, ": calls: {done} done, {refused} refused\n");
            }
        }
    }
}

// All lines of a route that can be read, and what they leave.
pub fn run_lines<R: rt::Clock>(sys: &R, clock: &mut Clock, all: &mut Run) {
    let err = all.route.to.err;
    let mut line: usize = 0;
    for words in all.route.text.split(|b| *b == b'\n') {
        line = line.saturating_add(1);
        all.turn(line, words);
        clock.progress(sys, err, all.counts.done, all.route.judged.calls);
    }
    clock.clear(err);
    all.show();
}
