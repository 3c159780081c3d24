// The progress of a run of many calls: one line on a terminal, which moves once a second.
use show::Sink;
use std::rt;

// Whether the line is to be shown, and the second at which it was shown last.
#[derive(Clone, Copy)]
pub struct Clock {
    pub on: bool,
    pub shown: Option<u64>,
}

impl Clock {
    // Call `done` of `all`, where another second has begun.
    pub fn progress<R: rt::Clock>(&mut self, sys: &R, err: Sink, done: usize, all: usize) {
        if !self.on | (all < 200) {
            return;
        }
        let Ok(time) = sys.since_1970() else {
            return;
        };
        let now = time.as_secs();
        if self.shown != Some(now) {
            write!(err, "\rplan: call {done} of {all}");
            self.shown = Some(now);
        }
    }

    // The line goes, where there was one.
    pub fn clear(self, err: Sink) {
        if self.shown.is_some() {
            write!(err, "\r{:40}\r", "");
        }
    }
}
