// Why a call was refused: the link, its line in the file, and what is wrong with it.
use crate::clauses::{Apart, apart_clause, clause_of};
use crate::lines::call_word;
use crate::outcomes::{RefusedBy, asks};
use crate::places::{Named, at_line, type_word};
use answer::{Question, Refusal};
use link::network::{Network, link_numbers};
use link::train_params::TrainParams;
use path::columns::PathColumns;
use path::path_tpc::PathTpc;
use route::kinds::Call;
use show::{Rounded, Sink};

// A line of a file that is a call: the file's name and text, the line's number and words, and the call.
#[derive(Clone, Copy)]
pub struct CallLine<'a> {
    pub name: &'a [u8],
    pub text: &'a [u8],
    pub number: usize,
    pub words: &'a [u8],
    pub call: Call,
}

// The file, the line, the call, and question and place of its refusal.
fn opening(err: Sink, line: &CallLine, refusal: Refusal) {
    at_line(err, line.name, line.number);
    write!(err, ": {} {}: ", call_word(line.call), RefusedBy(refusal));
}

// From where to where the path reaches, or that there is none.
fn reach(err: Sink, p: PathTpc, offsets: &[f64]) {
    if p.link_count == 0 {
        write!(err, "there is no path yet");
        return;
    }
    write!(
        err,
        "the path reaches from {} to {}",
        Rounded(column::get(offsets, 0)),
        Rounded(column::get(offsets, p.link_count - 1))
    );
}

// What is wrong with the train, for question 1.
fn train_wrong(train: TrainParams) -> &'static str {
    if train.length.0 <= 0.0 {
        "the train's length is not above 0"
    } else if train.speed_max.0 < 0.0 {
        "the train's top speed is below 0"
    } else {
        "a number of the train is not finite, or one of the path"
    }
}

// What is wrong with the offset, for question 1.
fn offset_wrong(x: f64) -> &'static str {
    if ieee::is_finite(x) {
        asks(Question::Finite)
    } else {
        "the offset is not a finite number"
    }
}

// Questions that are the same for every call; n: how many link points the path would have.
fn of_any(err: Sink, question: Question, p: PathTpc, n: usize) {
    match question {
        Question::Sound if p.link_count == 0 => {
            write!(err, "there is no path yet, new comes first");
        }
        Question::Open => write!(err, "the path is finished, and nothing can be joined to it"),
        Question::Room if 1025 < n => {
            write!(
                err,
                "the path would have {n} link points, and there is room for 1025"
            );
        }
        Question::Room => write!(
            err,
            "no room for grades, curves, speed points, two for each limit below the top speed, or power limits"
        ),
        _ => write!(err, "{}", asks(question)),
    }
}

// Question 4 of a link number.
fn absent(err: Sink, call: Call, n: u32) {
    if call == Call::Reindex {
        write!(err, "there is no new number for link {n}, or it is 0");
    } else if n == 0 {
        write!(err, "0 is no link's number");
    } else {
        write!(err, "the file has no link {n}");
    }
}

// Question 5: link n is to follow link prev.
fn not_following(err: Sink, link: Named, n: u32, prev: u32, network: &Network) {
    let l = link_numbers(network.links, n as usize);
    let before = l.idx_prev;
    let other = l.idx_prev_alt;
    let next = l.idx_next;
    match apart_clause(l) {
        Apart::OneBefore => write!(err, "{link}: both links before it are {before}"),
        Apart::OneNext => write!(err, "{link}: both links next to it are {next}"),
        Apart::Elsewhere => write!(
            err,
            "{link} does not follow link {prev}: before it are {before} and {other}"
        ),
    }
}

// Question 6 of link n.
fn not_formed(err: Sink, link: Named, n: u32, network: &Network) {
    write!(err, "{link}");
    if let Some(clause) = clause_of(network, n) {
        write!(err, "{clause}");
    }
}

// The link that place k names: of the list, or of a link point.
fn link_at(call: Call, list: &[u32], numbers: &[u32], k: usize) -> u32 {
    if call == Call::Extend {
        return column::get(list, k);
    }
    column::record_at::<column::Four>(numbers, k).3
}

// The link that the one at place k of a list is to follow: the one before it, or the path's last.
fn link_before(list: &[u32], numbers: &[u32], p: PathTpc, k: usize) -> u32 {
    if 0 < k {
        return column::get(list, k - 1);
    }
    if p.link_count == 0 {
        return 0;
    }
    column::record_at::<column::Four>(numbers, p.link_count - 1).3
}

// What is said of link n, after `prev`, by one of the questions 5 to 8.
fn link_refused(
    err: Sink,
    question: Question,
    link: Named,
    n: u32,
    prev: u32,
    train: TrainParams,
    network: &Network,
) {
    match question {
        Question::Follows => not_following(err, link, n, prev, network),
        Question::Formed => not_formed(err, link, n, network),
        Question::HasSet => write!(
            err,
            "{link} has no set for {} trains and none for all",
            type_word(train.train_type)
        ),
        _ => write!(
            err,
            "{link}: with it a figure becomes too large to be a number, or its end is not beyond its beginning"
        ),
    }
}

// A call that may change the path and was refused: the whole reason, as one line. x: its offset; list: its links; p and columns: the path.
pub fn change_refused(
    err: Sink,
    line: &CallLine,
    refusal: Refusal,
    x: f64,
    list: &[u32],
    train: TrainParams,
    p: PathTpc,
    columns: &PathColumns,
    network: &Network,
) {
    opening(err, line, refusal);
    let call = line.call;
    let place = refusal.place;
    let n = link_at(call, list, columns.numbers, place);
    match refusal.question {
        Question::Finite if call == Call::Clear => write!(err, "{}", offset_wrong(x)),
        Question::Finite => write!(err, "{}", train_wrong(train)),
        Question::InTable => absent(err, call, n),
        // Only here is the link's line looked for.
        question @ (Question::Follows | Question::Formed | Question::HasSet | Question::Results) =>
            {
                let link = Named::new(line.text, n);
                let prev = link_before(list, columns.numbers, p, place);
                link_refused(err, question, link, n, prev, train, network);
            }
        Question::InRange => reach(err, p, columns.offsets),
        question => {
            let joined = if call == Call::Extend { list.len() } else { 0 };
            of_any(err, question, p, p.link_count.saturating_add(joined));
        }
    }
    write!(err, "\n");
}

// A call that reads the path and was refused.
pub fn reading_refused(
    err: Sink,
    line: &CallLine,
    refusal: Refusal,
    x: f64,
    p: PathTpc,
    offsets: &[f64],
) {
    opening(err, line, refusal);
    match refusal.question {
        Question::Finite => write!(err, "{}", offset_wrong(x)),
        Question::InRange if matches!(line.call, Call::Grades | Call::Curves) => {
            let n = p.link_count;
            write!(err, "link points of the path: {n}, the last one its end");
        }
        Question::InRange => reach(err, p, offsets),
        question => of_any(err, question, p, 0),
    }
    write!(err, "\n");
}
