// Replays stored calls: standard input has them, each with its count of words, and what the port answers is printed beside the name of each.
#![tactic(auto)]

mod words; // the words of a text, columns of them, and what they stand for
mod call; // the calls by their codes
mod table; // the link table
mod print; // numbers and answers as they are printed
mod paths; // the path and the calls on it
mod session; // what later calls are made on, and the calls on a list

use answer::Refusal;
use call::{Call, Read};
use path::columns::PathColumnsMut;
use path::lines::Lines;
use path::path_tpc::PathTpc;
use paths::Path;
use print::{Reply, Values};
use session::Session;
use show::Sink;
use std::alloc::{AllocError, Global};
use std::io;
use std::io::Read as _;
use words::Column;

// What is told at the point.
fn point_values(out: Sink, s: &Session, list: &[f64]) {
    write!(
        out,
        "Point::res_coeff_front{}\n",
        Reply(s.point_coeff(list))
    );
    write!(out, "Point::res_net_front{}\n", Reply(s.point_net(list)));
}

// What is told at the strap.
fn strap_values(out: Sink, s: &Session, list: &[f64]) {
    write!(
        out,
        "Strap::res_coeff_front{}\n",
        Reply(s.strap_coeff_front(list))
    );
    write!(
        out,
        "Strap::res_coeff_back{}\n",
        Reply(s.strap_coeff_back(list))
    );
    write!(
        out,
        "Strap::res_net_front{}\n",
        Reply(s.strap_net_front(list))
    );
    write!(
        out,
        "Strap::res_net_back{}\n",
        Reply(s.strap_net_back(list))
    );
}

// What a call that reads the path answers.
fn read(s: &Session, path: &Path, r: Read, args: Column) -> Result<Values, Refusal> {
    let k = args.entry(0) as usize;
    match r {
        Read::Position => path.position(s.state),
        Read::Grades => path.link_range(k, Lines::Grades),
        Read::Curves => path.link_range(k, Lines::Curves),
    }
}

// One call, with the words behind it.
fn one<'a>(
    out: Sink,
    alloc: Global,
    s: &mut Session<'a>,
    path: &mut Path,
    call: Call,
    args: Column<'a>,
) -> Result<(), AllocError> {
    match call {
        Call::Set(what) => s.set(what, args),
        Call::Change(c) => {
            let r = s.change(alloc, path, c, args)?;
            write!(out, "{}{}\n{}\n", c.name(), Reply(r), path);
        }
        Call::Clear => {
            let r = path.clear(args.float_at(0));
            write!(out, "clear{}\n{}\n", Reply(r), path);
        }
        Call::Read(r) => {
            let values = read(&*s, &*path, r, args);
            write!(out, "{}{}\n", r.name(), Reply(values));
        }
        Call::Search(c) => {
            let list = s.listed(alloc)?;
            let r = s.search(c, &list, args);
            write!(out, "{}{}\n", c.name(), Reply(r));
        }
        Call::Fix(f) => {
            let r = s.fix(f, args);
            write!(out, "{}{}\n", f.name(), Reply(r));
        }
        Call::PointValues => point_values(out, &*s, &s.listed(alloc)?),
        Call::StrapValues => strap_values(out, &*s, &s.listed(alloc)?),
    }
    Ok(())
}

// How many bytes of a text are read.
const BYTES: usize = 400_000;

// One call after another on this path: each is its code and the column of its arguments.
fn replay(out: Sink, alloc: Global, words: &[u64], path: &mut Path) -> Result<(), AllocError> {
    let mut s = Session::new(Column(words));
    let mut rest = words;
    // No `for`: a call is as long as its count of words says.
    while let [code, behind @ ..] = rest {
        let args = Column(behind);
        if let Some(call) = call::of_code(*code) {
            one(out, alloc, &mut s, path, call, args)?;
        }
        rest = args.behind();
    }
    Ok(())
}

// The calls on a path with room for 48 link points, 160 grades, curves and speed points, and 64 power limits:
// the bounds of the run that is stored.
fn on_path(out: Sink, alloc: Global, words: &[u64]) -> Result<(), AllocError> {
    let mut offsets = [0.0f64; 48];
    let mut numbers = [0u32; 192];
    let mut grades = [0.0f64; 480];
    let mut curves = [0.0f64; 480];
    let mut speeds = [0.0f64; 320];
    let mut powers = [0.0f64; 192];
    let mut districts = [0u32; 64];
    let mut path = Path {
        record: PathTpc {
            link_count: 0,
            grade_count: 0,
            curve_count: 0,
            speed_count: 0,
            power_count: 0,
            is_finished: false,
        },
        columns: PathColumnsMut {
            offsets: &mut offsets,
            numbers: &mut numbers,
            grades: &mut grades,
            curves: &mut curves,
            speeds: &mut speeds,
            powers: &mut powers,
            districts: &mut districts,
        },
    };
    replay(out, alloc, words, &mut path)
}

fn main(rt: HostRuntime) -> io::Result<()> {
    let alloc = rt.alloc();
    let mut text = Vec::with_capacity(alloc, BYTES + 1)?; // more than is read, so that no memory is asked for meanwhile
    let _ = rt.reader().take(BYTES as u64).read_to_end(&mut text); // a read that fails ends the text
    let words = words::words(alloc, &text)?;
    on_path(Sink::Output(rt.stdout()), alloc, &words)?;
    Ok(())
}
