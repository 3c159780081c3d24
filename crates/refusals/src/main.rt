// Rows out of a text, standard input: each calls the port, done or refused, and what it answers is printed behind the row's name.
#![tactic(auto)]

mod columns; // columns of numbers that lines of the text set
mod fields; // the words of a line, and what a call's arguments are
mod answers; // answers as they are printed
mod searches; // searches in a list of records
mod points; // Point on a list
mod straps; // Strap on a list, and its walk over many positions
mod paths; // positions, posted speeds and lists of trims on a path
mod tables; // questions 4 to 7 of a link table

use answers::Shown;
use columns::Columns;
use fields::{Fault, words};
use show::Sink;
use std::alloc::{AllocError, Global};
use std::io::Read as _;

// What a line that can be read is.
#[derive(Drop)]
enum Line<'a> {
    Empty,
    Column,
    Row(&'a [u8], Shown<'a>),
}

// How many bytes a text may not have.
const TOO_LONG: usize = 100000;

// How many rows there were, and how many lines that cannot be read.
#[derive(Clone, Copy)]
struct Seen {
    rows: usize,
    faults: usize,
}

// What a call answers.
fn run_call<'a>(
    alloc: Global,
    columns: &'a Columns,
    call: &[u8],
    args: &[&[u8]],
) -> Result<Shown<'a>, Fault> {
    Ok(match call {
        b"calc_idx" => Shown::Reply(searches::calc_idx(columns, args)?),
        b"position" => Shown::Reply(paths::position(alloc, columns, args)?),
        b"posted" => Shown::Reply(paths::posted(alloc, columns, args)?),
        b"trims" => Shown::Trimmed(paths::trims(alloc, columns, args)?),
        b"ask" => Shown::Asked(tables::ask(alloc, columns, args)?),
        b"edit" => Shown::Edited(tables::edit(alloc, columns, args)?),
        b"walk" => Shown::Walk(straps::walk_of(columns, args)?),
        _ if call.starts_with(b"Point::") => Shown::Reply(points::answer(columns, call, args)?),
        _ => Shown::Reply(straps::answer(columns, call, args)?),
    })
}

// The name of the row that is the first line of a text, behind word k; of a line without a line end it lacks the last byte.
fn name_of(text: &[u8], k: usize) -> &[u8] {
    let line = fields::first_line(text);
    match fields::behind(line, k) {
        [name @ .., _] if line.len() == text.len() => name,
        name => name,
    }
}

// The most arguments of a call that takes a certain number of them: those of a walk.
const ARGUMENTS: usize = 10;

// A row of such a call: the colon is the one behind its arguments, since a column may be named by a colon too.
fn row_of<'a>(
    alloc: Global,
    columns: &'a Columns,
    text: &'a [u8],
    call: &[u8],
    args: &[&[u8]],
) -> Result<Line<'a>, Fault> {
    for (k, w) in args.iter().enumerate().take(ARGUMENTS + 1) {
        if fields::is_colon(w) {
            match run_call(alloc, columns, call, args.get(..k).unwrap_or(&[])) {
                Ok(shown) => return Ok(Line::Row(name_of(text, k + 1), shown)),
                Err(Fault::Memory(e)) => return Err(Fault::Memory(e)),
                Err(Fault::Unreadable) => {}
            }
        }
    }
    Err(Fault::Unreadable)
}

// A row, CALL ARGUMENT .. : NAME. The name goes to the line's end.
fn row<'a>(
    alloc: Global,
    columns: &'a Columns,
    text: &'a [u8],
    line: &[&[u8]],
) -> Result<Line<'a>, Fault> {
    match line {
        [] => Err(Fault::Unreadable),
        [call @ (b"ask" | b"trims"), ..] => {
            let (args, colon) = fields::up_to_colon(alloc, text)?;
            let shown = run_call(alloc, columns, call, &args)?;
            Ok(Line::Row(name_of(text, colon), shown))
        }
        [call, args @ ..] => row_of(alloc, columns, text, call, args),
    }
}

// The first line of a text; where it sets a column, the lines behind it may continue it.
fn read<'a>(
    alloc: Global,
    columns: &'a mut Columns,
    text: &'a [u8],
    line: &'a [u8],
) -> Result<Line<'a>, Fault> {
    let first = words(alloc, line)?;
    match first.as_slice() {
        [] => Ok(Line::Empty),
        [kind, name, numbers @ ..] if columns::is_kind(kind) => {
            let all = columns::continued(alloc, numbers, text)?;
            columns.set(alloc, kind, name, numbers, &all)?;
            Ok(Line::Column)
        }
        line => row(alloc, columns, text, line),
    }
}

// One line after another, and how many rows there were. Of CRLF the CR stays, as a blank or at the end of a name. A name is written before the answer is made.
fn run(out: Sink, alloc: Global, text: &[u8]) -> Result<Seen, AllocError> {
    let mut columns = Columns::new(alloc, text)?;
    let mut seen = Seen { rows: 0, faults: 0 };
    let mut open = false;
    let mut rest = text;
    for (i, line) in text.split(|b| *b == b'\n').enumerate() {
        let here = rest;
        rest = here.get(line.len() + 1..).unwrap_or(&[]);
        if fields::is_bare(line) {
            open = false;
            continue;
        }
        if open && fields::continues(line) {
            continue;
        }
        let read = read(alloc, &mut columns, here, line);
        open = matches!(read, Ok(Line::Column));
        match read {
            Ok(Line::Row(name, shown)) => {
                out.write_all(name);
                write!(out, "{shown}\n");
                seen.rows = seen.rows.saturating_add(1);
            }
            Err(Fault::Unreadable) => {
                write!(out, "cannot be read: line {}\n", i.saturating_add(1));
                seen.faults = seen.faults.saturating_add(1);
            }
            Err(Fault::Memory(e)) => return Err(e),
            Ok(_) => {}
        }
    }
    Ok(seen)
}

fn main(rt: HostRuntime) -> Result<(), AllocError> {
    let alloc = rt.alloc();
    let out = Sink::Output(rt.stdout());
    let mut text = Vec::with_capacity(alloc, TOO_LONG)?;
    let _ = rt.reader().take(TOO_LONG as u64).read_to_end(&mut text); // a read that fails ends the text
    if text.len() >= TOO_LONG {
        write!(out, "the text is too long\n");
        return Ok(());
    }
    let seen = run(out, alloc, &text)?;
    write!(
        out,
        "rows run: {}; lines that cannot be read: {}\n",
        seen.rows, seen.faults
    );
    Ok(())
}
