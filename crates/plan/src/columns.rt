// The columns that a run needs: the link table, the path, and what was joined.
ghost use Rattle.std.specs.Prelude.{◌≤◌};

use crate::beside::{Course, Original};
use crate::progress::Clock;
use crate::session::{Counts, Joined, Route, Run, run_lines};
use link::network::Network;
use path::columns::PathColumnsMut;
use path_ends::new::no_path;
use route::fill::{TableColumns, fill_table, train_of};
use speed::laid::Laid;
use std::rt;
use view::history::History;
use view::profile::{Border, Height};

// The first n entries of a column, all where it has fewer.
pub fn cut<T>(col: &[T], n: usize) -> &[T] {
    col.get(..n).unwrap_or(col)
}

// Entries from..to of a column; none where it has fewer.
pub fn part<T>(col: &[T], from: usize, to: usize) -> &[T] {
    col.get(from..to).unwrap_or(&[])
}

// The number of the last link of a route, which a table has room for.
fn last_link(n: usize) -> usize
    ensures { result ≤ 1024 }
{
    n.min(1024)
}

// The table, its links cut to those of a route.
fn network<'a>(table: &'a TableColumns, links: usize) -> Network<'a> {
    let n = last_link(links);
    Network {
        links: cut(&*table.links, 11 * n + 11),
        lengths: cut(&*table.lengths, n + 1),
        sets: cut(&*table.sets, 48 * n + 48),
        elevs: &*table.elevs,
        headings: &*table.headings,
        limits: &*table.limits,
        codes: &*table.codes,
        values: &*table.values,
        powers: &*table.powers,
        districts: &*table.districts,
    }
}

// A run on a path with columns at the bounds of R12, in memory that is fixed (D84).
fn with_path<R: rt::Clock>(sys: &R, clock: &mut Clock, route: Route, network: Network) -> Counts {
    let mut offsets = [0.0f64; 1025];
    let mut numbers = [0u32; 4100];
    let mut grades = [0.0f64; 49152];
    let mut curves = [0.0f64; 49152];
    let mut speeds = [0.0f64; 8192];
    let mut powers = [0.0f64; 3072];
    let mut districts = [0u32; 1024];
    let mut limits = [Laid::default(); 32768];
    let mut borders = [Border::default(); 2048];
    let mut heights = [Height::default(); 32768];
    let mut original = [0.0f64; 16384];
    let mut all = Run {
        route,
        train: train_of(route.text, route.judged.train_at),
        network,
        path: no_path(),
        columns: PathColumnsMut {
            offsets: &mut offsets,
            numbers: &mut numbers,
            grades: &mut grades,
            curves: &mut curves,
            speeds: &mut speeds,
            powers: &mut powers,
            districts: &mut districts,
        },
        joined: Joined {
            limits: &mut limits,
            borders: &mut borders,
            heights: &mut heights,
            counts: History::default(),
        },
        original: Original {
            column: &mut original,
            course: Course::NotFollowed,
        },
        straps: None,
        counts: Counts::default(),
        dropped: false,
        warned: false,
    };
    run_lines(sys, clock, &mut all);
    all.counts
}

// A run with columns for the link table, in memory that is fixed (D84).
pub fn with_table<R: rt::Clock>(sys: &R, clock: &mut Clock, route: Route) -> Counts {
    let mut links = [0u32; 11275];
    let mut lengths = [0.0f64; 1025];
    let mut sets = [0u32; 49200];
    let mut elevs = [0.0f64; 32768];
    let mut headings = [0.0f64; 32768];
    let mut limits = [0.0f64; 24576];
    let mut codes = [0u32; 16384];
    let mut values = [0.0f64; 8192];
    let mut powers = [0.0f64; 3072];
    let mut districts = [0u32; 1024];
    let mut table = TableColumns {
        links: &mut links,
        lengths: &mut lengths,
        sets: &mut sets,
        elevs: &mut elevs,
        headings: &mut headings,
        limits: &mut limits,
        codes: &mut codes,
        values: &mut values,
        powers: &mut powers,
        districts: &mut districts,
    };
    fill_table(route.text, &mut table);
    with_path(sys, clock, route, network(&table, route.judged.links))
}
