// Question 2 of a path: it is sound.
ghost use Rattle.std.specs.Prelude.{◌≡◌, true, false, ◌&&◌, ◌*◌, ◌≤◌, ◌<◌, ◌^◌, length, get_or};
ghost use Rattle.ieee.specs.Number.{+0};
ghost use Rattle.column.specs.Records.{record_at, two};
ghost use Rattle.speed.specs.Column.{points};
ghost use Rattle.lookup.specs.Coeff.{coeffs};
ghost use Rattle.path.specs.Records.{lent, link_point, link_points, path_of, is_within_all};
ghost use Rattle.path.specs.Sound as spec;

use crate::columns::PathColumns;
use crate::link_point::{link_point_at, link_point_within};
use crate::path_tpc::PathTpc;
use lookup::coeff_list::CoeffList;
use si::Length;

fn one_of_each(p: PathTpc) -> bool
    ensures { result ≡ spec.one_of_each p }
{
    (1 <= p.link_count) & ((1 <= p.grade_count) & ((1 <= p.curve_count) & (1 <= p.speed_count)))
}

// Whether n records lie within a bound and within what two columns hold.
pub fn within(n: usize, bound: usize, a: usize, b: usize) -> bool
    ensures { result ≡ is_within_all n bound a b }
{
    (n <= bound) & ((n <= a) & (n <= b))
}

// Counts within the columns and their bounds.
pub fn within_bounds(p: PathTpc, cols: &PathColumns) -> bool
    ensures { result ≡ spec.within_bounds p (lent cols.now) }
{
    let links = within(
        p.link_count,
        1025,
        cols.offsets.len(),
        cols.numbers.len() / 4,
    );
    let slopes = within(
        p.grade_count,
        16384,
        cols.grades.len() / 3,
        cols.grades.len() / 3,
    );
    let bends = within(
        p.curve_count,
        16384,
        cols.curves.len() / 3,
        cols.curves.len() / 3,
    );
    let limits = within(
        p.speed_count,
        4096,
        cols.speeds.len() / 2,
        cols.speeds.len() / 2,
    );
    let drawn = within(
        p.power_count,
        1024,
        cols.powers.len() / 3,
        cols.districts.len(),
    );
    links & (slopes & (bends & (limits & drawn)))
}

// The records that no link counts: the last one, and the closing one of a finished path.
fn spare_of(finished: bool) -> usize
    ensures { result ≡ spec.spare finished }
{
    if finished { 2 } else { 1 }
}

// The sums of the link points' counts against the counts of the path.
fn counts_add_up(p: PathTpc, grades: usize, curves: usize, powers: usize) -> bool
    requires grades_bound { grades < 2 ^ 43 }
    requires curves_bound { curves < 2 ^ 43 }
    ensures { result ≡ spec.add_up p (link_point +0 grades curves powers 0) }
{
    let spare = spare_of(p.is_finished);
    (grades + spare == p.grade_count)
        & ((curves + spare == p.curve_count) & (powers == p.power_count))
}

// Entry i of a column that has it.
fn entry(col: &[f64], i: usize) -> f64
    requires { i < length col.now }
    ensures { result ≡ get_or col.now i +0 }
{
    col[i]
}

// Whether the link offsets rise strictly. This loop and the next two have no early exit, so that they compile to vector code.
fn offsets_rise(offsets: &[f64], numbers: &[u32], n: usize) -> bool
    requires n_nonzero { 0 < n }
    requires n_in_bounds { n ≤ length offsets.now }
    ensures { result ≡ spec.offsets_rise (link_points n offsets.now numbers.now) }
{
    let mut ok = true;
    for i in 1..n {
        ok = ok & (entry(offsets, i - 1) < entry(offsets, i));
    }
    ok
}

// Whether every link point has a number.
fn all_numbered(offsets: &[f64], numbers: &[u32], n: usize) -> bool
    requires n_in_bounds { n ≤ length offsets.now }
    requires n_in_bounds_2 { 4 * n ≤ length numbers.now }
    ensures { result ≡ spec.all_numbered (link_points n offsets.now numbers.now) }
{
    let mut ok = true;
    for i in 0..n {
        ok = ok & (link_point_within(offsets, numbers, i).link_idx != 0);
    }
    ok
}

// Numbers that are real, the end point's the last link's; one 0 on a path without links.
fn numbers_real(offsets: &[f64], numbers: &[u32], n: usize) -> bool
    requires n_nonzero { 0 < n }
    requires n_in_bounds { n ≤ length offsets.now }
    requires n_in_bounds_2 { 4 * n ≤ length numbers.now }
    ensures { result ≡ spec.numbers_real (link_points n offsets.now numbers.now) }
{
    let end = link_point_at(offsets, numbers, n - 1).link_idx;
    if n == 1 {
        return end == 0;
    }
    if !all_numbered(offsets, numbers, n) {
        return false;
    }
    end == link_point_at(offsets, numbers, n - 2).link_idx
}

// The offset of speed point i of a column that has it.
fn speed_offset(speeds: &[f64], i: usize) -> f64
    requires { 2 * i < length speeds.now }
    ensures { result ≡ (record_at two speeds.now i).0 }
{
    entry(speeds, 2 * i)
}

// Whether n speed points are sorted from o on.
fn sorted_from(speeds: &[f64], n: usize, o: Length) -> bool
    requires n_nonzero { 0 < n }
    requires n_in_bounds { 2 * n ≤ length speeds.now }
    ensures { result ≡ spec.sorted_from o.0 (points n speeds.now) }
{
    let mut ok = speed_offset(speeds, 0) == o.0;
    for i in 1..n {
        ok = ok & (speed_offset(speeds, i - 1) <= speed_offset(speeds, i));
    }
    ok
}

// Whether the link points' counts add up, and each link point's first grade and curve stands at its offset. A point whose first record
// lies past the last one counts too many.
fn counts_lead(
    p: PathTpc,
    offsets: &[f64],
    numbers: &[u32],
    grades: &CoeffList,
    curves: &CoeffList,
) -> bool
    requires link_count_bound { p.link_count ≤ 1025 }
    requires link_count_in_bounds { p.link_count ≤ length offsets.now }
    requires link_count_in_bounds_2 { 4 * p.link_count ≤ length numbers.now }
    requires grade_count_in_list { p.grade_count ≤ length grades.now }
    requires curve_count_in_list { p.curve_count ≤ length curves.now }
    ensures { result ≡
        (spec.add_up p
        (spec.totals (link_points p.link_count offsets.now numbers.now)) &&
        (spec.first_at_offset (spec.count_of false) 0
        (link_points p.link_count offsets.now numbers.now) grades.now &&
        spec.first_at_offset (spec.count_of true) 0
        (link_points p.link_count offsets.now numbers.now) curves.now)) }
{
    let n = p.link_count;
    let grade_count = p.grade_count;
    let curve_count = p.curve_count;
    let mut g = 0;
    let mut k = 0;
    let mut w = 0;
    let mut ok = true;
    for i in 0..n {
        if grade_count <= g {
            return false;
        }
        if curve_count <= k {
            return false;
        }
        let q = link_point_within(offsets, numbers, i);
        let slope = grades.offset_at(g);
        let bend = curves.offset_at(k);
        ok = ok & ((slope.0 == q.offset.0) & (bend.0 == q.offset.0));
        g += q.grade_count;
        k += q.curve_count;
        w += q.cat_power_count;
    }
    counts_add_up(p, g, k, w) & ok
}

// Whether the last of m records stands at +infinity. No CoeffList, which has one record at least.
fn closes(col: &[f64], m: usize) -> bool
    ensures { result ≡ spec.closes (coeffs m col.now) }
{
    if m == 0 {
        return false;
    }
    column::record_at::<column::Three>(col, m - 1).0 == 1.0 / 0.0
}

// Whether the end point counts nothing.
fn end_counts_zero(offsets: &[f64], numbers: &[u32], n: usize) -> bool
    requires { 0 < n }
    ensures { result ≡ spec.end_counts_zero (link_points n offsets.now numbers.now) }
{
    let end = link_point_at(offsets, numbers, n - 1);
    (end.grade_count == 0) & ((end.curve_count == 0) & (end.cat_power_count == 0))
}

// The clauses of question 2 that follow once the counts lie within the columns.
fn sound_path(p: PathTpc, cols: &PathColumns) -> bool
    requires p_value { spec.one_of_each p ≡ true }
    requires in_columns { spec.within_bounds p (lent cols.now) ≡ true }
    ensures { result ≡ spec.sound_path (path_of p (lent cols.now)) }
{
    let n = p.link_count;
    let closed = closes(cols.grades, p.grade_count) & closes(cols.curves, p.curve_count);
    let links = end_counts_zero(cols.offsets, cols.numbers, n)
        & (offsets_rise(cols.offsets, cols.numbers, n)
            & numbers_real(cols.offsets, cols.numbers, n));
    let sorted = sorted_from(
        cols.speeds,
        p.speed_count,
        link_point_at(cols.offsets, cols.numbers, 0).offset,
    );
    let grades = CoeffList::new(cols.grades, p.grade_count);
    let curves = CoeffList::new(cols.curves, p.curve_count);
    let lead = counts_lead(p, cols.offsets, cols.numbers, &grades, &curves);
    lead & ((!p.is_finished | closed) & (links & sorted))
}

// Question 2 of a path.
pub fn path_sound(p: PathTpc, cols: &PathColumns) -> bool
    ensures { result ≡ spec.sound p (lent cols.now) }
{
    if !one_of_each(p) {
        return false;
    }
    if !within_bounds(p, cols) {
        return false;
    }
    sound_path(p, cols)
}
