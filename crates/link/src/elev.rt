// Elevations and headings: samples along a link, an offset and a value each.
ghost use Rattle.std.specs.Prelude.{◌≡◌, ◌+◌, ◌-◌, ◌*◌, ◌^◌, ◌<◌, ◌≤◌, ◌&&◌};
ghost use Rattle.std.proofs.Math.ListN as list;
ghost use Rattle.column.specs.Records.{record_at, two};
ghost use Rattle.link.specs.Lists.{every, up_from};
ghost use Rattle.link.specs.Table.{sample_at, elev_of, heading_of};
ghost use Rattle.link.specs.Questions.{sample_finite, rise_to, samples_formed};

use column::Two;
use si::{Angle, Length};

#[derive(Clone, Copy)]
pub struct Elev {
    pub offset: Length,
    pub elev: Length,
}

#[derive(Clone, Copy)]
pub struct Heading {
    pub offset: Length,
    pub heading: Angle,
}

// Sample i, which lies in the column.
fn sample_in(col: &[f64], i: usize) -> Two
    requires { 2 * i + 1 < list.length col.now }
    ensures { result ≡ record_at two col.now i }
{
    Two(col[2 * i], col[2 * i + 1])
}

// Sample i of a column, with one test where it lies in it.
fn sample_at(col: &[f64], i: usize) -> Two
    ensures { result ≡ record_at two col.now i }
{
    if i < col.len() / 2 {
        return sample_in(col, i);
    }
    column::record_at::<column::Two>(col, i)
}

// Elevation i of the pool. Elevations and headings share sample_at; one type for both would lose the names and units of what they hold.
pub fn elev_at(elevs: &[f64], i: usize) -> Elev
    ensures { elev_of result ≡ sample_at elevs.now i }
{
    let t = sample_at(elevs, i);
    Elev {
        offset: Length(t.0),
        elev: Length(t.1),
    }
}

// Heading i of the pool.
pub fn heading_at(headings: &[f64], i: usize) -> Heading
    ensures { heading_of result ≡ sample_at headings.now i }
{
    let t = sample_at(headings, i);
    Heading {
        offset: Length(t.0),
        heading: Angle(t.1),
    }
}

// Whether the samples from `first` up to `end` are finite and their offsets rise strictly after o, to the length. One pass with no early exit.
fn rise_to(col: &[f64], first: usize, end: usize, o: f64, length: f64) -> bool
    requires first_le_end { first ≤ end }
    requires end_bound { end < 2 ^ 40 }
    requires end_bound_2 { 2 * end ≤ list.length col.now }
    ensures { result ≡
        (every sample_finite (up_from (sample_at col.now) first (end - first)) && rise_to length o
        (up_from (sample_at col.now) first (end - first))) }
{
    let mut last = o;
    let mut ok = true;
    for i in first..end {
        let t = sample_in(col, i);
        ok = ok & ((last < t.0) & (ieee::is_finite(t.0) & ieee::is_finite(t.1)));
        last = t.0;
    }
    ok & (last == length)
}

// Question 6 of elevations or headings: none or at least two, finite, offsets rising strictly from 0 to the length.
pub fn samples_formed(col: &[f64], first: usize, count: usize, length: Length) -> bool
    requires count_bound { first + count < 2 ^ 40 }
    requires count_bound_2 { 2 * (first + count) ≤ list.length col.now }
    ensures { result ≡ samples_formed length.0 (up_from (sample_at col.now) first count) }
{
    if count == 0 {
        return true;
    }
    if count == 1 {
        return false;
    }
    let t = sample_in(col, first);
    let begins = (t.0 == 0.0) & (ieee::is_finite(t.0) & ieee::is_finite(t.1));
    begins & rise_to(col, first + 1, first + count, t.0, length.0)
}
