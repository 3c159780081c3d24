// The listed links joined to a path's end, one kind of record at a time.
ghost use Rattle.std.specs.Prelude.{◌≡◌, ◌+◌, ◌*◌, ◌≤◌, ◌<◌, ◌^◌, length};
ghost use Rattle.ieee.specs.Number.{+0};
ghost use Rattle.column.specs.Entries.{filled};
ghost use Rattle.column.specs.Records.{flat};
ghost use Rattle.lookup.specs.Coeff.{triple, coeffs};
ghost use Rattle.path.specs.Records.{link_points, power_limits};
ghost use Rattle.path.specs.Sound.{is_curves};
ghost use Rattle.path_stretches.specs.Stretches.{Laid};
ghost use Rattle.path_stretches.specs.Becomes.{coeffs_of, HasRoom, Becomes};
ghost use Rattle.path_stretches.specs.Powers.{HoldsPowers};
ghost use Rattle.path_join.specs.Listed.{rises, grade_end, records_in, powers_in, sum_of};
ghost use Rattle.path_join.specs.Joined as spec;
ghost use Rattle.path_join.specs.ByKind as kinds;

use column::Four;
use link::elev::elev_at;
use link::network::{Network, link_numbers};
use link::train_params::TrainParams;
use lookup::path_res_coeff::{PathResCoeff, coeff_at, put_coeff};
use path::lines::Lines;
use path_stretches::coeff_column::CoeffColumn;
use path_stretches::powers::lay_powers;
use path_stretches::walk::stretch_count;
use si::Length;

// Where the grades of link i end that begin at base.
fn grade_end(network: &Network, base: Length, i: usize) -> Length
    requires { i < 2 ^ 40 }
    ensures { result.0 ≡ grade_end (rises network.now.links.now network.now.lengths.now network.now.elevs.now) base.0 i }
{
    let l = link_numbers(network.links, i);
    let first = l.elevs_first as usize;
    let count = l.elevs_count as usize;
    if count == 0 {
        return Length(base.0 + column::get(network.lengths, i));
    }
    if count == 1 {
        return base;
    }
    let last = elev_at(network.elevs, first + count - 1);
    Length(base.0 + last.offset.0)
}

// The net value that the listed links begin with, where it is `net` at the last of m grades.
pub fn starting_net(m: usize, net: Length, list: &[u32], network: &Network) -> Length
    ensures { result.0 ≡ spec.starting_net network.now.links.now network.now.elevs.now m net.0 list.now }
{
    let begun = m != 1;
    if begun {
        return net;
    }
    if list.len() == 0 {
        return net;
    }
    let l = link_numbers(network.links, list[0] as usize);
    if l.elevs_count == 0 {
        return net;
    }
    elev_at(network.elevs, l.elevs_first as usize).elev
}

// The last of m grades gets that net value.
pub fn start_net(grades: &mut [f64], m: usize, list: &[u32], network: &Network)
    requires m_nonzero { 0 < m }
    requires m_in_bounds { 3 * m ≤ length grades.old }
    requires grades_value { grades.old ≡ filled +0 (length grades.old) (flat triple (coeffs m grades.old)) }
    ensures { grades.new ≡ filled +0 (length grades.old)
        (flat triple (spec.start_net network.now.links.now network.now.elevs.now (coeffs m grades.old) list.now)) }
{
    let g = coeff_at(&*grades, m - 1);
    let net = starting_net(m, g.res_net, list, network);
    put_coeff(&mut *grades, m - 1, PathResCoeff { res_net: net, ..g });
}

// One link point more: point n - 1 becomes that of link i, and the end point follows.
fn join_point(offsets: &mut [f64], numbers: &mut [u32], n: usize, i: usize, network: &Network)
    requires n_nonzero { 0 < n }
    requires i_bound { i < 2 ^ 40 }
    requires n_in_bounds { n < length offsets.old }
    requires n_in_bounds_2 { 4 * (n + 1) ≤ length numbers.old }
    requires holds_points { kinds.HoldsPoints offsets.old numbers.old (link_points n offsets.old numbers.old) }
    ensures { kinds.HoldsPoints offsets.new numbers.new
        (spec.join_point network.now.links.now network.now.lengths.now (link_points n offsets.old numbers.old) i) }
{
    let l = link_numbers(network.links, i);
    let base = column::get(&*offsets, n - 1);
    let end = column::get(network.lengths, i) + base;
    let grades = stretch_count(l.elevs_count as usize) as u32;
    let curves = stretch_count(l.headings_count as usize) as u32;
    column::put_record(
        &mut *numbers,
        n - 1,
        Four(grades, curves, l.powers_count, l.idx_curr),
    );
    column::set(&mut *offsets, n, end);
    column::put_record(&mut *numbers, n, Four(0, 0, 0, l.idx_curr));
}

// The link points of the listed links behind the n of two columns.
pub fn join_points(
    offsets: &mut [f64],
    numbers: &mut [u32],
    n: usize,
    list: &[u32],
    network: &Network,
)
    requires n_nonzero { 0 < n }
    requires list_bound { n + length list.now ≤ 1025 }
    requires list_in_bounds { n + length list.now ≤ length offsets.old }
    requires list_in_bounds_2 { 4 * (n + length list.now) ≤ length numbers.old }
    requires holds_points { kinds.HoldsPoints offsets.old numbers.old (link_points n offsets.old numbers.old) }
    ensures { kinds.HoldsPoints offsets.new numbers.new
        (kinds.joined_points network.now.links.now network.now.lengths.now (link_points n offsets.old numbers.old)
        list.now) }
{
    for (k, i) in list.iter().enumerate() {
        join_point(&mut *offsets, &mut *numbers, n + k, *i as usize, network);
    }
}

// The grades, or the curves, of the listed links behind the m records of a lent column, of which the struct is made here.
// Their count afterwards.
pub fn join_records(
    col: &mut [f64],
    m: usize,
    lines: Lines,
    begin: Length,
    list: &[u32],
    network: &Network,
    train: TrainParams,
) -> usize
    requires m_nonzero { 0 < m }
    requires list_len_bound { length list.now ≤ 1025 }
    requires list_in_bounds { 3 * (m + sum_of (records_in (is_curves lines) network.now.links.now) list.now) ≤ length col.old }
    requires col_value { col.old ≡ filled +0 (length col.old) (flat triple (coeffs m col.old)) }
    ensures { Laid col.new result (length col.old)
        (kinds.joined_records (is_curves lines) train
        (rises network.now.links.now network.now.lengths.now network.now.elevs.now) network.now.headings.now begin.0 (coeffs m col.old)
        list.now) }
{
    let mut records = CoeffColumn {
        col: &mut *col,
        count: m,
    };
    join_listed(&mut records, lines, begin, list, network, train);
    records.count
}

// The grades, or the curves, of the listed links, from begin on.
fn join_listed(
    records: &mut CoeffColumn,
    lines: Lines,
    begin: Length,
    list: &[u32],
    network: &Network,
    train: TrainParams,
)
    requires list_len_bound { length list.now ≤ 1025 }
    requires room { HasRoom (sum_of (records_in (is_curves lines) network.now.links.now) list.now) records.old }
    ensures { Becomes records.old records.new
        (kinds.joined_records (is_curves lines) train
        (rises network.now.links.now network.now.lengths.now network.now.elevs.now) network.now.headings.now begin.0 (coeffs_of records.old)
        list.now) }
{
    let mut base = begin;
    for i in list {
        let link = *i as usize;
        join_record(&mut *records, lines, base, link, network, train);
        base = grade_end(network, base, link);
    }
}

// The grades, or the curves, of link i, from base on.
fn join_record(
    records: &mut CoeffColumn,
    lines: Lines,
    base: Length,
    i: usize,
    network: &Network,
    train: TrainParams,
)
    requires i_bound { i < 2 ^ 40 }
    requires room { HasRoom (records_in (is_curves lines) network.now.links.now i) records.old }
    ensures { Becomes records.old records.new
        (spec.join_records (is_curves lines) train
        (rises network.now.links.now network.now.lengths.now network.now.elevs.now) network.now.headings.now base.0 (coeffs_of records.old) i) }
{
    let l = link_numbers(network.links, i);
    let length = Length(column::get(network.lengths, i));
    let (pool, first, count) = match lines {
        Lines::Grades => (
            network.elevs,
            l.elevs_first as usize,
            l.elevs_count as usize,
        ),
        Lines::Curves => (
            network.headings,
            l.headings_first as usize,
            l.headings_count as usize,
        ),
    };
    records.lay_stretches(lines, pool, first, count, base, length, train);
}

// The power limits of the listed links behind the m of two columns; their count afterwards.
pub fn join_powers(
    powers: &mut [f64],
    districts: &mut [u32],
    m: usize,
    begin: Length,
    list: &[u32],
    network: &Network,
) -> usize
    requires list_len_bound { length list.now ≤ 1025 }
    requires list_in_bounds { 3 * (m + sum_of (powers_in network.now.links.now) list.now) ≤ length powers.old }
    requires list_in_bounds_2 { m + sum_of (powers_in network.now.links.now) list.now ≤ length districts.old }
    requires holds_powers { HoldsPowers powers.old districts.old (power_limits m powers.old districts.old) }
    ensures { kinds.PowersLaid powers.new districts.new result
        (kinds.joined_powers
        (rises network.now.links.now network.now.lengths.now network.now.elevs.now) network.now.powers.now network.now.districts.now
        begin.0
        (power_limits m powers.old districts.old) list.now) }
{
    let mut n = m;
    let mut base = begin;
    for link in list {
        let i = *link as usize;
        let l = link_numbers(network.links, i);
        let first = l.powers_first as usize;
        let count = l.powers_count as usize;
        lay_powers(
            &mut *powers,
            &mut *districts,
            n,
            network.powers,
            network.districts,
            first,
            count,
            base,
        );
        n += count;
        base = grade_end(network, base, i);
    }
    n
}
