// Which clause of question 6 a link fails, and which of question 5.
ghost use Rattle.std.specs.Prelude.{◌≡◌};
ghost use Rattle.link.specs.Table.{table};
ghost use Rattle.messages.specs.Clauses as spec;

use crate::places::trains_of;
use link::cat_power::limits_formed;
use link::elev::samples_formed;
use link::network::{LinkNumbers, Network, link_numbers};
use si::Length;
use std::fmt;

// A clause of question 6, in R109's order.
#[derive(Clone, Copy, PartialEq, Eq, Debug)]
pub enum Clause {
    Number, // 1: the link has its own number
    Pools, // 2: its records lie in the pools
    Length, // 3: its length is finite and above 0
    Heights, // 4
    Headings, // 5
    Powers, // 6
    Set(u32), // 8 and more: a set place
}

// Why a link does not follow the one before it.
#[derive(Clone, Copy, PartialEq, Eq, Debug)]
pub enum Apart {
    OneBefore, // 1: both links before it are one
    OneNext, // 2: both next links are one
    Elsewhere, // 3: neither link before it is the one
}

// What is wrong with a set.
const AMISS: &str =
    " a limit is not finite, begins before 0 or ends before it begins, or a condition is not finite, or there are more than 64";

impl fmt::Display for Clause {
    fn fmt<W: fmt::Write>(&self, f: &mut fmt::Formatter<W>) -> fmt::Result {
        let words = match *self {
            Clause::Number => " has another number in the table",
            Clause::Pools => " has records past the end of the table",
            Clause::Length => ": its length is not a finite number above 0",
            Clause::Heights => {
                ": its heights are not at least two that rise strictly in offset from 0 to its length, all finite"
            }
            Clause::Headings => {
                ": its headings are not at least two that rise strictly in offset from 0 to its length, all finite"
            }
            Clause::Powers => {
                ": a power limit is not finite, begins before 0 or ends before it begins"
            }
            Clause::Set(place) => {
                return write!(f, ": in its set for {}{AMISS}", trains_of(place));
            }
        };
        f.write_str(words)
    }
}

// The first set place of link n that is not well formed.
fn set_clause(network: &Network, n: u32) -> Option<Clause>
    ensures { spec.failed result ≡ spec.set_clause network.now.sets.now network.now.codes.now network.now.values.now network.now.limits.now n 0 8 }
{
    for p in 0..8 {
        if !network.place_formed(n as usize, p as usize) {
            return Some(Clause::Set(p));
        }
    }
    None
}

// The first clause of question 6 that link n fails, in R109's order.
pub fn clause_of(network: &Network, n: u32) -> Option<Clause>
    ensures { spec.failed result ≡ spec.clause_of (table network.now) n }
{
    let l = link_numbers(network.links, n as usize);
    if l.idx_curr != n {
        return Some(Clause::Number);
    }
    if !network.in_pools(l) {
        return Some(Clause::Pools);
    }
    let length = column::get(network.lengths, n as usize);
    if !(ieee::is_finite(length) & (0.0 < length)) {
        return Some(Clause::Length);
    }
    let first = l.elevs_first as usize;
    if !samples_formed(network.elevs, first, l.elevs_count as usize, Length(length)) {
        return Some(Clause::Heights);
    }
    let first = l.headings_first as usize;
    if !samples_formed(
        network.headings,
        first,
        l.headings_count as usize,
        Length(length),
    ) {
        return Some(Clause::Headings);
    }
    if !limits_formed(
        network.powers,
        l.powers_first as usize,
        l.powers_count as usize,
    ) {
        return Some(Clause::Powers);
    }
    set_clause(network, n)
}

// Why a link does not follow the one before it, where it does not.
pub fn apart_clause(l: LinkNumbers) -> Apart
    ensures { spec.apart_number result ≡ spec.apart_clause l }
{
    if (l.idx_prev == l.idx_prev_alt) & (l.idx_prev_alt != 0) {
        return Apart::OneBefore;
    }
    if (l.idx_next == l.idx_next_alt) & (l.idx_next_alt != 0) {
        return Apart::OneNext;
    }
    Apart::Elsewhere
}
