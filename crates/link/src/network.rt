// A link of the table: its numbers, and whether it is in the table, follows another and is well formed.
ghost use Rattle.std.specs.Prelude.{◌≡◌, ◌^◌, ◌<◌};
ghost use Rattle.link.specs.Lists.{every, up_from};
ghost use Rattle.link.specs.Table.{set_at, numbers_of, in_table, table};
ghost use Rattle.link.specs.Questions.{real_in, follows, set_formed, in_pools, well_formed};

use crate::cat_power::limits_formed;
use crate::elev::samples_formed;
use si::Length;

// The link table, lent column by column: what each link has, and the pools that the links' firsts and counts point into.
#[derive(Clone, Copy)]
pub struct Network<'a> {
    pub links: &'a [u32],
    pub lengths: &'a [f64],
    pub sets: &'a [u32],
    pub elevs: &'a [f64],
    pub headings: &'a [f64],
    pub limits: &'a [f64],
    pub codes: &'a [u32],
    pub values: &'a [f64],
    pub powers: &'a [f64],
    pub districts: &'a [u32],
}

// The numbers of a link: its own and its neighbours', and first and count of what it has in the pools.
#[derive(Clone, Copy, Debug, PartialEq, Eq)]
pub struct LinkNumbers {
    pub idx_curr: u32,
    pub idx_next: u32,
    pub idx_next_alt: u32,
    pub idx_prev: u32,
    pub idx_prev_alt: u32,
    pub elevs_first: u32,
    pub elevs_count: u32,
    pub headings_first: u32,
    pub headings_count: u32,
    pub powers_first: u32,
    pub powers_count: u32,
}

// The numbers of link i.
#[tactic(auto, unfolding(crate::specs::Table::numbers_of))]
pub fn link_numbers(links: &[u32], i: usize) -> LinkNumbers
    requires { i < 2 ^ 40 }
    ensures { result ≡ numbers_of links.now i }
{
    let k = 11 * i;
    LinkNumbers {
        idx_curr: column::get(links, k),
        idx_next: column::get(links, k + 1),
        idx_next_alt: column::get(links, k + 2),
        idx_prev: column::get(links, k + 3),
        idx_prev_alt: column::get(links, k + 4),
        elevs_first: column::get(links, k + 5),
        elevs_count: column::get(links, k + 6),
        headings_first: column::get(links, k + 7),
        headings_count: column::get(links, k + 8),
        powers_first: column::get(links, k + 9),
        powers_count: column::get(links, k + 10),
    }
}

// Question 5: the link follows prev, and its alternatives are other links or none.
#[tactic(auto, unfolding(crate::specs::Questions::follows))]
pub fn link_follows(prev: u32, link: LinkNumbers) -> bool
    ensures { result ≡ follows prev link }
{
    if prev == 0 {
        return false;
    }
    if (link.idx_prev == link.idx_prev_alt) & (link.idx_prev_alt != 0) {
        return false;
    }
    if (link.idx_next == link.idx_next_alt) & (link.idx_next_alt != 0) {
        return false;
    }
    (link.idx_prev == prev) | (link.idx_prev_alt == prev)
}

impl Network<'_> {
    // Whether the numbers, the length and the set places of link i lie in their columns.
    #[tactic(auto, unfolding(crate::specs::Table::in_table))]
    pub fn in_table(&self, i: usize) -> bool
        ensures { result ≡ in_table self.now.links.now self.now.lengths.now self.now.sets.now i }
    {
        if self.links.len() / 11 <= i {
            return false;
        }
        if self.lengths.len() <= i {
            return false;
        }
        i < self.sets.len() / 48
    }

    // Question 4 of a link number: it is not 0, and in the table.
    #[tactic(auto, unfolding(crate::specs::Questions::real_in))]
    pub fn real_in(&self, n: u32) -> bool
        ensures { result ≡ real_in self.now.links.now self.now.lengths.now self.now.sets.now n }
    {
        if n == 0 {
            return false;
        }
        self.in_table(n as usize)
    }

    // Whether the ranges of elevations, headings and power limits of a link with the numbers n lie inside their pools.
    #[tactic(auto, unfolding(crate::specs::Questions::in_pools))]
    pub fn in_pools(&self, n: LinkNumbers) -> bool
        ensures { result ≡ in_pools self.now.elevs.now self.now.headings.now self.now.powers.now self.now.districts.now n }
    {
        if self.elevs.len() / 2 < (n.elevs_first as usize) + (n.elevs_count as usize) {
            return false;
        }
        if self.headings.len() / 2 < (n.headings_first as usize) + (n.headings_count as usize) {
            return false;
        }
        let powers_end = (n.powers_first as usize) + (n.powers_count as usize);
        if self.powers.len() / 3 < powers_end {
            return false;
        }
        powers_end <= self.districts.len()
    }

    // Question 6 of place p of link i; where no set is present only the flag is read.
    #[tactic(auto, unfolding(crate::specs::Questions::set_formed))]
    pub fn place_formed(&self, i: usize, p: usize) -> bool
        requires i_bound { i < 2 ^ 40 }
        requires p_bound { p < 8 }
        ensures { result ≡ set_formed self.now.codes.now self.now.values.now self.now.limits.now (set_at self.now.sets.now i p) }
    {
        if self.set_at(i, p).present == 0 {
            return true;
        }
        self.set_formed(self.set_at(i, p))
    }

    // Question 6 of the eight set places of link i.
    fn sets_formed(&self, i: usize) -> bool
        requires { i < 2 ^ 40 }
        ensures { result ≡ every (set_formed self.now.codes.now self.now.values.now self.now.limits.now) (up_from (set_at self.now.sets.now i) 0 8) }
    {
        (0..8).all(|p| self.place_formed(i, p))
    }

    // Question 6 of link n.
    #[tactic(auto, using(crate::proofs::Judging::well_formed_asks, crate::proofs::Judging::literal_zero, std::proofs::lemmas::Grind::common_steps))]
    pub fn well_formed(&self, n: u32) -> bool
        ensures { result ≡ well_formed (table self.now) n }
    {
        let i = n as usize;
        let l = link_numbers(self.links, i);
        if l.idx_curr != n {
            return false;
        }
        if !self.in_pools(l) {
            return false;
        }
        let length = column::get(self.lengths, i);
        if !ieee::is_finite(length) {
            return false;
        }
        if !(0.0 < length) {
            return false;
        }
        let (first, count) = (l.elevs_first as usize, l.elevs_count as usize);
        if !samples_formed(self.elevs, first, count, Length(length)) {
            return false;
        }
        let (first, count) = (l.headings_first as usize, l.headings_count as usize);
        if !samples_formed(self.headings, first, count, Length(length)) {
            return false;
        }
        if !limits_formed(
            self.powers,
            l.powers_first as usize,
            l.powers_count as usize,
        ) {
            return false;
        }
        self.sets_formed(i)
    }
}
