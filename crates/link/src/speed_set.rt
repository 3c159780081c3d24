// The set places of a link: the single set, then one for each train type.
ghost use Rattle.std.specs.Prelude.{◌≡◌, ◌+◌, ◌^◌, ◌<◌};
ghost use Rattle.link.specs.Lists.{every, up_from};
ghost use Rattle.link.specs.Condition.{condition_formed};
ghost use Rattle.link.specs.Table.{set_at, set_for, set_told, condition_at};
ghost use Rattle.link.specs.Questions.{present_formed, set_formed};

use crate::cat_power::limits_formed;
use crate::network::Network;
use crate::train_params::{TrainType, type_number};

// A set place: flags are 0 or 1 if they are known; first and count of its conditions and of its limits.
#[derive(Clone, Copy, Debug, PartialEq, Eq)]
pub struct SpeedSet {
    pub present: u32,
    pub is_head_end: u32,
    pub params_first: u32,
    pub params_count: u32,
    pub limits_first: u32,
    pub limits_count: u32,
}

impl Network<'_> {
    // Place p of link i.
    #[tactic(auto, unfolding(crate::specs::Table::set_at))]
    pub fn set_at(&self, i: usize, p: usize) -> SpeedSet
        requires i_bound { i < 2 ^ 40 }
        requires p_bound { p < 8 }
        ensures { result ≡ set_at self.now.sets.now i p }
    {
        let k = 48 * i + 6 * p;
        SpeedSet {
            present: column::get(self.sets, k),
            is_head_end: column::get(self.sets, k + 1),
            params_first: column::get(self.sets, k + 2),
            params_count: column::get(self.sets, k + 3),
            limits_first: column::get(self.sets, k + 4),
            limits_count: column::get(self.sets, k + 5),
        }
    }

    // The single set of link i, or the one for the train's type.
    #[tactic(auto, unfolding(crate::specs::Table::set_for))]
    pub fn set_for(&self, i: usize, t: TrainType) -> Option<SpeedSet>
        requires { i < 2 ^ 40 }
        ensures { set_told result ≡ set_told (set_for (set_at self.now.sets.now i) t) }
    {
        let single = self.set_at(i, 0);
        if single.present == 1 {
            return Some(single);
        }
        let typed = self.set_at(i, type_number(t) + 1);
        if typed.present == 1 {
            return Some(typed);
        }
        None
    }

    // Question 6 of `count` conditions from `first` on.
    fn conditions_formed(&self, first: usize, count: usize) -> bool
        requires { first + count < 2 ^ 40 }
        ensures { result ≡ every condition_formed (up_from (condition_at self.now.codes.now self.now.values.now) first count) }
    {
        (first..first + count).all(|i| self.condition_formed(i))
    }

    // Question 6 of a set that is present.
    #[tactic(auto, unfolding(crate::specs::Questions::present_formed))]
    fn present_formed(&self, s: SpeedSet) -> bool
        ensures { result ≡ present_formed self.now.codes.now self.now.values.now self.now.limits.now s }
    {
        let params = s.params_first as usize;
        let params_count = s.params_count as usize;
        let first = s.limits_first as usize;
        let count = s.limits_count as usize;
        if 1 < s.is_head_end {
            return false;
        }
        if 64 < params_count {
            return false;
        }
        if self.codes.len() < 2 * (params + params_count) {
            return false;
        }
        if self.values.len() < params + params_count {
            return false;
        }
        if self.limits.len() < 3 * (first + count) {
            return false;
        }
        if !self.conditions_formed(params, params_count) {
            return false;
        }
        limits_formed(self.limits, first, count)
    }

    // Question 6 of a set place: the flag is known, and a set that is present is well formed.
    #[tactic(auto, unfolding(crate::specs::Questions::set_formed))]
    pub fn set_formed(&self, s: SpeedSet) -> bool
        ensures { result ≡ set_formed self.now.codes.now self.now.values.now self.now.limits.now s }
    {
        if 1 < s.present {
            return false;
        }
        if s.present == 0 {
            return true;
        }
        self.present_formed(s)
    }
}
