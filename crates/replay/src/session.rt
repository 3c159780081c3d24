// What later calls are made on: the train, the table, the list, the position, a point and a strap; and the calls on the list.
use crate::call::{Change, Fix, Search, Set};
use crate::paths::Path;
use crate::print::Values;
use crate::table::Table;
use crate::words;
use crate::words::Column;
use answer::Refusal;
use link::train_params::TrainParams;
use lookup::calc_idx::calc_idx;
use resistance::point::Point;
use resistance::strap::Strap;
use si::Length;
use std::alloc::{AllocError, Global};
use train::train_state::TrainState;

// The table and the list are kept as their places among the words, and laid out for each call that reads them.
#[derive(Clone, Copy)]
pub struct Session<'a> {
    train: TrainParams,
    table: Column<'a>,
    list: Column<'a>,
    pub state: TrainState,
    point: Point,
    strap: Strap,
}

// How many records a list has.
fn records(list: &[f64]) -> usize {
    list.len() / 3
}

impl<'a> Session<'a> {
    // What is made before anything is set reads the text's first words.
    pub fn new(first: Column<'a>) -> Session<'a> {
        Session {
            train: words::train(first),
            table: first,
            list: first,
            state: words::state(first),
            point: Point { idx: 0 },
            strap: Strap {
                idx_front: 0,
                idx_back: 0,
            },
        }
    }

    pub fn set(&mut self, what: Set, args: Column<'a>) {
        match what {
            Set::Train => self.train = words::train(args),
            Set::Table => self.table = args,
            Set::List => self.list = args,
            Set::State => self.state = words::state(args),
            Set::Point => self.point.idx = args.entry(0) as usize,
            Set::Strap => {
                self.strap = Strap {
                    idx_front: args.entry(0) as usize,
                    idx_back: args.entry(1) as usize,
                }
            }
        }
    }

    // A call that may change the path.
    pub fn change(
        &self,
        alloc: Global,
        path: &mut Path,
        c: Change,
        args: Column,
    ) -> Result<Result<Values, Refusal>, AllocError> {
        Ok(match c {
            Change::New => path.start(self.train),
            Change::Extend => {
                let list = args.numbers(alloc, args.held())?;
                let table = Table::read(alloc, self.table)?;
                path.extend(self.train, &list, table.network())
            }
            Change::Finish => path.finish(),
            Change::RecalcSpeeds => {
                let table = Table::read(alloc, self.table)?;
                path.recalc_speeds(self.train, table.network())
            }
            Change::Reindex => {
                let list = args.numbers(alloc, args.held())?;
                path.reindex(&list)
            }
        })
    }

    // The list, laid out.
    pub fn listed(&self, alloc: Global) -> Result<Vec<f64>, AllocError> {
        self.list.floats(alloc, self.list.held())
    }

    pub fn search(&mut self, c: Search, list: &[f64], args: Column) -> Result<Values, Refusal> {
        let n = records(list);
        let state = self.state;
        match c {
            Search::CalcIdx => {
                let x = Length(args.float_at(0));
                let dir = words::dir(args.entry(2));
                let found = calc_idx(list, n, x, args.entry(1) as usize, dir)?;
                Ok(Values::index(found))
            }
            Search::PointNew => {
                let made = Point::new(list, n, state);
                self.at_point(made)
            }
            Search::PointRes => {
                let dir = words::dir(args.entry(0));
                let there = self.point.calc_res(list, n, state, dir)?;
                Ok(self.at_point(Ok(there.point))?.with_value(there.res.0))
            }
            Search::StrapNew => {
                let made = Strap::new(list, n, state);
                self.at_strap(made)
            }
            Search::StrapRes => {
                let dir = words::dir(args.entry(0));
                let there = self.strap.calc_res(list, n, state, dir)?;
                Ok(self.at_strap(Ok(there.strap))?.with_value(there.res.0))
            }
        }
    }

    pub fn fix(&mut self, f: Fix, args: Column) -> Result<Values, Refusal> {
        let k = args.entry(0) as usize;
        match f {
            Fix::Point => {
                let fixed = self.point.fix_cache(k);
                self.at_point(fixed)
            }
            Fix::Strap => {
                let fixed = self.strap.fix_cache(k);
                self.at_strap(fixed)
            }
        }
    }

    // Where a point or a strap is; a refused call leaves it.
    fn at_point(&mut self, r: Result<Point, Refusal>) -> Result<Values, Refusal> {
        self.point = r?;
        Ok(Values::index(self.point.path_tpc_idx_front()))
    }

    fn at_strap(&mut self, r: Result<Strap, Refusal>) -> Result<Values, Refusal> {
        self.strap = r?;
        let s = self.strap;
        Ok(Values::indices(s.path_tpc_idx_front(), s.idx_back))
    }

    pub fn point_coeff(&self, list: &[f64]) -> Result<Values, Refusal> {
        let r = self.point.res_coeff_front(list, records(list))?;
        Ok(Values::value(r.0))
    }

    pub fn point_net(&self, list: &[f64]) -> Result<Values, Refusal> {
        let n = records(list);
        let r = self.point.res_net_front(list, n, self.state)?;
        Ok(Values::value(r.0))
    }

    pub fn strap_coeff_front(&self, list: &[f64]) -> Result<Values, Refusal> {
        let r = self.strap.res_coeff_front(list, records(list))?;
        Ok(Values::value(r.0))
    }

    pub fn strap_coeff_back(&self, list: &[f64]) -> Result<Values, Refusal> {
        let r = self.strap.res_coeff_back(list, records(list))?;
        Ok(Values::value(r.0))
    }

    pub fn strap_net_front(&self, list: &[f64]) -> Result<Values, Refusal> {
        let n = records(list);
        let r = self.strap.res_net_front(list, n, self.state)?;
        Ok(Values::value(r.0))
    }

    pub fn strap_net_back(&self, list: &[f64]) -> Result<Values, Refusal> {
        let n = records(list);
        let r = self.strap.res_net_back(list, n, self.state)?;
        Ok(Values::value(r.0))
    }
}
