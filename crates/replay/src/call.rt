// The calls by their codes.

// What later calls are made on.
#[derive(Clone, Copy)]
pub enum Set {
    Train,
    Table,
    List,
    State,
    Point,
    Strap,
}

// The calls that may change a path by more than its front.
#[derive(Clone, Copy)]
pub enum Change {
    New,
    Extend,
    Finish,
    RecalcSpeeds,
    Reindex,
}

impl Change {
    pub fn name(self) -> &'static str {
        match self {
            Change::New => "new",
            Change::Extend => "extend",
            Change::Finish => "finish",
            Change::RecalcSpeeds => "recalc_speeds",
            Change::Reindex => "reindex",
        }
    }
}

// The calls that read a path.
#[derive(Clone, Copy)]
pub enum Read {
    Position,
    Grades,
    Curves,
}

impl Read {
    pub fn name(self) -> &'static str {
        match self {
            Read::Position => "set_link_and_offset",
            Read::Grades => "link_grades",
            Read::Curves => "link_curves",
        }
    }
}

// The calls that search the list.
#[derive(Clone, Copy)]
pub enum Search {
    CalcIdx,
    PointNew,
    PointRes,
    StrapNew,
    StrapRes,
}

impl Search {
    pub fn name(self) -> &'static str {
        match self {
            Search::CalcIdx => "calc_idx",
            Search::PointNew => "Point::new",
            Search::PointRes => "Point::calc_res",
            Search::StrapNew => "Strap::new",
            Search::StrapRes => "Strap::calc_res",
        }
    }
}

// The calls that move a point or a strap and read no list.
#[derive(Clone, Copy)]
pub enum Fix {
    Point,
    Strap,
}

impl Fix {
    pub fn name(self) -> &'static str {
        match self {
            Fix::Point => "Point::fix_cache",
            Fix::Strap => "Strap::fix_cache",
        }
    }
}

#[derive(Clone, Copy)]
pub enum Call {
    Set(Set),
    Change(Change),
    Clear,
    Read(Read),
    Search(Search),
    Fix(Fix),
    PointValues,
    StrapValues,
}

// The call of a code; none where there is no such call.
pub fn of_code(code: u64) -> Option<Call> {
    match code {
        0x1 => Some(Call::Set(Set::Train)),
        0x2 => Some(Call::Set(Set::Table)),
        0x3 => Some(Call::Change(Change::New)),
        0x4 => Some(Call::Change(Change::Extend)),
        0x5 => Some(Call::Clear),
        0x6 => Some(Call::Change(Change::Finish)),
        0x7 => Some(Call::Change(Change::RecalcSpeeds)),
        0x8 => Some(Call::Change(Change::Reindex)),
        0x9 => Some(Call::Set(Set::List)),
        0xa => Some(Call::Search(Search::CalcIdx)),
        0xb => Some(Call::Set(Set::State)),
        0xc => Some(Call::Search(Search::PointNew)),
        0xd => Some(Call::Search(Search::PointRes)),
        0xe => Some(Call::Search(Search::StrapNew)),
        0xf => Some(Call::Search(Search::StrapRes)),
        0x10 => Some(Call::Read(Read::Position)),
        0x11 => Some(Call::Set(Set::Point)),
        0x12 => Some(Call::Set(Set::Strap)),
        0x13 => Some(Call::Read(Read::Grades)),
        0x14 => Some(Call::Read(Read::Curves)),
        0x15 => Some(Call::PointValues),
        0x16 => Some(Call::StrapValues),
        0x17 => Some(Call::Fix(Fix::Point)),
        0x18 => Some(Call::Fix(Fix::Strap)),
        _ => None,
    }
}
