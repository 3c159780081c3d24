// The path's seven lent columns, which travel together.
ghost use Rattle.std.specs.Prelude.{◌≡◌};
ghost use Rattle.path.specs.Records.{lent, held};

// As a call reads them. Grades and curves are lent apart: a part of one that is handed back lends that one alone.
#[derive(Clone, Copy)]
pub struct PathColumns<'a, 'g, 'c> {
    pub offsets: &'a [f64], // link points: the offset,
    pub numbers: &'a [u32], // and four numbers
    pub grades: &'g [f64], // offset, coefficient and net value
    pub curves: &'c [f64],
    pub speeds: &'a [f64], // offset and speed
    pub powers: &'a [f64], // start, end and power,
    pub districts: &'a [u32], // and the district
}

// As a call may write them.
#[derive(Drop)]
pub struct PathColumnsMut<'a> {
    pub offsets: &'a mut [f64],
    pub numbers: &'a mut [u32],
    pub grades: &'a mut [f64],
    pub curves: &'a mut [f64],
    pub speeds: &'a mut [f64],
    pub powers: &'a mut [f64],
    pub districts: &'a mut [u32],
}

impl PathColumnsMut<'_> {
    // The columns, to read.
    pub fn reading(&self) -> PathColumns<'_, '_, '_>
        ensures { lent result ≡ held self.now }
    {
        PathColumns {
            offsets: &*self.offsets,
            numbers: &*self.numbers,
            grades: &*self.grades,
            curves: &*self.curves,
            speeds: &*self.speeds,
            powers: &*self.powers,
            districts: &*self.districts,
        }
    }
}
