// Numbers and answers as they are printed.
use answer::Refusal;
use std::fmt;

// The bits of an f64; all of them set for a NaN.
pub fn bits(x: f64) -> u64 {
    if x != x {
        return 0xffff_ffff_ffff_ffff;
    }
    f64::to_bits(x)
}

// The f64s of a column by their bits, each behind a blank.
#[derive(Clone, Copy)]
pub struct Reals<'a>(pub &'a [f64]);

impl fmt::Display for Reals<'_> {
    fn fmt<W: fmt::Write>(&self, f: &mut fmt::Formatter<W>) -> fmt::Result {
        for x in self.0 {
            write!(f, " {:016x}", bits(*x))?;
        }
        Ok(())
    }
}

// The numbers that a call answers.
#[derive(Clone, Copy)]
pub struct Values {
    front: Option<usize>,
    back: Option<usize>,
    value: Option<f64>,
}

impl Values {
    pub fn index(i: usize) -> Values {
        Values {
            front: Some(i),
            back: None,
            value: None,
        }
    }

    pub fn indices(front: usize, back: usize) -> Values {
        Values {
            front: Some(front),
            back: Some(back),
            value: None,
        }
    }

    pub fn value(x: f64) -> Values {
        Values {
            front: None,
            back: None,
            value: Some(x),
        }
    }

    pub fn with_value(mut self, x: f64) -> Values {
        self.value = Some(x);
        self
    }
}

impl fmt::Display for Values {
    fn fmt<W: fmt::Write>(&self, f: &mut fmt::Formatter<W>) -> fmt::Result {
        if let Some(i) = self.front {
            write!(f, " {i:x}")?;
        }
        if let Some(i) = self.back {
            write!(f, " {i:x}")?;
        }
        match self.value {
            Some(x) => write!(f, " {:016x}", bits(x)),
            None => Ok(()),
        }
    }
}

// A call's answer.
#[derive(Clone, Copy)]
pub struct Reply<T>(pub Result<T, Refusal>);

impl<T: fmt::Display> fmt::Display for Reply<T> {
    fn fmt<W: fmt::Write>(&self, f: &mut fmt::Formatter<W>) -> fmt::Result {
        match &self.0 {
            Ok(values) => write!(f, " done{values}"),
            Err(_) => write!(f, " refused"),
        }
    }
}
