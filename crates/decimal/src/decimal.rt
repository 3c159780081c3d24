// A decimal: a sign, digits and at most one point. Its digits make one whole number, divided by a power of ten: one rounding.
ghost use Rattle.std.specs.Prelude.{◌≡◌};
ghost use Rattle.decimal.specs.Known.{Small};
ghost use Rattle.decimal.specs.Decimal as spec;

// What the bytes read so far make: their digits as one whole number, the power of ten that it is to be divided by, whether a point and whether a digit
// was among them: what was read, not whether it is good.
#[derive(Clone, Copy)]
pub struct Digits {
    pub whole: u64,
    pub scale: u64,
    pub point: bool,
    pub some: bool,
}

impl Digits {
    // One byte more, a digit or the only point; none where no number goes on so.
    fn step(self, b: u8) -> Option<Digits>
        requires { Small self }
        ensures { result ≡ spec.step self b }
    {
        if !b.is_ascii_digit() {
            if (b == b'.') & !self.point {
                return Some(Digits {
                    point: true,
                    ..self
                });
            }
            return None;
        }
        let whole = 10 * self.whole + u64::from(b - b'0');
        let scale = if self.point {
            10 * self.scale
        } else {
            self.scale
        };
        if (whole <= 9007199254740992) & (scale <= 1000000000000000000) {
            return Some(Digits {
                whole,
                scale,
                point: self.point,
                some: true,
            });
        }
        None
    }

    // The number that they make, below 0 where a minus stood before them. A cast by `as` is not defined above 2 ^ 53, where the larger powers of ten lie.
    fn value(self, negative: bool) -> Option<f64>
        requires { Small self }
        ensures { result ≡ spec.value_of negative self }
    {
        if !self.some {
            return None;
        }
        let q = self.whole as f64 / std::num::nearest_u64_to_f64(self.scale);
        if negative {
            return Some(-q);
        }
        Some(q)
    }
}

// What all bytes make; none where they are no number.
fn digits_of(text: &[u8]) -> Option<Digits>
    ensures { result ≡ spec.digits_of text.now }
{
    let mut d = Digits {
        whole: 0,
        scale: 1,
        point: false,
        some: false,
    };
    for &b in text {
        d = d.step(b)?;
    }
    Some(d)
}

// The decimal that a text is.
#[tactic(auto, unfolding(crate::specs::Decimal::read_decimal))]
pub fn read_decimal(text: &[u8]) -> Option<f64>
    ensures { result ≡ spec.read_decimal text.now }
{
    if let [b'-', digits @ ..] = text {
        return digits_of(digits)?.value(true);
    }
    digits_of(text)?.value(false)
}
