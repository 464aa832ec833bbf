// What a score is settled from, and the ranges within which it is.
ghost use Rattle.std.specs.Prelude.{◌≡◌, T};
ghost use Rattle.score.specs.Ranges.{in_range, integer, in_range_or_zero};

// h is the raw score in half points, t the trimmed length of the text, l that of its links.
#[derive(Clone, Copy)]
pub struct Points {
    pub h: i32,
    pub t: u32,
    pub l: u32,
}

impl Points {
    // The integer score v.
    pub fn integer(v: i16) -> Points
        ensures { result ≡ integer v }
    {
        Points {
            h: 2 * i32::from(v),
            t: 1,
            l: 0,
        }
    }

    // Whether a kind settles these points as they are.
    pub fn in_range(self) -> bool
        ensures { result ≡ in_range self }
    {
        (-2_097_151..2_097_152).contains(&self.h)
            && (1..=131_072).contains(&self.t)
            && self.l < 8_388_608
    }

    // The points that a kind settles in place of these: themselves, or the integer score 0 where they are out of range.
    pub fn in_range_or_zero(self) -> Points
        ensures value { result ≡ in_range_or_zero self }
        ensures in_range { T (in_range result) }
    {
        if self.in_range() {
            self
        } else {
            Points::integer(0)
        }
    }
}
