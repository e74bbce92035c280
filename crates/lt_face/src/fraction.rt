//! Fractions of a length.
ghost use Rattle.std.specs.Prelude.{◌≡◌, ◌<◌, ◌*◌, ◌/◌, ◌%◌};

/// How far along a list: a fraction of its length that is less than the whole.
#[derive(Clone, Copy)]
pub struct Fraction {
    pub numerator: u32,
    pub denominator: u32,
    pub ghost proper: { numerator < denominator },
}

impl Fraction {
    /// So many parts of so many, and not all.
    pub fn new(numerator: u32, denominator: u32) -> Fraction
        requires { numerator < denominator }
        ensures numerator { result.numerator ≡ numerator }
        ensures denominator { result.denominator ≡ denominator }
    {
        Fraction {
            numerator,
            denominator,
        }
    }

    /// The place so far along a list of this length: that part of the length, rounded down.
    pub fn place(&self, length: usize) -> usize
        requires { 0 < length }
        ensures value { result ≡ self.now.numerator * length / self.now.denominator }
        ensures within { result < length }
    {
        let parts = self.numerator as u128 * length as u128;
        (parts / self.denominator as u128) as usize
    }

    /// How far along the entry at that place: what was rounded off.
    pub fn rest(&self, length: usize) -> Fraction
        ensures numerator { result.numerator ≡ self.now.numerator * length % self.now.denominator }
        ensures denominator { result.denominator ≡ self.now.denominator }
    {
        let parts = self.numerator as u128 * length as u128;
        Fraction {
            numerator: (parts % self.denominator as u128) as u32,
            denominator: self.denominator,
        }
    }
}
