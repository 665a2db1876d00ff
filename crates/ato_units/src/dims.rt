//! Dimensions, with their products, quotients and powers.
ghost use Rattle.std.specs.Prelude.{◌<◌, pos, ◌+ℤ◌, ◌-ℤ◌, ◌*ℤ◌};
ghost use Rattle.ato_units.specs.Exponents.{exponent, HasExponents, GivesExponent};

/// A dimension: the exponents of metre, kilogram, second, ampere, kelvin, mole and candela.
#[derive(Clone, Copy, Debug, PartialEq, Eq)]
pub struct Dim(pub [i8; 7]);

impl Dim {
    /// The dimension of a product. None exactly where an exponent leaves -128 to 127.
    pub fn times(&self, o: &Dim) -> Option<Dim>
        ensures { HasExponents (λ place. exponent self.now.0 place +ℤ exponent o.now.0 place) result }
    {
        let mut exponents = [0i8; 7];
        for i in 0..7 {
            exponents[i] = self.sum_at(o, i)?;
        }
        Some(Dim(exponents))
    }

    /// The dimension of a quotient. None exactly where an exponent leaves -128 to 127.
    pub fn over(&self, o: &Dim) -> Option<Dim>
        ensures { HasExponents (λ place. exponent self.now.0 place -ℤ exponent o.now.0 place) result }
    {
        let mut exponents = [0i8; 7];
        for i in 0..7 {
            exponents[i] = self.difference_at(o, i)?;
        }
        Some(Dim(exponents))
    }

    /// The dimension of the k-th power. None exactly where an exponent leaves -128 to 127.
    pub fn power(&self, k: u32) -> Option<Dim>
        ensures { HasExponents (λ place. exponent self.now.0 place *ℤ pos k) result }
    {
        let mut exponents = [0i8; 7];
        for i in 0..7 {
            exponents[i] = self.product_at(k, i)?;
        }
        Some(Dim(exponents))
    }

    /// The sum of the exponents at a place, where it is one.
    fn sum_at(&self, o: &Dim, place: usize) -> Option<i8>
        requires { place < 7 }
        ensures { GivesExponent (exponent self.now.0 place +ℤ exponent o.now.0 place) result }
    {
        self.0[place].checked_add(o.0[place])
    }

    /// The difference of the exponents at a place, where it is one.
    fn difference_at(&self, o: &Dim, place: usize) -> Option<i8>
        requires { place < 7 }
        ensures { GivesExponent (exponent self.now.0 place -ℤ exponent o.now.0 place) result }
    {
        self.0[place].checked_sub(o.0[place])
    }

    /// The exponent at a place times k, where it is one.
    fn product_at(&self, k: u32, place: usize) -> Option<i8>
        requires { place < 7 }
        ensures { GivesExponent (exponent self.now.0 place *ℤ pos k) result }
    {
        product_of(self.0[place], k)
    }
}

/// An exponent times k, where it is one.
fn product_of(exponent: i8, k: u32) -> Option<i8>
    ensures { GivesExponent (exponent *ℤ pos k) result }
{
    i8::try_from(exponent as i64 * k as i64).ok()
}
