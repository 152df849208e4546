// The one scheme of the kernels: a polynomial by Horner's rule, and an odd one by it.
ghost use Rattle.std.specs.Prelude.{◌≡◌, fold};
ghost use Rattle.numeric.specs.Floats.{◌⊖◌, ◌⊗◌};

// 2^-27: the cube of what is smaller is lost beside it
pub(crate) const TINY: f64 = 7.450580596923828e-9;

// c − z (d − z (…)), from the inside: the innermost coefficient, and then each of `outwards` less z times what stands so far.
pub(crate) fn horner(z: f64, innermost: f64, outwards: &[f64]) -> f64
    ensures { result ≡ fold (λ h c. c ⊖ z ⊗ h) innermost outwards.now }
{
    outwards.iter().fold(innermost, |h, c| *c - z * h)
}

// r − r z h, where h is that polynomial at z = r².
pub(crate) fn odd_polynomial(r: f64, innermost: f64, outwards: &[f64]) -> f64
    ensures { result ≡ (let z = r ⊗ r in r ⊖ r ⊗ (z ⊗ fold (λ h c. c ⊖ z ⊗ h) innermost outwards.now)) }
{
    let z = r * r;
    r - r * (z * horner(z, innermost, outwards))
}
