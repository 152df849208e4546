// What the operations of f64 do to exact numbers. The laws stand in specs/Theorems.antt; each function here asks for the proof of some, and answers nothing.
#![tactic(auto)]

ghost use Rattle.rounding.specs.Theorems.{SumLaw, DifferenceLaw, ProductLaw, QuotientLaw, RootLaw};
ghost use Rattle.rounding.specs.Theorems.{LessLaw, AtMostLaw, UnitLaw};
ghost use Rattle.rounding.specs.Theorems.{ValueLaw, HeldLaw, NegationLaw, OneLaw, ZeroLaw, NeighboursLaw, HalfLaw, MultipleLaw};
ghost use Rattle.rounding.specs.Theorems.{TicksLaw, BitsLaw, WholeLaw, TruncationLaw, IsCross};

// How far each operation is from the exact result.
pub fn operations_stand()
    ensures sum { SumLaw }
    ensures difference { DifferenceLaw }
    ensures product { ProductLaw }
    ensures quotient { QuotientLaw }
    ensures root { RootLaw }
{}

// Comparisons decide the order of the values, and rounding keeps it.
pub fn order_stands()
    ensures less { LessLaw }
    ensures most { AtMostLaw }
    ensures unit { UnitLaw }
{}

// What f64 holds, and that an operation whose exact result is such a number gives it.
pub fn held_stands()
    ensures values { ValueLaw }
    ensures results { HeldLaw }
{}

// Where nothing is lost.
pub fn exact_stands()
    ensures negation { NegationLaw }
    ensures one { OneLaw }
    ensures nought { ZeroLaw }
    ensures neighbours { NeighboursLaw }
    ensures half { HalfLaw }
    ensures multiple { MultipleLaw }
{}

// The value of a float in ticks, of a bit pattern, of a whole number; and the whole part of a float.
pub fn conversions_stand()
    ensures ticks { TicksLaw }
    ensures bits { BitsLaw }
    ensures integers { WholeLaw }
    ensures truncation { TruncationLaw }
{}

// An example of a formula whose error is computed by the check: a b - c d, within 2^-48 for numbers of size 2 at most.
pub fn cross(a: f64, b: f64, c: f64, d: f64) -> f64
    ensures { IsCross result a b c d }
{
    a * b - c * d
}
