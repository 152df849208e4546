// What is proved of exact numbers, each theorem asked for by the contract of a function. The statements are in specs/Facts.antt and specs/Table.antt.
#![tactic(auto)]

ghost use Rattle.exact.specs.Facts.{LengthsMultiply, ProductsAssociate, TotalsSplit, Triangle, Triangle3, TimesRight, TimesLeft, ImageIsProduct, ImagesNear};
ghost use Rattle.exact.specs.Facts.{Circle, SineCircle, Sizes, AxisTurnLength, ExactTurnLength, ExactTurnLong, NearestTurns, AnyTurns, AnyTurnsWide};
ghost use Rattle.exact.specs.Facts.{OddEven, EqualSines, Adding, Doubling, Halving, Steady, SineSteady};
ghost use Rattle.exact.specs.Facts.{QuaternionExamples, SineExamples, NoTurn, HalfTurns};
ghost use Rattle.exact.specs.Table.{TableReads};

/// The squared length of a product is the product of the squared lengths; products associate, and those of lists split.
pub fn product_stands()
    ensures length { LengthsMultiply }
    ensures grouping { ProductsAssociate }
    ensures lists { TotalsSplit }
{}

/// The triangle law, of quaternions and of vectors; a distance times a quaternion of bounded length, from either side.
pub fn distance_stands()
    ensures triangle { Triangle }
    ensures vectors { Triangle3 }
    ensures right { TimesRight }
    ensures left { TimesLeft }
{}

/// The image of a vector is q v q*; near quaternions have near images.
pub fn image_stands()
    ensures product { ImageIsProduct }
    ensures near { ImagesNear }
{}

/// S² + C² is 1 within 2^-73, and so is sin² + cos²; hence their sizes.
pub fn circle_stands()
    ensures series { Circle }
    ensures angle { SineCircle }
    ensures sizes { Sizes }
{}

/// The squared lengths of exact turns: 1 within 2^-73 about an axis, within 2^-71 by three letters.
pub fn turn_length_stands()
    ensures axis { AxisTurnLength }
    ensures letters { ExactTurnLength }
    ensures long { ExactTurnLong }
{}

/// The nearest number of quarter turns leaves at most P/4; any near number of them serves, within 2^-73, or 2^-59 if it leaves up to P/2.
pub fn quarter_turns_stand()
    ensures nearest { NearestTurns }
    ensures any { AnyTurns }
    ensures wide { AnyTurnsWide }
{}

/// The sine is odd and the cosine even, within 2^-73.
pub fn odd_even_stands()
    ensures { OddEven }
{}

/// Equal fractions have equal sines and cosines.
pub fn equal_sines_stand()
    ensures { EqualSines }
{}

/// The addition theorem, the double angle and the half angle, within 2^-57.
pub fn adding_stands()
    ensures sum { Adding }
    ensures double { Doubling }
    ensures half { Halving }
{}

/// S and C, and the sine and cosine, change by hardly more than the argument.
pub fn steady_stands()
    ensures series { Steady }
    ensures angle { SineSteady }
{}

/// i j = k, j i = -k, i j k = -1, and two beams.
pub fn quaternion_examples_stand()
    ensures { QuaternionExamples }
{}

/// Ties, quarters, and the sine and cosine of 0.
#[tactic(auto, using(crate::proofs::Shown::sine_examples))]
pub fn sine_examples_stand()
    ensures { SineExamples }
{}

/// Three angles 0 are no turn; half turns show the order of the letters.
pub fn turn_examples_stand()
    ensures none { NoTurn }
    ensures half { HalfTurns }
{}

/// Forty sines and cosines to 24 digits.
#[tactic(auto, using(crate::proofs::Tables::table_reads))]
pub fn table_stands()
    ensures { TableReads }
{}
