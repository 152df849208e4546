// A call: its name, and its words one argument at a time. What is missing or no number reads as NaN, 0 or ZYX;
// an Option of each would be no plainer, since every call takes every number.
// What a name stands for is a match and no table, since each call takes and gives types of its own.
use euler::EulerRot;
use matrix::DMat3;
use quaternion::DQuat;
use std::num::f64_from_bits_with_nan;
use std::str::SplitWhitespace;
use vectors::{DVec2, DVec3, DVec4};

#[derive(Drop)]
pub(crate) struct Call<'a> {
    pub(crate) name: &'a str,
    words: SplitWhitespace<'a>,
}

impl<'a> Call<'a> {
    pub(crate) fn new(line: &'a str) -> Call<'a> {
        let mut words = line.split_whitespace();
        Call {
            name: words.next().unwrap_or(""),
            words,
        }
    }

    fn word(&mut self) -> &'a str {
        self.words.next().unwrap_or("")
    }

    // As `numeric_vectors` reads its numbers; two programs share no crate for one line.
    pub(crate) fn f(&mut self) -> f64 {
        u64::from_str_radix(self.word(), 16).map_or(f64::NAN, |bits| f64_from_bits_with_nan(bits))
    }

    pub(crate) fn n(&mut self) -> usize {
        self.word().parse().unwrap_or(0)
    }

    pub(crate) fn order(&mut self) -> EulerRot {
        self.word().parse().unwrap_or(EulerRot::ZYX)
    }

    pub(crate) fn v2(&mut self) -> DVec2 {
        DVec2::new(self.f(), self.f())
    }

    pub(crate) fn v3(&mut self) -> DVec3 {
        DVec3::new(self.f(), self.f(), self.f())
    }

    pub(crate) fn v4(&mut self) -> DVec4 {
        DVec4::new(self.f(), self.f(), self.f(), self.f())
    }

    pub(crate) fn a(&mut self) -> [f64; 4] {
        [self.f(), self.f(), self.f(), self.f()]
    }

    pub(crate) fn q(&mut self) -> DQuat {
        DQuat::from_vec4(self.v4())
    }

    pub(crate) fn m(&mut self) -> DMat3 {
        DMat3::from_cols(self.v3(), self.v3(), self.v3())
    }
}
