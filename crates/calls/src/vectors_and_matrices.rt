// The calls of vectors, masks and matrices.
use crate::answers::{Answer, answer, plain};
use crate::arguments::Call;
use matrix::DMat3;
use quaternion::FromQuat;
use vectors::Vector;

impl Call<'_> {
    pub(crate) fn on_vectors_and_matrices(&mut self) -> Option<Answer> {
        self.matrix()
            .or_else(|| self.two())
            .or_else(|| self.three())
            .or_else(|| self.four())
            .or_else(|| self.mask())
    }

    fn matrix(&mut self) -> Option<Answer> {
        Some(match self.name {
            "m.from_cols" => plain(self.m()),
            "m.from_cols_array_2d" => plain(DMat3::from_cols_array_2d([
                self.v3().to_array(),
                self.v3().to_array(),
                self.v3().to_array(),
            ])),
            "m.from_quat" => answer(DMat3::from_quat(self.q())),
            "m.from_euler" => answer(DMat3::from_euler(self.order(), self.f(), self.f(), self.f())),
            "m.to_euler" => answer(self.m().to_euler(self.order())),
            "m.col" => answer(self.m().col(self.n())),
            "m.is_finite" => plain(self.m().is_finite()),
            _ => return None,
        })
    }

    fn two(&mut self) -> Option<Answer> {
        Some(match self.name {
            "v2.dot" => plain(self.v2().dot(self.v2())),
            "v2.length_squared" => plain(self.v2().length_squared()),
            "v2.is_normalized" => plain(self.v2().is_normalized()),
            "v2.is_finite" => plain(self.v2().is_finite()),
            _ => return None,
        })
    }

    fn three(&mut self) -> Option<Answer> {
        Some(match self.name {
            "v3.dot" => plain(self.v3().dot(self.v3())),
            "v3.cross" => plain(self.v3().cross(self.v3())),
            "v3.length" => plain(self.v3().length()),
            "v3.length_squared" => plain(self.v3().length_squared()),
            "v3.length_recip" => plain(self.v3().length_recip()),
            "v3.is_normalized" => plain(self.v3().is_normalized()),
            "v3.is_finite" => plain(self.v3().is_finite()),
            "v3.is_nan" => plain(self.v3().is_nan()),
            "v3.neg" => plain(-self.v3()),
            "v3.add" => plain(self.v3() + self.v3()),
            "v3.sub" => plain(self.v3() - self.v3()),
            "v3.mul_f" => plain(self.v3() * self.f()),
            "v3.div_f" => plain(self.v3() / self.f()),
            "v3.any_orthonormal_vector" => answer(self.v3().any_orthonormal_vector()),
            "v3.zyx" => plain(self.v3().zyx()),
            "v3.index" => answer(self.v3().at(self.n())),
            _ => return None,
        })
    }

    fn four(&mut self) -> Option<Answer> {
        Some(match self.name {
            "v4.dot" => plain(self.v4().dot(self.v4())),
            "v4.length" => plain(self.v4().length()),
            "v4.length_squared" => plain(self.v4().length_squared()),
            "v4.length_recip" => plain(self.v4().length_recip()),
            "v4.normalize" => answer(self.v4().normalize()),
            "v4.is_normalized" => plain(self.v4().is_normalized()),
            "v4.is_finite" => plain(self.v4().is_finite()),
            "v4.is_nan" => plain(self.v4().is_nan()),
            "v4.neg" => plain(-self.v4()),
            "v4.abs" => plain(self.v4().abs()),
            "v4.add" => plain(self.v4() + self.v4()),
            "v4.sub" => plain(self.v4() - self.v4()),
            "v4.mul_f" => plain(self.v4() * self.f()),
            "v4.div_f" => plain(self.v4() / self.f()),
            "v4.cmple" => plain(self.v4().cmple(self.v4())),
            "v4.abs_diff_eq" => plain(self.v4().abs_diff_eq(self.v4(), self.f())),
            _ => return None,
        })
    }

    fn mask(&mut self) -> Option<Answer> {
        Some(match self.name {
            "b4.all" => plain(self.v4().cmple(self.v4()).all()),
            "b4.any" => plain(self.v4().cmple(self.v4()).any()),
            "b4.bitmask" => plain(self.v4().cmple(self.v4()).bitmask()),
            "b4.test" => answer(self.v4().cmple(self.v4()).test(self.n())),
            _ => return None,
        })
    }
}
