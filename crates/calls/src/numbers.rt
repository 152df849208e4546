// The numeric functions and the orders.
use crate::answers::{Answer, answer, plain};
use crate::arguments::Call;
use euler::Order;
use numeric::{acos_approx, atan2, cos, sin, sin_cos, sqrt};

impl Call<'_> {
    pub(crate) fn on_numbers(&mut self) -> Option<Answer> {
        Some(match self.name {
            "math.sin" => answer(sin(self.f())),
            "math.cos" => answer(cos(self.f())),
            "math.sin_cos" => answer(sin_cos(self.f())),
            "math.sqrt" => plain(sqrt(self.f())),
            "math.atan2" => answer(atan2(self.f(), self.f())),
            "math.acos_approx" => answer(acos_approx(self.f())),
            "order" => plain(Order::from(self.order()).angle_order()),
            _ => return None,
        })
    }
}
