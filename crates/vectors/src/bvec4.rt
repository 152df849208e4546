// A 4-dimensional boolean vector.
ghost use Rattle.std.specs.Prelude.{◌≡◌};
ghost use Rattle.fault.specs.Answers.{answer};
ghost use Rattle.vectors.specs.Masks.{mask, every, some, index_fault, chosen, number};

use fault::RotationFault;

#[derive(Clone, Copy, PartialEq, Eq, Debug)]
pub struct BVec4 {
    pub x: bool,
    pub y: bool,
    pub z: bool,
    pub w: bool,
}

impl BVec4 {
    pub fn new(x: bool, y: bool, z: bool, w: bool) -> BVec4
        ensures { result ≡ mask x y z w }
    {
        BVec4 { x, y, z, w }
    }

    // A bitmask with the lowest four bits set from the elements of `self`.
    pub fn bitmask(self) -> u32
        ensures { result ≡ number self }
    {
        (self.x as u32) + (self.y as u32) * 2 + (self.z as u32) * 4 + (self.w as u32) * 8
    }

    // Whether any of the elements is true.
    pub fn any(self) -> bool
        ensures { result ≡ some self }
    {
        self.x || self.y || self.z || self.w
    }

    // Whether all the elements are true.
    pub fn all(self) -> bool
        ensures { result ≡ every self }
    {
        self.x && self.y && self.z && self.w
    }

    // The element at `index`. A match names the elements, as `DVec3::at` and `DMat3::col` do; over a slice the three would be no plainer.
    pub fn test(self, index: usize) -> Result<bool, RotationFault>
        ensures { result ≡ answer (index_fault 4 index) (chosen self index) }
    {
        match index {
            0 => Ok(self.x),
            1 => Ok(self.y),
            2 => Ok(self.z),
            3 => Ok(self.w),
            _ => Err(RotationFault::TooShort(1)),
        }
    }
}
