ghost use Rattle.std.specs.Prelude.{◌≡◌, ◌<◌, ◌≤◌, ◌+◌, ◌*◌, ◌/◌, ◌%◌, ◌^◌, Some, None, IfSome, MatchOption, if◌then◌else◌};
ghost use Rattle.bdi_codec.specs.Deltas.{is_small, difference, is_near, delta_of, sign_extended, restored};
ghost use Rattle.bdi_codec.specs.Rows.{widths_of};

/// A row that keeps a line as a base and deltas.
#[derive(Debug, Clone, Copy, PartialEq, Eq)]
pub struct Shape {
    /// The row's number.
    pub row: u8,
    /// The bytes of an element.
    pub width: usize,
    /// The bytes of a delta.
    pub delta: usize,
    /// The greatest element.
    pub top: u64,
    /// Half the values of a delta: from there on its bytes say a negative number.
    pub half: u64,
    ghost low: { 1 ≤ delta },
    ghost narrow: { delta < width },
    ghost wide: { width ≤ 8 },
    ghost values: { top + 1 ≡ 256 ^ width },
    ghost deltas: { 2 * half ≡ 256 ^ delta },
    ghost whole: { width * (64 / width) ≡ 64 },
    ghost room: { 2 * half ≤ top },
}

pub const B8D1: Shape = Shape {
    row: 2,
    width: 8,
    delta: 1,
    top: 0xffff_ffff_ffff_ffff,
    half: 0x80,
};

pub const B8D2: Shape = Shape {
    row: 3,
    width: 8,
    delta: 2,
    top: 0xffff_ffff_ffff_ffff,
    half: 0x8000,
};

pub const B8D4: Shape = Shape {
    row: 4,
    width: 8,
    delta: 4,
    top: 0xffff_ffff_ffff_ffff,
    half: 0x8000_0000,
};

pub const B4D1: Shape = Shape {
    row: 5,
    width: 4,
    delta: 1,
    top: 0xffff_ffff,
    half: 0x80,
};

pub const B4D2: Shape = Shape {
    row: 6,
    width: 4,
    delta: 2,
    top: 0xffff_ffff,
    half: 0x8000,
};

pub const B2D1: Shape = Shape {
    row: 7,
    width: 2,
    delta: 1,
    top: 0xffff,
    half: 0x80,
};

/// The shape of a row with deltas, and None for every other number.
pub fn shape_of(row: u8) -> Option<Shape>
    ensures row { IfSome result (λ shape. shape.row ≡ row) }
    ensures widths { MatchOption result (widths_of row ≡ None)
        (λ shape. widths_of row ≡ Some (shape.width, shape.delta)) }
{
    match row {
        2 => Some(B8D1),
        3 => Some(B8D2),
        4 => Some(B8D4),
        5 => Some(B4D1),
        6 => Some(B4D2),
        7 => Some(B2D1),
        _ => None,
    }
}

impl Shape {
    /// How many elements a line has.
    pub fn count(self) -> usize
        ensures { result ≡ 64 / self.width }
    {
        64 / self.width
    }

    #[tactic(auto, unfolding(crate::specs::Deltas::is_small))]
    pub fn is_small(self, n: u64) -> bool
        ensures { result ≡ is_small (self.top + 1) self.half n }
    {
        n < self.half || n > self.top - self.half
    }

    #[tactic(auto, unfolding(crate::specs::Deltas::difference))]
    fn difference(self, n: u64, base: u64) -> u64
        requires n_in { n ≤ self.top }
        requires base_in { base ≤ self.top }
        ensures { result ≡ difference (self.top + 1) n base }
    {
        if n >= base {
            n - base
        } else {
            self.top - (base - n) + 1
        }
    }

    #[tactic(auto, unfolding(crate::specs::Deltas::is_near))]
    pub fn is_near(self, base: u64, n: u64) -> bool
        requires base_in { base ≤ self.top }
        requires n_in { n ≤ self.top }
        ensures { result ≡ is_near (self.top + 1) self.half base n }
    {
        self.is_small(n) || self.is_small(self.difference(n, base))
    }

    /// What is kept of an element: itself, or its difference from the base.
    #[tactic(auto, unfolding(crate::specs::Deltas::delta_of))]
    pub fn delta_of(self, base: u64, n: u64) -> u64
        requires base_in { base ≤ self.top }
        requires n_in { n ≤ self.top }
        ensures { result ≡ delta_of (self.top + 1) self.half base n }
    {
        if self.is_small(n) {
            n
        } else {
            self.difference(n, base)
        }
    }

    #[tactic(auto, unfolding(crate::specs::Deltas::sign_extended))]
    fn sign_extended(self, low: u64) -> u64
        requires { low < 2 * self.half }
        ensures value { result ≡ sign_extended (self.top + 1) self.half low }
        ensures below { result ≤ self.top }
    {
        if low < self.half {
            low
        } else {
            low + (self.top - 2 * self.half + 1)
        }
    }

    fn wrapped_sum(self, a: u64, b: u64) -> u64
        requires a_in { a ≤ self.top }
        requires b_in { b ≤ self.top }
        ensures { result ≡ (a + b) % (self.top + 1) }
    {
        if a > self.top - b {
            a - (self.top - b) - 1
        } else {
            a + b
        }
    }

    /// The element that the low bytes of a delta say, on top of the base where it was not small.
    #[tactic(auto, unfolding(crate::specs::Deltas::restored))]
    pub fn restored(self, base: u64, is_large: bool, low: u64) -> u64
        requires base_in { base ≤ self.top }
        requires low_in { low < 2 * self.half }
        ensures { result ≡ restored (self.top + 1) self.half base (if is_large then 1 else 0) low }
    {
        let delta = self.sign_extended(low);
        if is_large {
            self.wrapped_sum(delta, base)
        } else {
            delta
        }
    }
}
