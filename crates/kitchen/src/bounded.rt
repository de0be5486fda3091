//! What bounds a span: a least and a most, or one duration that is both.
ghost use Rattle.std.specs.Prelude.{◌≡◌, ℕ};
ghost use Rattle.kitchen.specs.Makes.{exactly};

/// What gives a span its least and its most.
pub trait Bounded: Copy {
    ghost bounds: { Self → ℕ × ℕ };

    /// The least and the most.
    fn bounds(self) -> (u16, u16)
        ensures { result ≡ bounds self };
}

impl Bounded for u16 {
    ghost bounds = { exactly };

    fn bounds(self) -> (u16, u16) {
        (self, self)
    }
}

impl Bounded for (u16, u16) {
    ghost bounds = { λ b. b };

    fn bounds(self) -> (u16, u16) {
        self
    }
}
