//! Weights that the benchmark draws and adds up.
ghost use Rattle.std.specs.Prelude.{◌≤◌};

use walks::minutes::Minutes;
use walks::plain_wait::PlainWait;
use walks::weight::Weight;

/// A kind of weight with samples.
pub trait Sample: Weight {
    /// A weight of at most 1440 in each part.
    fn draw(number: usize) -> Self
        ensures { Self.Weight.size (Self.Weight.meaning result) ≤ 1440 };

    /// A number that tells the weight.
    fn score(self) -> i64;
}

impl Sample for Minutes {
    fn draw(number: usize) -> Minutes {
        Minutes::of((number % 2881) as i16 - 1440)
    }

    fn score(self) -> i64 {
        self.get().map_or(0, i64::from)
    }
}

impl Sample for PlainWait {
    fn draw(number: usize) -> PlainWait {
        PlainWait {
            plain: Minutes::draw(number),
            wait: Minutes::draw(number / 2881),
        }
    }

    fn score(self) -> i64 {
        self.plain.score().wrapping_add(self.wait.score())
    }
}
