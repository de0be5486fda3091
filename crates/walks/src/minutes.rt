//! Minutes as weights: joined by sum, chosen by the lesser.
ghost use Rattle.std.specs.Prelude.{◌≡◌, ◌^◌, Some};
ghost use Rattle.walks.specs.Minutes.{Whole, sum, lesser, far, of_minutes, absent_minutes};
ghost use Rattle.std.proofs.Common.{rules};

use crate::weight::Weight;

/// A number of minutes, or none. The greatest number of the field stands for none.
// A number and no Option<i32>: with that, 1000 full tables of 32 points take 386 ms in place of 43.
#[derive(Clone, Copy, PartialEq, Eq, Debug)]
pub struct Minutes {
    raw: i32,
}

impl Minutes {
    const ABSENT: i32 = i32::MAX;

    /// So many minutes. No number of 16 bits stands for none.
    // By a name and not by From: an i16 alone does not say that it counts minutes.
    pub fn of(minutes: i16) -> Minutes
        ensures { of_minutes result ≡ Some minutes }
    {
        Minutes {
            raw: i32::from(minutes),
        }
    }

    /// The minutes, or nothing where the weight is absent.
    pub fn get(self) -> Option<i32>
        ensures { result ≡ of_minutes self }
    {
        (!self.is_absent()).then_some(self.raw)
    }
}

impl Weight for Minutes {
    ghost Model = { Whole };

    ghost meaning = { of_minutes };

    ghost absent = { absent_minutes };

    ghost joined = { sum };

    ghost chosen = { lesser };

    ghost size = { far };

    ghost limit = { 2 ^ 30 };

    ghost join_assoc = { Prim.search rules };

    ghost choose_assoc = { Prim.search rules };

    ghost choose_comm = { Prim.search rules };

    ghost choose_idem = { Prim.search rules };

    ghost left_distrib = { Prim.search rules };

    ghost right_distrib = { Prim.search rules };

    ghost choose_absent = { Prim.search rules };

    ghost absent_join = { Prim.search rules };

    ghost join_absent = { Prim.search rules };

    ghost join_size = { Prim.search rules };

    ghost choose_size = { Prim.search rules };

    fn absent() -> Minutes {
        Minutes {
            raw: Minutes::ABSENT,
        }
    }

    fn is_absent(self) -> bool {
        self.raw == Minutes::ABSENT
    }

    fn join(self, other: Minutes) -> Minutes {
        if self.is_absent() || other.is_absent() {
            Minutes::absent()
        } else {
            Minutes {
                raw: self.raw + other.raw,
            }
        }
    }

    fn choose(self, other: Minutes) -> Minutes {
        Minutes {
            raw: self.raw.min(other.raw),
        }
    }
}
