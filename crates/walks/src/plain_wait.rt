//! Pairs of a plain and a wait part as weights.
ghost use Rattle.std.specs.Prelude.{◌^◌};
ghost use Rattle.walks.specs.Pairs.{Pair, sum_pair, lesser_pair, far_pair, of_pair, absent_pair};
ghost use Rattle.walks.specs.Wholes.{sum_assoc, lesser_assoc, sum_over, sum_under, pair};
ghost use Rattle.std.proofs.Common.{rules};

use crate::minutes::Minutes;
use crate::weight::Weight;

/// A weight for one span: by plain edges alone, and by plain edges and then a wait. Either may be absent.
#[derive(Clone, Copy, PartialEq, Eq, Debug)]
pub struct PlainWait {
    pub plain: Minutes,
    pub wait: Minutes,
}

// The laws are stated again, as in `Minutes`: each is a proof of its own.
impl Weight for PlainWait {
    ghost Model = { Pair };

    ghost meaning = { of_pair };

    ghost absent = { absent_pair };

    ghost joined = { sum_pair };

    ghost chosen = { lesser_pair };

    ghost size = { far_pair };

    ghost limit = { 2 ^ 30 };

    ghost join_assoc = { λ a b c. pair _ _ _ _ (sum_assoc a.0 b.0 c.0) (sum_assoc a.0 b.0 c.1) };

    ghost choose_assoc = { λ a b c. pair _ _ _ _ (lesser_assoc a.0 b.0 c.0) (lesser_assoc a.1 b.1 c.1) };

    ghost choose_comm = { Prim.search rules };

    ghost choose_idem = { Prim.search rules };

    ghost left_distrib = { λ a b c. pair _ _ _ _ (sum_over a.0 b.0 c.0) (sum_over a.0 b.1 c.1) };

    ghost right_distrib = { λ a b c. pair _ _ _ _ (sum_under a.0 b.0 c.0) (sum_under a.0 b.0 c.1) };

    ghost choose_absent = { Prim.search rules };

    ghost absent_join = { Prim.search rules };

    ghost join_absent = { Prim.search rules };

    ghost join_size = { Prim.search rules };

    ghost choose_size = { Prim.search rules };

    fn absent() -> PlainWait {
        PlainWait {
            plain: Minutes::absent(),
            wait: Minutes::absent(),
        }
    }

    fn is_absent(self) -> bool {
        self.plain.is_absent() && self.wait.is_absent()
    }

    fn join(self, other: PlainWait) -> PlainWait {
        PlainWait {
            plain: self.plain.join(other.plain),
            wait: self.plain.join(other.wait),
        }
    }

    fn choose(self, other: PlainWait) -> PlainWait {
        PlainWait {
            plain: self.plain.choose(other.plain),
            wait: self.wait.choose(other.wait),
        }
    }
}
