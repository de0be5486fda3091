//! What a kind of weight is.
ghost use Rattle.std.specs.Prelude.{◌≡◌, ℕ, ◌+◌, ◌≤◌, max, Decides};

/// A kind of weight that edges and walks may have. Its meaning lies in a model over whole numbers, where the laws
/// hold without bounds; code keeps weights within `limit`, so that no machine number overflows.
/// Above each law stands what the proof of the best weights uses it for.
pub trait Weight: Copy {
    ghost Model: { Type 0 };

    ghost meaning: { Self → Model };

    /// The weight where there is no walk.
    ghost absent: { Self };

    ghost joined: { Model → Model → Model };

    ghost chosen: { Model → Model → Model };

    /// How far a weight lies from 0, in its farthest part.
    ghost size: { Model → ℕ };

    /// Up to which size a weight fits.
    ghost limit: { ℕ };

    fn absent() -> Self
        ensures { result ≡ absent };

    fn is_absent(self) -> bool
        ensures { Decides result (meaning self ≡ meaning absent) };

    /// The weight of one walk and then another.
    fn join(self, other: Self) -> Self
        requires { size (meaning self) + size (meaning other) ≤ limit }
        ensures { meaning result ≡ joined (meaning self) (meaning other) };

    /// The better of two weights, or what is best in each of their parts.
    fn choose(self, other: Self) -> Self
        ensures { meaning result ≡ chosen (meaning self) (meaning other) };

    /// A walk weighs its parts joined, wherever it is parted (`weight_chain`, `onward_parted`).
    ghost join_assoc: { (a b c : Model) → joined (joined a b) c ≡ joined a (joined b c) };

    /// What wins against a winner wins against the loser too (`wins_trans`).
    ghost choose_assoc: { (a b c : Model) → chosen (chosen a b) c ≡ chosen a (chosen b c) };

    /// A choice wins against the first of the two (`wins_left`).
    ghost choose_comm: { (a b : Model) → chosen a b ≡ chosen b a };

    /// A choice wins against either of the two, and one edge against itself (`wins_right`, `best_one`).
    ghost choose_idem: { (a : Model) → chosen a a ≡ a };

    /// A walk joined with a choice over walks is a choice over walks (`join_walk`, `wins_join`).
    ghost left_distrib: { (a b c : Model) → joined a (chosen b c) ≡ chosen (joined a b) (joined a c) };

    /// So is a choice over walks joined with another (`join_choice`, `wins_join`).
    ghost right_distrib: { (a b c : Model) → joined (chosen a b) c ≡ chosen (joined a c) (joined b c) };

    /// A way that is absent is left out (`none_before`, `none_after`).
    ghost choose_absent: { (a : Model) → chosen a (meaning absent) ≡ a };

    /// So is every way that begins with an absent weight (`none_before`, for the rows of a table).
    ghost absent_join: { (a : Model) → joined (meaning absent) a ≡ meaning absent };

    /// So is every way that ends with an absent weight (`none_after`, for walks to one target).
    ghost join_absent: { (a : Model) → joined a (meaning absent) ≡ meaning absent };

    /// A size grows with the length of the walk (`weight_size`).
    ghost join_size: { (a b : Model) → size (joined a b) ≤ size a + size b };

    /// It does not grow with the number of walks (`choice_size`).
    ghost choose_size: { (a b : Model) → size (chosen a b) ≤ max (size a) (size b) };
}
