//! The number that stands for a refusal.
ghost use Rattle.std.specs.Prelude.{◌≡◌};
ghost use Rattle.rules.specs.Refusals.{number_of};

use crate::refusal::Refusal;

// A method and no conversion: the number does not say at which place a step is unlawful.
impl Refusal {
    /// The number that stands for the refusal.
    pub fn number(self) -> u8
        ensures { result ≡ number_of self }
    {
        match self {
            Refusal::HorizonRange => 1,
            Refusal::PointsFull => 2,
            Refusal::NoPoint => 3,
            Refusal::StartIsFinish => 4,
            Refusal::BoundsRange => 5,
            Refusal::SpansFull => 6,
            Refusal::SamePoint => 7,
            Refusal::GapRange => 8,
            Refusal::TiesFull => 9,
            Refusal::Barred => 10,
            Refusal::KitchenUnfit => 11,
            Refusal::HorizonPlayed => 12,
            Refusal::ShortBuffer => 13,
            Refusal::KitchenDisagrees => 14,
            Refusal::StepsSpent => 15,
            Refusal::CardGood => 16,
            Refusal::StepUnlawful(_) => 17,
            Refusal::NoLoop => 18,
            Refusal::NoSpan => 23,
            Refusal::NotCold => 24,
        }
    }
}
