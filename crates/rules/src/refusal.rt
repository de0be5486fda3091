//! Why a call is turned down.
use thiserror::Error;

/// The reasons, each with its occasion; a refused call changes nothing, but for `StepsSpent`, which leaves its list full.
#[derive(Clone, Copy, PartialEq, Eq, Debug, Error)]
pub enum Refusal {
    /// A horizon outside 1 to 1,440.
    #[error("horizon outside 1 to 1440")]
    HorizonRange,
    /// A point more, where 32 stand.
    #[error("32 points stand")]
    PointsFull,
    /// A point that the card does not have.
    #[error("no such point")]
    NoPoint,
    /// A span from a point that is a finish.
    #[error("start is a finish")]
    StartIsFinish,
    /// Bounds or a duration outside the rule.
    #[error("bounds outside the rule")]
    BoundsRange,
    /// A span more, where 8 stand.
    #[error("8 spans stand")]
    SpansFull,
    /// A tie of a point to itself.
    #[error("tie of a point to itself")]
    SamePoint,
    /// A tie whose gap is outside -1,440 to 1,440.
    #[error("gap outside -1440 to 1440")]
    GapRange,
    /// A tie more, where 96 stand.
    #[error("96 ties stand")]
    TiesFull,
    /// A minute of a run that is barred.
    #[error("run is barred")]
    Barred,
    /// A kitchen that does not fit the card.
    #[error("kitchen does not fit")]
    KitchenUnfit,
    /// A minute after the last.
    #[error("last minute is played")]
    HorizonPlayed,
    /// A buffer shorter than the call needs.
    #[error("buffer too short")]
    ShortBuffer,
    /// A kitchen that disagrees with the run.
    #[error("kitchen disagrees")]
    KitchenDisagrees,
    /// A list too short for the steps.
    #[error("steps are spent")]
    StepsSpent,
    /// A card to explain that is good.
    #[error("card is good")]
    CardGood,
    /// A list of steps whose first unlawful step stands at this place, counted from 0.
    #[error("step unlawful")]
    StepUnlawful(usize),
    /// A list of lawful steps without a closing loop.
    #[error("no closing loop")]
    NoLoop,
    /// A span that the kitchen does not have.
    #[error("no such span")]
    NoSpan,
    /// A start of a span that is not cold.
    #[error("span is not cold")]
    NotCold,
}
