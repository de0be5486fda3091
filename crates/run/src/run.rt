//! A run: the card that it uses, and where it stands.
ghost use Rattle.std.specs.Prelude.{IfSome};
ghost use Rattle.network.specs.Model.{model};
ghost use Rattle.minute.specs.Minutes.{at};
ghost use Rattle.minute.specs.Standing.{Standing};

use card::closed::ClosedCard;
use judge::closure::Closure;
use minute::position::Position;

/// A run of a card: live if the card is good, and barred if it is bad. It keeps the card, and gives it back at its end.
#[derive(Drop)]
pub struct Run {
    pub(crate) card: ClosedCard,
    // the tables that win; a barred run has none
    pub(crate) closure: Option<Closure>,
    // the minute that is played next
    pub(crate) next: u16,
    pub(crate) position: Position,
    ghost ok: { ∥ IfSome closure (λ t. Standing (model card.network.content) t next (at position.minutes)) ∥₁ },
}
