//! Building calls tried: whether a call is refused by the number that the rules give, and what it makes of the card.
use crate::tally::Tally;
use card::open::OpenCard;
use network::network::Network;
use rules::refusal::Refusal;

/// Whether two cards hold the same. What lies in spare places does not count, so this is no derived equality.
fn same(a: &Network, b: &Network) -> bool {
    a.horizon() == b.horizon()
        && a.points() == b.points()
        && a.spans() == b.spans()
        && a.ties() == b.ties()
        && (0..9).all(|s| a.span(s) == b.span(s))
        && (0..98).all(|i| a.tie(i) == b.tie(i))
        && (0..32u8).all(|point| a.is_finish(point) == b.is_finish(point))
}

/// Makes a call, and notes whether it answered what it should, and changed the card exactly if it was taken.
pub fn try_call<T: Drop, F: FnOnce(&mut OpenCard) -> Result<T, Refusal>>(
    tally: &mut Tally,
    card: &mut OpenCard,
    expected: Option<u8>,
    call: F,
)
    requires { F.IsAlwaysCallable call }
{
    let before = *card.network();
    let answer = call(card).err().map(|refusal| refusal.number());
    let kept = same(&before, card.network());
    tally.note(answer == expected && kept == expected.is_some());
}
