//! The list of a minute's events.
ghost use Rattle.std.specs.Prelude.{◌≡◌, ◌≤◌, length};
ghost use Rattle.network.specs.Model.{model};
ghost use Rattle.minute.specs.Minutes.{at};
ghost use Rattle.minute.specs.Events.{written, events as listing};

use crate::playing::Minute;
use crate::position::Position;

impl Minute<'_> {
    /// Writes the events of this minute, finishes first, and answers how many.
    pub(crate) fn write_events(&self, position: &Position, list: &mut [u8]) -> usize
        requires { 32 ≤ length list.old }
        ensures list { list.new ≡ written list.old 0 (listing (model self.now.network.now.content) (at position.now.minutes) self.now.t) }
        ensures count { result ≡ length (listing (model self.now.network.now.content) (at position.now.minutes) self.now.t) }
    {
        // No more than 32.
        let points = self.network.points() as u8;
        let finishes = (0..points).filter(|p| self.happens(position, *p)
            && self.network.is_finish(*p));
        let orders = (0..points).filter(|p| self.happens(position, *p)
            && !self.network.is_finish(*p));
        // A count beside the loop: it is the place to write next, and at the end the answer.
        let mut count = 0;
        for p in finishes.chain(orders) {
            list[count] = p;
            count += 1;
        }
        count
    }
}
