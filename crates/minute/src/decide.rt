//! The orders of a minute.
ghost use Rattle.std.specs.Prelude.{◌≡◌, suc, ◌≤◌};
ghost use Rattle.rules.specs.Card.{is_finish};
ghost use Rattle.rules.specs.Game.{no_point};
ghost use Rattle.rules.specs.Tables.{Fits, late as put_off};
ghost use Rattle.network.specs.Model.{model};
ghost use Rattle.judge.specs.Closures.{distance, wait};
ghost use Rattle.minute.specs.Minutes.{at, marked};
ghost use Rattle.minute.specs.Standing.{Tight};
ghost use Rattle.minute.specs.Orders.{Ordered};

use crate::choice::Choice;
use crate::playing::Minute;
use crate::position::Position;
use judge::closure::Closure;
use network::network::Network;

/// Which points are finishes.
fn finishes(network: &Network) -> [bool; 32]
    ensures { marked result ≡ is_finish (model network.now.content) }
{
    let mut marks = [false; 32];
    let spans = network.spans();
    for span in spans {
        marks[usize::from(span.finish)] = true;
    }
    marks
}

impl Minute<'_> {
    /// Goes through the orders that have not been given, in rising number: gives each if the controller can win with it given, and holds it past this minute otherwise.
    pub(crate) fn decide(&self, closure: &Closure, position: &mut Position)
        requires tight { Tight (model self.now.network.now.content) closure.now }
        requires time { self.now.t ≤ (model self.now.network.now.content).horizon }
        requires fits { Fits (model self.now.network.now.content) (distance closure.now) (wait closure.now) self.now.t (put_off (model self.now.network.now.content) no_point) (at position.old.minutes) }
        ensures fits { Fits (model self.now.network.now.content) (distance closure.now) (wait closure.now) (suc self.now.t) no_point (at position.new.minutes) }
        ensures rule { Ordered (model self.now.network.now.content) self.now.t (at position.old.minutes) (at position.new.minutes) }
    {
        let mut late = finishes(self.network);
        // A range: q is the order's number, by which the position and the late points are read and written.
        for q in 0..self.network.points() {
            if late[q] || position.get(q).is_some() {
                continue;
            }
            let choice = Choice {
                minute: *self,
                closure,
                position,
                late: &late,
            };
            if choice.can_give(q) {
                position.set(q, self.t);
            } else {
                late[q] = true;
            }
        }
    }
}
