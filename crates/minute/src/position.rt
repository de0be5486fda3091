//! When the points of a card happened.
ghost use Rattle.std.specs.Prelude.{◌≡◌, ◌<◌, None as Nothing};
ghost use Rattle.rules.specs.Game.{after, only};
ghost use Rattle.minute.specs.Minutes.{at, nothing_yet};

/// The minute of each point that has happened.
#[derive(Clone, Copy)]
pub struct Position {
    // an array by points: a run has a fixed size, and no call on it depends on memory
    pub minutes: [Option<u16>; 32],
}

impl Position {
    /// Nothing has happened yet.
    pub fn new() -> Position
        ensures { at result.minutes ≡ nothing_yet }
    {
        Position {
            minutes: [None; 32],
        }
    }

    /// The minute of a point, or none while it has not happened.
    #[tactic(auto, unfolding(crate::specs::Minutes::at))]
    pub fn get(&self, p: usize) -> Option<u16>
        ensures { result ≡ at self.now.minutes p }
    {
        self.minutes.get(p).copied().flatten()
    }

    /// The point p, which has not happened, happens in minute t.
    pub(crate) fn set(&mut self, p: usize, t: u16)
        requires { (p < 32) × (at self.old.minutes p ≡ Nothing) }
        ensures { at self.new.minutes ≡ after t (only p) (at self.old.minutes) }
    {
        self.minutes[p] = Some(t);
    }
}
