//! A tie on trial.
ghost use Rattle.std.specs.Prelude.{◌≡◌, ◌<◌};
ghost use Rattle.network.specs.Kept.{with_spare};

use network::content::Content;
use rules::parts::Tie;

/// Holds the content of a card while a tie is on trial in its next place. Whichever way the trial ends, that place gets its old tie back.
pub(crate) struct Trial<'a> {
    pub(crate) content: &'a mut Content,
    pub(crate) old: Tie,
}

impl Drop for Trial<'_> {
    fn drop(self)
        requires { self.content.now.tied < 97 }
        ensures { self.exit.0.now ≡ with_spare self.entry.content.now self.entry.old }
    {
        let at = self.content.tied;
        self.content.ties[at] = self.old;
        let Trial { content: _, old: _ } = self;
    }
}
