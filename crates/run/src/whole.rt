//! What is proved of whole runs.
ghost use Rattle.run.specs.Whole.{RunsWin};

/// However a run on a good card has gone, the controller can win, a kitchen that took part can go on, no minute up to the last is refused for it,
/// and after the last every point has happened and every tie holds.
pub fn runs_win()
    ensures { RunsWin }
{}
