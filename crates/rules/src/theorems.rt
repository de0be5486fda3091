//! The theorems: each function below has for its contract what specs/ states of the rules.
ghost use Rattle.rules.specs.Theorems.{LoopsLose, ListsTell, TablesWin, MarksExact, GivenNumbered, EdgesListed, LoopsListed, SomeAnswer, OneAnswer};
ghost use Rattle.rules.specs.Theorems.{StartFits, KitchenFits, FitsWins, FitsExact, ChoicesExact, MinuteEnds, EndDone};
ghost use Rattle.rules.specs.Theorems.{LooserGood, ExamplesStand};

/// A negative loop, and so a list of steps that passes, shows that nobody can win.
pub fn loops_lose()
    ensures loops { LoopsLose }
    ensures lists { ListsTell }
{}

/// Closed tables that are sound at the start show that the controller can win; those whose entries are derived are sound exactly if it can.
pub fn tables_win()
    ensures win { TablesWin }
    ensures exact { MarksExact }
{}

/// The numbered edges are the given ones; an edge that is derived in range is known to some list of lawful steps, and a negative loop has a list
/// that passes.
pub fn edges_are_listed()
    ensures numbers { GivenNumbered }
    ensures edges { EdgesListed }
    ensures loops { LoopsListed }
{}

/// Every list of steps has one answer.
pub fn lists_are_read()
    ensures answered { SomeAnswer }
    ensures once { OneAnswer }
{}

/// A position that fits closed tables fits minute by minute, and at the end everything is done.
pub fn fits_to_the_end()
    ensures start { StartFits }
    ensures kitchen { KitchenFits }
    ensures minute { MinuteEnds }
    ensures end { EndDone }
{}

/// Within a minute, what the controller can do is what fits.
pub fn choices_are_exact()
    ensures wins { FitsWins }
    ensures exact { FitsExact }
    ensures choices { ChoicesExact }
{}

/// A looser card than a good one is good.
pub fn looser_is_good()
    ensures { LooserGood }
{}

/// The small cards have their marks.
pub fn examples_stand()
    ensures { ExamplesStand }
{}
