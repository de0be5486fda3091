//! A list of steps in an array: the trials ask for no memory, so that none fails for want of it.
use card::closed::ClosedCard;
use rules::edges::{Edge, Kind, Step};

/// What stands where no edge is written.
pub const NO_EDGE: Edge = Edge {
    kind: Kind::Plain,
    source: 0,
    target: 0,
    weight: 0,
};

const NO_STEP: Step = Step {
    letter: 0,
    left: 0,
    right: 0,
    makes: NO_EDGE,
};

/// No trial writes more steps.
const PLACES: usize = 20;

/// A list of up to so many steps; one that is full stays as it is.
#[derive(Clone, Copy)]
pub struct List {
    steps: [Step; PLACES],
    count: usize,
}

impl List {
    pub fn new() -> List {
        List {
            steps: [NO_STEP; PLACES],
            count: 0,
        }
    }

    pub fn push(&mut self, step: Step) {
        if self.count < PLACES {
            self.steps[self.count] = step;
            self.count += 1;
        }
    }

    /// Takes the last step away.
    pub fn pop(&mut self) {
        self.count = self.count.saturating_sub(1);
    }

    pub fn as_slice(&self) -> &[Step] {
        &self.steps[..self.count.min(PLACES)]
    }

    pub fn as_mut_slice(&mut self) -> &mut [Step] {
        &mut self.steps[..self.count.min(PLACES)]
    }

    /// Adds the step with the edge that the card makes for it; a step that makes none is left out.
    pub fn add(
        &mut self,
        card: &ClosedCard,
        // a number, as a step keeps it
        letter: u8,
        left: u32,
        right: u32,
    ) {
        if let Some(makes) = card.next_edge(self.as_slice(), letter, left, right) {
            self.push(Step {
                letter,
                left,
                right,
                makes,
            });
        }
    }
}
