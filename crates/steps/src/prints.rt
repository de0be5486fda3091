//! A step in print: its letter, and the numbers of its left and right edges.
ghost use Rattle.std.specs.Prelude.{◌≡◌, Some};
ghost use Rattle.steps.specs.Prints.{letter_shown, step_shown};

use rules::edges::Step;
use std::fmt;

/// The letter of a step; a question mark for one that names no rule.
fn letter_of(step: Step) -> char
    ensures { result ≡ letter_shown step.letter }
{
    match char::from(step.letter) {
        letter @ ('N' | 'U' | 'L' | 'X' | 'R' | 'M' | 'S') => letter,
        _ => '?',
    }
}

/// A step to print.
#[derive(Clone, Copy)]
pub struct Printed(pub Step);

impl fmt::Display for Printed {
    ghost output = { λ s. Some (step_shown s.0) };

    fn fmt<W: fmt::Write>(&self, f: &mut fmt::Formatter<W>) -> fmt::Result {
        let letter = letter_of(self.0);
        let left = self.0.left;
        let right = self.0.right;
        write!(f, "{letter} {left} {right}")
    }
}
