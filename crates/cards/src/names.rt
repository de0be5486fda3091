//! The names of points, which belong to the script and not to the card.
use std::alloc::{AllocError, Global};

/// A name for each point, by its number; empty where the script gives none.
#[derive(Drop)]
pub struct Names(Vec<String>);

impl Names {
    /// The names of a card of point 0 alone.
    pub fn new(alloc: Global) -> Result<Names, AllocError> {
        let mut names = Names(Vec::new(alloc));
        names.add("")?;
        Ok(names)
    }

    /// Forgets all names, for a card of point 0 alone.
    pub fn reset(&mut self) -> Result<(), AllocError> {
        self.0.clear();
        self.add("")
    }

    /// Names the next point.
    pub fn add(&mut self, name: &str) -> Result<(), AllocError> {
        let name = String::from_str(*self.0.allocator(), name)?;
        self.0.push(name)?;
        Ok(())
    }

    pub fn of(&self, point: usize) -> &str {
        self.0.get(point).map_or("", |name| name.as_str())
    }
}
