//! The command `distances`.
use card::closed::ClosedCard;
use distances::distances::Distances;
use std::io;

/// A row for each point: the best plain weight to each point, or a dash where there is none.
pub fn print_distances(rt: &impl Print, card: &ClosedCard) -> io::Result<()> {
    let points = card.network().points();
    let distances = Distances::of(card.network());
    // The table is asked for a weight by the numbers of two points.
    for from in 0..points {
        for to in 0..points {
            let space = if to > 0 { " " } else { "" };
            match distances.get(from as u8, to as u8) {
                Some(weight) => print!(rt; "{space}{weight}")?,
                None => print!(rt; "{space}-")?,
            }
        }
        rt.println("")?;
    }
    Ok(())
}
