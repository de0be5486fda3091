//! A card in print.
use crate::names::Names;
use network::network::Network;
use std::io;

fn show_points(rt: &impl Print, network: &Network, names: &Names) -> io::Result<()> {
    // A point has no part of its own in the network: it is its number.
    for point in 0..network.points() {
        let kind = if network.is_finish(point as u8) {
            "finish"
        } else {
            "order"
        };
        match names.of(point) {
            "" => println!(rt; "point {point} {kind}")?,
            name => println!(rt; "point {point} {kind} {name}")?,
        }
    }
    Ok(())
}

/// The horizon, then a line for each point, span and tie.
pub fn show_card(rt: &impl Print, network: &Network, names: &Names) -> io::Result<()> {
    println!(rt; "horizon {}", network.horizon())?;
    show_points(rt, network, names)?;
    for (s, span) in network.spans().iter().enumerate() {
        println!(rt;
            "span {s} from {} to {} least {} most {}",
            span.start, span.finish, span.least, span.most
        )?;
    }
    for (i, tie) in network.ties().iter().enumerate() {
        println!(rt; "tie {i} from {} to {} gap {}", tie.from, tie.to, tie.gap)?;
    }
    Ok(())
}
