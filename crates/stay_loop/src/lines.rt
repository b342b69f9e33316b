//! What `status` tells of the places of the words.
use crate::spots::{Spot, Spots};
use link_places::Stands;
use node_service::Output;
use outside::write_text;
use std::alloc::{AllocError, Global};

/// Adds a line for each place: its number, its contact, how it stands, and the number of its last
/// session. It fails only for want of memory.
pub fn add_places(alloc: Global, spots: &Spots, to: &mut Output) -> Result<(), AllocError> {
    for (i, place) in spots.places.as_slice().iter().enumerate() {
        let mut line = String::new(alloc);
        write!(
            line,
            "link {i} {} {} ",
            place.contact,
            word_of(spots.places.is_full(), place.stands)
        )?;
        add_session(spots.spots.get(i), &mut line)?;
        if write_text(to, line.as_str()).is_err() {
            return Err(AllocError);
        }
    }
    Ok(())
}

// How a place stands, in a word: where the journal is full it is off.
fn word_of(is_full: bool, stands: Stands) -> &'static str {
    match stands {
        _ if is_full => "off",
        Stands::Up(_, _, _) => "up",
        Stands::Tried => "dials",
        Stands::Down => "waits",
    }
}

// The number of its last session.
fn add_session(spot: Option<&Spot>, to: &mut String) -> Result<(), AllocError> {
    let session = match spot {
        Some(spot) => spot.session,
        None => None,
    };
    match session {
        Some(session) => writeln!(to, "{session}"),
        None => writeln!(to, "-"),
    }
}
