//! Laws on what is listed, each the contract of a function that does nothing.
ghost use Rattle.store_commands.specs.Places.{AccountKeepsLines, LinesKeepPlaces};

/// Places: a line of `inbox` stays at its place, where a legal journal is extended and where it is
/// written anew as its brief account. So the number of lines that a reader had is a cursor that
/// serves for ever.
pub fn lines_keep_places()
    ensures extended { LinesKeepPlaces }
    ensures compacted { AccountKeepsLines }
{}
