//! What holds of all readings of a stream in pieces. Each function's clause is the law; none does
//! anything.
ghost use Rattle.record_stream.specs.Pieces.{ReadingsAreWhole, ReadingsFollow, ReadingsJoin};
ghost use Rattle.record_stream.specs.Pieces.{ReadingsWiden};

/// What was read of a piece, and then of what was left of it with more behind it, was read of both
/// as one piece.
pub fn readings_join()
    ensures { ReadingsJoin }
{}

/// What comes behind a piece is left behind what is left of it.
pub fn readings_widen()
    ensures { ReadingsWiden }
{}

/// What is read of what is left of a piece comes behind what was read of it.
pub fn readings_follow()
    ensures { ReadingsFollow }
{}

/// Once all bytes of a stream were read from its start, the items given are those of the stream,
/// and it ends as what the reader holds does.
pub fn readings_are_whole()
    ensures { ReadingsAreWhole }
{}
