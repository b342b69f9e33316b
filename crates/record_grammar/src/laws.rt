//! What holds of all spellings and of all streams. Each function's clause is the law; none does
//! anything.
ghost use Rattle.record_grammar.specs.Laws.{DecisionsStay, EndingsAreOfRests, FrontsHaveFronts};
ghost use Rattle.record_grammar.specs.Laws.{ItemsAreLongest, NoRecordBeginsAnother, RecordsJoin};
ghost use Rattle.record_grammar.specs.Laws.{RestsGiveNothing, SkippedReadBack};
ghost use Rattle.record_grammar.specs.Laws.{SpelledRecordsAreStreams, SpelledRecordsReadBack};
ghost use Rattle.record_grammar.specs.Laws.{SpellingsAreExact, RecordsReadBack};
ghost use Rattle.record_grammar.specs.Laws.{StreamsAreMadeOfItems, StreamsGoOn};

/// What spells a record is read as that record, whatever follows.
pub fn spellings_read_back()
    ensures { RecordsReadBack }
{}

/// What is passed over is passed over, whatever follows.
pub fn skipped_read_back()
    ensures { SkippedReadBack }
{}

/// No whole record, and no skipped one, is a proper prefix of another.
pub fn none_begins_another()
    ensures { NoRecordBeginsAnother }
{}

/// Bytes that spell two records spell one.
pub fn spellings_are_exact()
    ensures { SpellingsAreExact }
{}

/// An answer of `read_one` other than `More` stays, whatever follows.
pub fn decisions_stay()
    ensures { DecisionsStay }
{}

/// Whatever whole records and skipped ones some bytes begin with, the items of the stream begin
/// with theirs.
pub fn items_are_longest()
    ensures { ItemsAreLongest }
{}

/// A stream is made of its items and of a rest at whose front stands no further one.
pub fn streams_are_made_of_items()
    ensures { StreamsAreMadeOfItems }
{}

/// Records that are spelled one behind the other are the first items of what they begin, each at
/// its place, and what follows comes behind them.
pub fn spelled_records_read_back()
    ensures { SpelledRecordsReadBack }
{}

/// The spellings of some records, one behind the other, are a stream of these records that ends
/// clean.
pub fn spelled_records_are_streams()
    ensures { SpelledRecordsAreStreams }
{}

/// A stream goes on behind its rest: whatever follows, its items are those that it has and those of
/// the rest with what follows, and it ends as these do.
pub fn streams_go_on()
    ensures { StreamsGoOn }
{}

/// The records of a front of a stream are a front of its records.
pub fn fronts_have_fronts()
    ensures { FrontsHaveFronts }
{}

/// The records of items that are joined are the records of the first and those of the others.
pub fn records_join()
    ensures { RecordsJoin }
{}

/// An unfinished rest gives no item.
pub fn rests_give_nothing()
    ensures { RestsGiveNothing }
{}

/// A stream ends as its rest does: `Clean` with nothing, `Inside` with the front of a record that
/// more bytes may complete, and `Bad` with what is no record.
pub fn endings_are_of_rests()
    ensures { EndingsAreOfRests }
{}
