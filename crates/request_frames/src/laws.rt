//! What holds of all requests and answers. Each function's clause is the law; none does anything.
ghost use Rattle.request_frames.specs.Laws.{AnswersReadBack, HeadsReadBack, KeepingGoesOn};
ghost use Rattle.request_frames.specs.Laws.{ReadingsAreWhole, ReadingsBegin, ReadingsGoOn};
ghost use Rattle.request_frames.specs.Laws.{RequestsReadBack};

/// A head that is spelled is read as that head, whatever follows.
pub fn heads_read_back()
    ensures { HeadsReadBack }
{}

/// A request that is spelled is the first of the stream that it begins.
pub fn requests_read_back()
    ensures { RequestsReadBack }
{}

/// Bytes that begin with two answers begin with one: each answer has one reading.
pub fn answers_read_back()
    ensures { AnswersReadBack }
{}

/// Before anything was heard a reader stands for no bytes.
pub fn readings_begin()
    ensures { ReadingsBegin }
{}

/// What is heard of a piece comes behind what was heard before: the request that is told is the
/// next of the stream, and of its input is kept what was asked for.
pub fn readings_go_on()
    ensures { ReadingsGoOn }
{}

/// What is asked of an input changes nothing of what the stream has.
pub fn keeping_goes_on()
    ensures { KeepingGoesOn }
{}

/// Once all bytes of a stream were heard, in whatever pieces, the requests told are those of the
/// stream, and it ends as where the reader stands says.
pub fn readings_are_whole()
    ensures { ReadingsAreWhole }
{}
