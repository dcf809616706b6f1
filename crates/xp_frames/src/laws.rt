//! Laws of frames. Each law is the contract of a function with an empty body.

ghost use Rattle.xp_frames.specs.Laws.{AnyPieces, FailedEverAfter, NoFrameBeginsAnother, OneReading};

/// No frame is a proper prefix of another frame.
pub fn no_frame_begins_another()
    ensures { NoFrameBeginsAnother }
{}

/// A stream has only one list of packets and only one rest, so "the packets of a stream" is well defined.
pub fn one_reading()
    ensures { OneReading }
{}

/// Take any calls in any order. The packets that were returned, followed by those that wait, are the packets of the
/// whole stream. The deframer has failed exactly if a bad header follows them.
pub fn any_pieces()
    ensures { AnyPieces }
{}

/// Every piece after one with a bad header gets `Failed`, and no earlier piece does.
pub fn failed_ever_after()
    ensures { FailedEverAfter }
{}
