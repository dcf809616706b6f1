//! Laws of call detail records. Each law is the contract of a function with an empty body.

ghost use Rattle.xp_cdr.specs.Details.{AreJoined, AreReadBack};
ghost use Rattle.xp_cdr.specs.Moments.{IsWhatClockShows};
ghost use Rattle.xp_cdr.specs.RecordLine.{AreRecordTexts};

/// The text of a moment is what a clock in UTC shows at that moment.
pub fn moment_is_what_a_clock_shows()
    ensures { IsWhatClockShows }
{}

/// A reader of CSV reads the fields of a call detail record back.
pub fn details_are_read_back()
    ensures { AreReadBack }
{}

/// A call detail record is its eighteen fields with commas between them, and a line feed: no field needs quotes.
pub fn details_need_no_quotes()
    ensures { AreJoined }
{}

/// The line of the charging record of an ended call is its text by the subscriptions that name its lines.
pub fn lines_are_record_texts()
    ensures { AreRecordTexts }
{}
