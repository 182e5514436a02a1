// What holds of the words of this crate's contracts, whatever the call.
ghost use Rattle.ff_rec.specs.Contents.{ContentsLaw};
ghost use Rattle.ff_rec.specs.Limits.{LimitLaw, ReadingLaw};
ghost use Rattle.ff_rec.specs.Number.{PrintedIsRead};
ghost use Rattle.ff_rec.specs.Times.{SameIsCounts};
ghost use Rattle.ff_rec.specs.Written.{WrittenIsRead};

/// What is printed of a number is read as that number.
pub fn printed_numbers_are_read()
    ensures { PrintedIsRead }
{}

/// Lists of records are `Same` exactly where each record stands in both as often.
pub fn same_is_each_record_as_often()
    ensures { SameIsCounts }
{}

/// `contents` is just what occurs in the field, in byte order, each content once.
pub fn contents_rise_and_are_what_occurs()
    ensures { ContentsLaw }
{}

/// What a `LineReader` reads of a text in pieces is the text cut at its newlines, up to the first limit that it passes.
pub fn reading_is_cutting()
    ensures { ReadingLaw }
{}

/// What is written for records is read as these records.
pub fn written_records_are_read()
    ensures { WrittenIsRead }
{}

/// A text passes no limit just where it and each of its lines is within them.
pub fn a_text_within_its_limits_passes_none()
    ensures { LimitLaw }
{}
