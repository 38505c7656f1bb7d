//! Laws of the text of certificates.

ghost use Rattle.cert_text.specs.Laws.{LinesHaveOneSpelling, NoTextBeginsAnother, PiecesDoNotMatter, BadStaysBad};

/// A line has one spelling at its place, and a spelling one line.
pub fn lines_have_one_spelling()
    ensures { LinesHaveOneSpelling }
{}

/// A certificate has one spelling, and no spelling begins another.
pub fn no_text_begins_another()
    ensures { NoTextBeginsAnother }
{}

/// The lines that a reader tells do not depend on where the text was cut into pieces.
pub fn pieces_do_not_matter()
    ensures { PiecesDoNotMatter }
{}

/// What a reader found bad is bad however the text goes on.
pub fn bad_stays_bad()
    ensures { BadStaysBad }
{}
