//! What holds of all journals and texts. These functions do nothing: their contracts say it, of the
//! definitions by which `write_journal` and `read_journal` are stated.

ghost use Rattle.hs_journal.specs.Laws.{FaultlessTextsAreJournals, TextsHaveOneJournal, JournalsHaveOneText, NoTextBeginsAnother, BeginningsAreOne};

/// A text has no fault exactly where it is the text of some journal, so what was written is read back.
pub fn faultless_texts_are_journals()
    ensures { FaultlessTextsAreJournals }
{}

/// A text reads as one journal at most.
pub fn texts_have_one_journal()
    ensures { TextsHaveOneJournal }
{}

/// A journal has one text.
pub fn journals_have_one_text()
    ensures { JournalsHaveOneText }
{}

/// The text of one journal never goes on as that of a second one.
pub fn no_text_begins_another()
    ensures { NoTextBeginsAnother }
{}

/// What begins with a journal's text begins with that of one journal only.
pub fn beginnings_are_one()
    ensures { BeginningsAreOne }
{}
