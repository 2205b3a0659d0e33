//! Laws about reports: functions that do nothing, and whose contracts say what is true of every
//! verdict and every name.
ghost use Rattle.it_report.specs.ReportLaws.{FirstLinesTell, FormsAreWords, FormsTell, ReportTells};

/// Where the first lines of two verdicts differ, their reports do.
pub fn first_lines_tell()
    ensures { FirstLinesTell }
{}

/// Equal reports have equal verdicts: whoever reads a report knows the whole verdict.
pub fn report_tells()
    ensures { ReportTells }
{}

/// Names that are written alike are the same.
pub fn forms_tell()
    ensures { FormsTell }
{}

/// A written name has no space, no line feed and no other byte up to 0x20, so it is one word of its
/// line.
pub fn forms_are_words()
    ensures { FormsAreWords }
{}
