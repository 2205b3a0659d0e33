//! Laws about the notes: functions that do nothing, and whose contracts say what is true of every
//! layout, bundle and panel of checks.
ghost use Rattle.it_step_notes.specs.NoteLaws.{FindingsTell};

/// A file that is claimed for a step counts for it under the key ids that the note on the file
/// gives, and under none where the note says why it does not count.
pub fn findings_tell()
    ensures { FindingsTell }
{}
