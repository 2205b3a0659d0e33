//! Laws about what counts: functions that do nothing, and whose contracts say what is true of every
//! layout, bundle and panel of checks.
ghost use Rattle.it_step_evidence.specs.EvidenceLaws.{FilesCount};

/// Something counts for a step under a key id exactly where it counts by some file.
pub fn files_count()
    ensures { FilesCount }
{}
