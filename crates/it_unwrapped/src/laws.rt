//! Laws about lines in which bundles are replaced: functions that do nothing, and whose contracts
//! say what was proved.
ghost use Rattle.it_unwrapped.specs.Laws.{NoBundleNoChange, UnwrappedReadsTheSame};

/// What replaces a line reads as the envelope that the line is, or that the line has as a bundle,
/// and as no other.
pub fn unwrapped_reads_the_same()
    ensures { UnwrappedReadsTheSame }
{}

/// Lines of which none is a bundle stay as they were.
pub fn no_bundle_no_change()
    ensures { NoBundleNoChange }
{}
