//! Laws about bundles: functions that do nothing, and whose contracts say what was proved.
ghost use Rattle.it_bundle.specs.Laws.{OneBundle};

/// Bytes are at most one bundle.
pub fn one_bundle()
    ensures { OneBundle }
{}
