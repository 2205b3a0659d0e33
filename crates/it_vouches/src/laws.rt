//! Laws about bundles that vouch: functions that do nothing, and whose contracts say what was
//! proved.
ghost use Rattle.it_vouches.specs.Laws.{VouchesOnce};

/// A bundle vouches for at most one identity.
pub fn vouches_once()
    ensures { VouchesOnce }
{}
