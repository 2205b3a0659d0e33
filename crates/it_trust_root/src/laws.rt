//! Laws about trusted roots: functions that do nothing, and whose contracts say what was proved.
ghost use Rattle.it_trust_root.specs.Laws.{BadPartIsNoRoot, OneRoot};

/// Bytes are at most one trusted root.
pub fn one_root()
    ensures { OneRoot }
{}

/// Bytes in which a part fails are no trusted root.
pub fn bad_part_is_no_root()
    ensures { BadPartIsNoRoot }
{}
