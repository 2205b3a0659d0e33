//! Laws about what the notes say: functions that do nothing, and whose contracts say what was
//! proved.
ghost use Rattle.it_root_notes.specs.Laws.{MissesOnce, VouchesByUsedAuthority, VouchesByUsedLogs};

/// Where none of the logs of a list is used, no bundle vouches for anybody.
pub fn vouches_by_used_logs()
    ensures { VouchesByUsedLogs }
{}

/// Where none of the authorities is used, no bundle vouches for anybody.
pub fn vouches_by_used_authority()
    ensures { VouchesByUsedAuthority }
{}

/// An authority misses at most one condition.
pub fn misses_once()
    ensures { MissesOnce }
{}
