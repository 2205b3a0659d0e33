//! Laws about keys: functions that do nothing, and whose contracts say what is true of every key.
ghost use Rattle.std.specs.Prelude.{◌≡◌};
ghost use Rattle.it_p384.specs.Key.{Key, IsKey, info_of};

/// A SubjectPublicKeyInfo is that of at most one key.
pub fn info_tells_key()
    ensures { (key : Key) (other : Key) → IsKey key → IsKey other → info_of key ≡ info_of other
        → key ≡ other }
{}
