//! Laws about trees and paths: functions that do nothing, and whose contracts say what is true of
//! every tree and every path.
ghost use Rattle.it_merkle.specs.Laws.{OneRoot, SomePath, OneEnd, PathLeads, LeadsFromEntry};

/// The tree of any entries has a root, and no other.
pub fn one_root()
    ensures { OneRoot }
{}

/// Each entry of a tree has a path.
pub fn some_path()
    ensures { SomePath }
{}

/// From a hash at an index, in a tree of a size, a path leads to at most one root.
pub fn one_end()
    ensures { OneEnd }
{}

/// The path of an entry leads from its hash to the root of its tree.
pub fn path_leads()
    ensures { PathLeads }
{}

/// Where a path leads from the hash of a text to the root of some entries, the text is the entry at
/// that index; or two texts that are hashed, one for the root and one on the way, differ and have
/// one SHA-256.
pub fn leads_from_entry()
    ensures { LeadsFromEntry }
{}
