//! The kinds of entries that are read.
ghost use Rattle.std.specs.Prelude.{◌↔◌, IsTrue, codes};
ghost use Rattle.it_log_entry.specs.Agreement.{IsOfKind, IsReadKind};

use crate::kind::EntryKind;

/// Whether the kind is one of those that are read.
pub(crate) fn is_read_kind(kind: &EntryKind) -> bool
    ensures { IsTrue result ↔ IsReadKind kind.now }
{
    is_dsse(kind) || is_intoto(kind)
}

/// Whether it is `dsse`, version 0.0.1.
pub(crate) fn is_dsse(kind: &EntryKind) -> bool
    ensures { IsTrue result ↔ IsOfKind kind.now (codes "dsse") (codes "0.0.1") }
{
    is_of_kind(kind, "dsse", "0.0.1")
}

/// Whether it is `intoto`, version 0.0.2.
pub(crate) fn is_intoto(kind: &EntryKind) -> bool
    ensures { IsTrue result ↔ IsOfKind kind.now (codes "intoto") (codes "0.0.2") }
{
    is_of_kind(kind, "intoto", "0.0.2")
}

fn is_of_kind(kind: &EntryKind, name: &str, version: &str) -> bool
    ensures { IsTrue result ↔ IsOfKind kind.now name.now version.now }
{
    kind.kind.as_str() == name && kind.version.as_str() == version
}
