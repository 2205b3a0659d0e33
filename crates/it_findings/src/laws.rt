//! The law of members that nobody looks at: a function that does nothing and whose contract holds
//! for all documents.
ghost use Rattle.it_findings.specs.Laws.{NobodyLooksAtMore};

/// What an object of a policy, of a layout, of their key objects, of a link, of a Statement or of
/// its provenance is read as does not depend on members of other names than those that are looked
/// at in it.
pub fn nobody_looks_at_more()
    ensures { NobodyLooksAtMore }
{}
