//! Laws of the documents: each input is read in at most one way, and not at all where a part of
//! it fails.
ghost use Rattle.it_docs.specs.Laws.{BadPartIsNoLayout, BadPartIsNoPolicy, OneLayout, OneLink};
ghost use Rattle.it_docs.specs.Laws.{OneMoment, OnePolicy, OneRule, OneStatement};

/// Bytes can be read as at most one layout.
pub fn one_layout()
    ensures { OneLayout }
{}

/// Bytes can be read as at most one link.
pub fn one_link()
    ensures { OneLink }
{}

/// A text can be read as at most one moment.
pub fn one_moment()
    ensures { OneMoment }
{}

/// Bytes can be read as at most one policy.
pub fn one_policy()
    ensures { OnePolicy }
{}

/// Texts can be read as at most one rule.
pub fn one_rule()
    ensures { OneRule }
{}

/// Bytes can be read as at most one Statement.
pub fn one_statement()
    ensures { OneStatement }
{}

/// Bytes that have a first part that fails are not a layout.
pub fn bad_part_is_no_layout()
    ensures { BadPartIsNoLayout }
{}

/// Bytes that have a first part that fails are not a policy.
pub fn bad_part_is_no_policy()
    ensures { BadPartIsNoPolicy }
{}
