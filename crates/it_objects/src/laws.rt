//! The law of the braces: each object of a document has one.
ghost use Rattle.it_objects.specs.Laws.{EachObjectHasABrace};

/// A document has no more objects than its text has opening braces.
pub fn each_object_has_a_brace()
    ensures { EachObjectHasABrace }
{}
