//! The law of trees: a document is what its tree has, of each name the last member.
ghost use Rattle.it_repeats.specs.Laws.{EachDocumentHasATree};

/// A document is made from the tree of its text, in which no member is left out.
pub fn each_document_has_a_tree()
    ensures { EachDocumentHasATree }
{}
