//! The law of paths: where files lie apart, a path is one thing.
ghost use Rattle.it_memory.specs.Laws.{APathIsOneThing};

/// Where files lie apart, a path has one content, and is no folder where it is a file.
pub fn a_path_is_one_thing()
    ensures { APathIsOneThing }
{}
