//! What keeps a text from being a checkpoint that a log signed.
ghost use Rattle.std.specs.Prelude.{◌≡◌};
ghost use Rattle.it_log_entry.specs.Place.{checkpoint_place};

/// What keeps a text from being a checkpoint of a tree that a log signed: the first of these.
#[derive(Clone, Copy, Debug, PartialEq, Eq)]
pub enum NoteShortfall {
    /// It does not read as a signed note of a tree.
    Form,
    /// It is of a tree of another size, or with another root.
    Root,
    /// None of its signatures is the log's.
    Signature,
}

impl NoteShortfall {
    /// How many of these come before it.
    pub(crate) fn place(self) -> u8
        ensures { result ≡ checkpoint_place self }
    {
        match self {
            NoteShortfall::Form => 0,
            NoteShortfall::Root => 1,
            NoteShortfall::Signature => 2,
        }
    }
}
