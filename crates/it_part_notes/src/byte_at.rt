//! The byte at a place.
ghost use Rattle.std.specs.Prelude.{◌≡◌, Some};
ghost use Rattle.std.specs.Bool.{OnTrue};
ghost use Rattle.std.specs.List.{slice_get};

/// Whether this byte stands at this place, from 0. Takes no memory.
pub(crate) fn stands(bytes: &[u8], place: usize, byte: u8) -> bool
    ensures { OnTrue result (slice_get bytes.now place ≡ Some byte) }
{
    match bytes.get(place) {
        Some(found) => *found == byte,
        None => false,
    }
}
