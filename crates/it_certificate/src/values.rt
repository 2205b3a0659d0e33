//! The values of extensions, by their identifiers.
ghost use Rattle.std.specs.Prelude.{◌≡◌, map};
ghost use Rattle.std.specs.Option.{option_copied};
ghost use Rattle.it_certificate.specs.Extension.{stated_of};
ghost use Rattle.it_certificate.specs.Values.{value_of};

use crate::extension::Extension;

/// The value of the first extension of this identifier; `None` where there is none.
pub fn value_of<'b>(extensions: &[Extension<'b>], id: &[u8]) -> Option<&'b [u8]>
    ensures { option_copied result ≡ value_of id.now (map stated_of extensions.now) }
{
    for extension in extensions {
        if extension.id == id {
            return Some(extension.value);
        }
    }
    None
}
