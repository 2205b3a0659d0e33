//! Whether a layout has expired (in-toto 1.0 section 4.3, `expires`).
ghost use Rattle.std.specs.Prelude.{◌<ℤ◌, ◌↔◌, IsTrue};

use crate::checking::Checking;
use it_docs::layout::Layout;

/// Whether a layout has expired.
pub(crate) fn is_expired<C: Checking>(checking: &C, layout: &Layout) -> bool
    ensures { IsTrue result ↔ (layout.now.expires <ℤ (C.setting checking.now).moment) }
{
    layout.expires < checking.moment()
}
