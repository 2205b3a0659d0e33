//! Names, as notes show them.
ghost use Rattle.std.specs.Prelude.{◌≡◌, IfOk};
ghost use Rattle.it_disk.specs.Shown.{shown_form};

use it_report::name::push_name;
use std::alloc::{AllocError, Global};
use std::fmt;
use std::fmt::{Display, Formatter};

/// A name, an id or a path as a note shows it: as reports write it, but an empty one as two quotes.
#[derive(Debug, Drop)]
pub struct Shown {
    form: Vec<u8>,
}

impl Shown {
    /// The form of a name.
    ///
    /// # Errors
    ///
    /// `AllocError` where memory was refused.
    pub fn of(alloc: Global, name: &str) -> Result<Shown, AllocError>
        ensures { IfOk result (λ shown. shown.form.items ≡ shown_form name.now) }
    {
        let mut form = Vec::new(alloc);
        if name.is_empty() {
            form.extend_from_slice(b"\"\"")?;
        } else {
            push_name(&mut form, name.as_bytes())?;
        }
        Ok(Shown { form })
    }
}

impl Display for Shown {
    fn fmt<W: fmt::Write>(&self, f: &mut Formatter<W>) -> fmt::Result {
        for byte in self.form.as_slice() {
            f.write_char(*byte as char)?;
        }
        Ok(())
    }
}
