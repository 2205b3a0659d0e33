//! Budgets of checks.
ghost use Rattle.std.specs.Prelude.{◌≡◌, ◌↔◌, ◌+◌, ◌<◌, ◌≤◌, IsOk, OnErr, OnOk, false, true};

use std::alloc::AllocError;

/// How many signatures were checked in a run, and how many may be: never more than that.
#[derive(Clone, Copy)]
pub struct Budget {
    /// How many may be checked.
    most: u64,
    /// How many were checked.
    checked: u64,
    /// Whether one more was refused.
    spent: bool,
    ghost within: { checked ≤ most },
}

impl Budget {
    /// A budget of which nothing is spent.
    pub fn new(most: u64) -> Budget
        ensures most { result.most ≡ most }
        ensures none { result.checked ≡ 0 }
        ensures left { result.spent ≡ false }
    {
        Budget {
            most,
            checked: 0,
            spent: false,
        }
    }

    /// Takes one check. Whoever checks a signature takes it first. Takes no memory.
    ///
    /// # Errors
    ///
    /// `AllocError` where no check is left to take, so that the signature must not be checked.
    pub fn take(&mut self) -> Result<(), AllocError>
        ensures answer { IsOk result ↔ (self.old.checked < self.old.most) }
        ensures most { self.new.most ≡ self.old.most }
        ensures taken { OnOk result (self.new.checked ≡ self.old.checked + 1) }
        ensures kept { OnErr result (self.new.checked ≡ self.old.checked) }
        ensures spent { OnErr result (self.new.spent ≡ true) }
        ensures left { OnOk result (self.new.spent ≡ self.old.spent) }
    {
        if self.checked < self.most {
            self.checked += 1;
            return Ok(());
        }
        self.spent = true;
        Err(AllocError)
    }

    /// Whether a check was refused.
    pub fn is_spent(&self) -> bool
        ensures { result ≡ self.now.spent }
    {
        self.spent
    }
}
