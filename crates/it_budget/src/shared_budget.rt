//! Budgets that are shared.

use crate::budget::Budget;
use std::alloc::AllocError;
use std::cell::Cell;

/// The budget of all that check signatures in a run. It lies behind a `&`, and no contract can say
/// what a cell holds, so what is promised of it is promised of `Budget`.
#[derive(Drop)]
pub struct SharedBudget {
    budget: Cell<Budget>,
}

impl SharedBudget {
    /// A budget of `most` checks, of which none is taken.
    pub fn new(most: u64) -> SharedBudget {
        SharedBudget {
            budget: Cell::new(Budget::new(most)),
        }
    }

    /// Takes one check. Whoever checks a signature takes it first. Takes no memory.
    ///
    /// # Errors
    ///
    /// `AllocError` where no check is left to take, so that the signature must not be checked.
    pub fn take(&self) -> Result<(), AllocError> {
        let mut budget = self.budget.get();
        let taken = budget.take();
        self.budget.set(budget);
        taken
    }

    /// Whether a check was refused because none was left. Takes no memory.
    pub fn is_spent(&self) -> bool {
        self.budget.get().is_spent()
    }
}
