// The work of an evaluation, against its budget.

ghost use Rattle.std.specs.Prelude.{◌≡◌, ◌+◌, ◌^◌, ◌<◌, ◌≤◌, ◌↔◌, IsTrue, min};

use std::marker::Model;

/// The steps of work that were spent, against a budget.
#[derive(Clone, Copy, Debug)]
pub struct Steps {
    budget: u64,
    used: u64,
}

impl Model for Steps {
    ghost use Rattle.std.specs.Prelude.{◌+◌, ◌≤◌};
    ghost use Rattle.mz_base.specs.Counts.{Spending};

    ghost Value = { Spending };

    ghost view = { λ s. record { budget = s.budget; used = s.used } };

    ghost invariant = { λ s. s.used ≤ s.budget + 1 };

    ghost inverse = { λ s. record { budget = s.budget; used = s.used } };
}

impl Steps {
    /// No steps of this budget are spent.
    pub fn new(budget: u64) -> Steps
        ensures budget { result.budget ≡ budget }
        ensures used { result.used ≡ 0 }
    {
        Steps { budget, used: 0 }
    }

    /// Spends `n` steps more, and says whether the budget holds them.
    ///
    /// Where it doesn't, the steps used are the budget and 1 from then on.
    pub fn spend(&mut self, n: u64) -> bool
        requires { self.old.budget < 2 ^ 63 }
        ensures within { IsTrue result ↔ (self.old.used + n ≤ self.old.budget) }
        ensures used { self.new.used ≡ min (self.old.used + n) (self.old.budget + 1) }
        ensures budget { self.new.budget ≡ self.old.budget }
    {
        if self.used <= self.budget && n <= self.budget - self.used {
            self.used += n;
            true
        } else {
            self.used = self.budget + 1;
            false
        }
    }

    /// The steps that were spent: at most the budget and 1.
    pub fn used(&self) -> u64
        ensures used { result ≡ self.now.used }
        ensures most { result ≤ self.now.budget + 1 }
    {
        self.used
    }
}
