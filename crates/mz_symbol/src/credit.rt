// Charges that are saved for later nodes, and hints where lines stand.

use crate::run::Run;
use mz_base::Memory;

impl Run {
    ghost use Rattle.std.specs.Prelude.{◌≡◌, IfOk, OnErr};
    ghost use Rattle.mz_symbol.specs.Readings.{Reading, state_of};
    ghost use Rattle.mz_symbol.specs.Makes.{GoesOn, GoesOnBy, Spares};

    /// Saves so many charges, which the caller's work or weight has paid for, for nodes that are made
    /// later. Out of memory where the sum passes 2^64, and then nothing changes.
    pub fn save(&mut self, charges: u64) -> Result<(), Memory>
        ensures goes { GoesOnBy charges self.old self.new }
        ensures same { (r : Reading) → state_of r self.old ≡ state_of r self.new }
    {
        if self.saved > u64::MAX - charges {
            return Err(Memory);
        }
        self.saved += charges;
        Ok(())
    }

    /// Takes so many of the charges that were saved. Out of memory where fewer are left, and then
    /// nothing changes.
    pub fn draw(&mut self, charges: u64) -> Result<(), Memory>
        ensures goes { GoesOn self.old self.new }
        ensures spares { IfOk result (λ _. Spares charges self.old self.new) }
        ensures same { (r : Reading) → state_of r self.old ≡ state_of r self.new }
    {
        if self.saved < charges {
            return Err(Memory);
        }
        self.saved -= charges;
        Ok(())
    }

    /// The number that was last noted under this key. Nothing is promised of it: a caller tests what
    /// stands there.
    pub fn hinted(&self, key: u64) -> Option<u64> {
        match self.hints.get(&key) {
            None => None,
            Some(line) => Some(*line),
        }
    }

    /// Notes a number under a key.
    pub fn hint(&mut self, key: u64, line: u64) -> Result<(), Memory>
        ensures { self.new ≡ self.old }
    {
        let _before = self.hints.insert(key, line)?;
        Ok(())
    }
}
