// What makes a solution's text.

use mz_base::Stop;
use mz_value::Assign;
use std::alloc::Global;

/// What makes a solution's text.
pub trait Printer {
    ghost use Rattle.std.specs.Prelude.{List, map};
    ghost use Rattle.mz_value.specs.Contents.{content};
    ghost use Rattle.fz_items.specs.Forms.{Form};
    ghost use Rattle.mz_print_stream.specs.Printing.{AreTaken, Texts, Says};

    // Whether it makes texts of values of these forms.
    ghost takes: { Self → List Form → Type 0 };

    // The text of each solution, by its values and its number.
    ghost texts: { Self → Texts };

    /// The text of a solution, which is the stream's block with this number, from 1.
    ///
    /// `assign` has a value for each of some shapes of which it makes texts, in their order, and each element lies in its
    /// domain.
    fn text(&self, alloc: Global, assign: &Assign, block: u64) -> Result<Vec<u8>, Stop>
        requires { AreTaken (takes self.now) (map content assign.now.values.items) }
        ensures { Says (texts self.now (map content assign.now.values.items) block) result };
}
