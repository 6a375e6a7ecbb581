// One use of a name.

use mz_base::Name;

/// What a name is used for.
#[derive(Clone, Copy)]
pub enum NameUse {
    /// A variable, an enum, a case or a function without parameters is mentioned: by its bare name, or by `f()`.
    Mention(Name),
    /// A function is called with arguments.
    Call(Name),
}
