// A value that one call drops.

ghost use Rattle.std.specs.Prelude.{◌≡◌};

/// A value that one call drops, whatever its type. A large enum that is kept plainly across a `?` costs a branch for each
/// variant there.
pub struct OneDrop<T> {
    pub value: T,
}

impl<T: Drop> Drop for OneDrop<T> {
    fn drop(self) {
        let OneDrop { value: _value } = self;
    }
}

impl<T: Drop> OneDrop<T> {
    /// Holds a value.
    pub fn new(value: T) -> OneDrop<T>
        ensures { result.value ≡ value }
    {
        OneDrop { value }
    }

    /// Hands the value out.
    pub fn take(self) -> T
        ensures { result ≡ self.value }
    {
        let OneDrop { value } = self;
        value
    }
}
