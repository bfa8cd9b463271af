//! Values that have names.
ghost use Rattle.std.specs.Prelude.{◌≡◌, ℕ, List};
ghost use Rattle.cases.specs.Texts.{Finds};
ghost use Rattle.cases.specs.Names.{NamesEach};

/// A value of a list, in which each has a name of its own.
pub trait Named: Copy + 'static {
    /// The name of each.
    ghost name_of: { Self → List ℕ };

    /// The list.
    ghost all: { List Self };

    /// Each value, once.
    fn all() -> &'static [Self]
        ensures { result.now ≡ all };

    /// The name.
    fn name(self) -> &'static str
        ensures { result.now ≡ name_of self };

    /// Each value is in the list, and no two have one name.
    ghost each: { NamesEach name_of all };

    /// The value with this name.
    final fn named(name: &str) -> Option<Self>
        ensures { Finds (λ k. name.now ≡ name_of k) result }
    {
        Self::all().iter().copied().find(|k| k.name() == name)
    }
}
