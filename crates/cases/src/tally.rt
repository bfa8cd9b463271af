//! How many cases agree, and how many differ.
ghost use Rattle.std.specs.Prelude.{◌≡◌, ◌+◌};
ghost use Rattle.cases.specs.Counts.{all_agree, at_most, counted};

/// How many cases agree, and how many differ. A count stops at 2⁶⁴ − 1.
#[derive(Clone, Copy)]
pub struct Tally {
    /// How many agree.
    pub agree: u64,
    /// How many differ.
    pub differ: u64,
}

impl Tally {
    /// No case is counted yet.
    pub const NONE: Tally = Tally {
        agree: 0,
        differ: 0,
    };

    /// Counts one more that agrees, or that differs.
    pub fn count(&mut self, agrees: bool)
        ensures { self.new ≡ counted self.old agrees }
    {
        if agrees {
            self.agree = self.agree.saturating_add(1);
        } else {
            self.differ = self.differ.saturating_add(1);
        }
    }

    /// How many cases there are.
    pub fn all(self) -> u64
        ensures { result ≡ at_most (self.agree + self.differ) }
    {
        self.agree.saturating_add(self.differ)
    }

    /// Whether none differs.
    pub fn all_agree(self) -> bool
        ensures { result ≡ all_agree self }
    {
        self.differ == 0
    }
}
