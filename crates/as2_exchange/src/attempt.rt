//! Whether a try is open.

ghost use Rattle.std.specs.Prelude.{◌≡◌};
ghost use Rattle.as2_exchange.specs.Tries.{is_idle};

/// Whether a try to send is open.
#[derive(Clone, Copy, Debug, PartialEq, Eq)]
pub enum Attempt {
    /// No try is open.
    Idle,
    /// A try is open, and more may follow.
    Running,
    /// The last try is open.
    Last,
    /// All tries of a receipt failed.
    Used,
}

impl Attempt {
    /// Whether no try is open.
    pub fn is_idle(self) -> bool
        ensures { result ≡ is_idle self }
    {
        matches!(self, Attempt::Idle)
    }
}
