//! What entries wait for.

ghost use Rattle.std.specs.Prelude.{◌≡◌, ◌≤◌};
ghost use Rattle.as2_rows.specs.Waiting.{kind_code};

/// What an entry waits for.
#[derive(Clone, Copy, Debug, PartialEq, Eq)]
pub enum Wait {
    /// A document is to be sent.
    ToSend,
    /// A receipt is to be sent.
    ToSendReceipt,
    /// The receipt for a document is awaited.
    ToHear,
    /// The last try of a document is open.
    ToEnd,
}

impl Wait {
    /// Its code in the table of what waits: 1 to 4.
    pub fn code(self) -> u64
        ensures code { result ≡ kind_code self }
        ensures most { result ≤ 4 }
    {
        match self {
            Wait::ToSend => 1,
            Wait::ToSendReceipt => 2,
            Wait::ToHear => 3,
            Wait::ToEnd => 4,
        }
    }
}
