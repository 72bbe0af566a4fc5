//! What may be wrong with an entry.
ghost use Rattle.std.specs.Prelude.{◌≡◌};
ghost use Rattle.as2_audit.specs.Texts.{fault_text};

/// What is wrong with an entry.
#[derive(Clone, Copy, Debug, PartialEq, Eq)]
pub enum Fault {
    /// A received document was processed, and no MIC is kept of it.
    NoMic,
    /// A received document wasn't processed, and a MIC is kept of it.
    StrayMic,
    /// The MIC that is kept of a received document isn't that of its content.
    MicDiffers,
    /// A document that is sent has a detail that a receipt gives, and no receipt is kept.
    NoReceipt,
    /// A receipt is kept of a document that is sent, and no receipt gives its detail.
    StrayReceipt,
    /// A receipt has settled a document, and a try of it is open or something is waited for.
    StillWaits,
    /// A document was tried, and is kept as one that was never begun.
    NeverBegun,
    /// The receipt that is kept can't be read.
    UnreadableReceipt,
    /// The receipt that is kept names another document.
    ReceiptOfAnother,
    /// The receipt that is kept doesn't give the content this detail.
    DetailDiffers,
    /// The number of an entry isn't below the next one of its box: it was never given.
    NeverGiven,
    /// What an entry waits for is kept otherwise than the entry says.
    WaitsOtherwise,
}

impl Fault {
    /// What is wrong, in words.
    pub fn text(self) -> &'static str
        ensures { result.now ≡ fault_text self }
    {
        match self {
            Fault::NoMic => "no MIC is kept",
            Fault::StrayMic => "a MIC is kept, though it wasn't processed",
            Fault::MicDiffers => "MIC differs",
            Fault::NoReceipt => "no receipt is kept",
            Fault::StrayReceipt => "a receipt is kept, and its detail is another's",
            Fault::StillWaits => "settled, and still waited for",
            Fault::NeverBegun => "tried, and never begun",
            Fault::UnreadableReceipt => "receipt can't be read",
            Fault::ReceiptOfAnother => "receipt is of another document",
            Fault::DetailDiffers => "receipt says something else",
            Fault::NeverGiven => "its number isn't below the counter",
            Fault::WaitsOtherwise => "waits otherwise than it should",
        }
    }
}
