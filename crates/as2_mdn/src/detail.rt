//! What is known of a document that was sent, and the class that listings group it in.

ghost use Rattle.std.specs.Prelude.{◌≡◌};
ghost use Rattle.as2_mdn.specs.Details.{class_of, name_of};

/// The class of a detail, as listings group documents that were sent: the letter that they print.
#[derive(Clone, Copy, Debug, PartialEq, Eq)]
pub enum DetailClass {
    /// Pending: not sent yet, or its receipt is awaited.
    P,
    /// Retry: a try is open, or another is due.
    R,
    /// Success: its receipt says that it was processed, with its MIC.
    S,
    /// Warning: it was delivered, but its receipt leaves something open, or none was asked for.
    W,
    /// Error: its receipt says that it was not taken as it is, or there is none.
    E,
}

/// What is known of a document that was sent.
#[derive(Clone, Copy, Debug, PartialEq, Eq)]
pub enum Detail {
    /// It is to be sent: it was submitted, or is to be sent again, and no try was begun since.
    New,
    /// A try was begun, and its outcome isn't known.
    Sending,
    /// It was delivered, and its receipt is to come by another post.
    Awaiting,
    /// A try failed, and another is due.
    Retry,
    /// The receipt says that it was processed, and gives its MIC.
    Processed,
    /// It was delivered, and no receipt was asked for.
    NoReceiptAsked,
    /// The receipt says that it was processed, with a modifier that is no error and no failure.
    Warning,
    /// The receipt says that it was processed, and gives no MIC.
    NoMic,
    /// The receipt says that it was processed, with a MIC that can't be read or under a digest that isn't known.
    UnknownMic,
    /// The receipt says that it was not processed.
    NotProcessed,
    /// The receipt's modifier is an error or a failure.
    ErrorModifier,
    /// The receipt gives the MIC of another content.
    MicDiffers,
    /// All tries were used, and none brought a receipt.
    TriesUsed,
    /// The receipt didn't come in time.
    Overdue,
}

impl Detail {
    /// The class that the detail belongs to.
    pub fn class(self) -> DetailClass
        ensures { result ≡ class_of self }
    {
        match self {
            Detail::New | Detail::Awaiting => DetailClass::P,
            Detail::Sending | Detail::Retry => DetailClass::R,
            Detail::Processed => DetailClass::S,
            Detail::NoReceiptAsked | Detail::Warning | Detail::NoMic | Detail::UnknownMic => {
                DetailClass::W
            }
            Detail::NotProcessed
            | Detail::ErrorModifier
            | Detail::MicDiffers
            | Detail::TriesUsed
            | Detail::Overdue => DetailClass::E,
        }
    }

    /// The name that is written.
    pub fn name(self) -> &'static str
        ensures { result.now ≡ name_of self }
    {
        match self {
            Detail::New => "new",
            Detail::Sending => "sending",
            Detail::Awaiting => "awaiting",
            Detail::Retry => "retry",
            Detail::Processed => "processed",
            Detail::NoReceiptAsked => "no-receipt-asked",
            Detail::Warning => "warning",
            Detail::NoMic => "no-mic",
            Detail::UnknownMic => "unknown-mic",
            Detail::NotProcessed => "not-processed",
            Detail::ErrorModifier => "error-modifier",
            Detail::MicDiffers => "mic-differs",
            Detail::TriesUsed => "tries-used",
            Detail::Overdue => "overdue",
        }
    }
}
