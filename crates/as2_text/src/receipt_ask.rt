//! How a head asks for a receipt (RFC 8098, section 2.1).

ghost use Rattle.std.specs.Prelude.{◌≡◌, List, ℕ, false, IfOk, Ok};
ghost use Rattle.as2_names.specs.Heads.{IsOnceOf};
ghost use Rattle.as2_text.specs.ReceiptOptions.{are_options, options_in};
ghost use Rattle.as2_text.specs.ReceiptRequests.{Asks, Request, request_in_head, asked_by, request_to_addresses, is_given_twice, request_reading, request_of, request_result, text_of};

use crate::receipt_option::MICALG;
use crate::receipt_options::{are_options, first_named, other_required};
use crate::url::Url;
use as2_names::{Head, Once};

/// How a receipt is to come (RFC 4130, section 7.3).
#[derive(Drop)]
pub enum How<'a> {
    /// None is asked for.
    NoReceipt,
    /// In the answer to the post.
    Sync,
    /// By a post of its own to this address.
    Async(Url<'a>),
}

/// Why the request of a receipt can't be read: the first that fits in the order `Twice`, `OptionsUnreadable`,
/// `UrlUnreadable`.
#[derive(Clone, Copy, Debug, PartialEq, Eq)]
pub enum AskFault {
    /// `Disposition-Notification-Options` isn't options.
    OptionsUnreadable,
    /// `Receipt-Delivery-Option` is no address.
    UrlUnreadable,
    /// A field of the request stands there twice.
    Twice,
}

/// What the sender of a message asks of its receipt (RFC 8098, section 2; RFC 4130, section 7.3).
#[derive(Drop)]
pub struct ReceiptAsk<'a> {
    /// How the receipt is to come.
    pub how: How<'a>,
    /// The digests of which one is to be used, as they are listed with commas between them; empty where none are.
    pub digests: &'a [u8],
    /// One of the digests must be used.
    pub digests_required: bool,
    /// Something else is required.
    pub other_required: bool,
}

/// The value that stands there, nothing where none does.
fn text_of<'a>(once: &Once<'a>) -> &'a [u8]
    ensures { (vs : List (List ℕ)) → IsOnceOf once.now vs → is_given_twice vs ≡ false → result.now ≡ text_of vs }
{
    match once {
        Once::One(text) => *text,
        Once::Absent | Once::Twice => b"",
    }
}

/// What the options ask of a receipt that comes so.
fn asked_by<'a>(how: How<'a>, options: &'a [u8]) -> ReceiptAsk<'a>
    ensures { request_of result ≡ asked_by how.entry (options_in options.now) }
{
    let micalg = first_named(options, MICALG);
    let other_required = other_required(options);
    match micalg {
        Some(option) => ReceiptAsk {
            how,
            digests: option.values(),
            digests_required: option.importance().is_required(),
            other_required,
        },
        None => ReceiptAsk {
            how,
            digests: b"",
            digests_required: false,
            other_required,
        },
    }
}

/// Whether two fields or more have the name.
fn is_twice(once: &Once<'_>) -> bool
    ensures { (vs : List (List ℕ)) → IsOnceOf once.now vs → result ≡ is_given_twice vs }
{
    *once == Once::Twice
}

/// What the options ask of a receipt that comes as the delivery option says.
fn delivered<'a>(delivery: &Once<'a>, options: &'a [u8]) -> Result<ReceiptAsk<'a>, AskFault>
    ensures { (vs : List (List ℕ)) → IsOnceOf delivery.now vs → is_given_twice vs ≡ false
        → request_result result ≡ request_to_addresses vs (options_in options.now) }
{
    match delivery {
        Once::One(text) => match Url::parse(text) {
            Some(url) => Ok(asked_by(How::Async(url), options)),
            None => Err(AskFault::UrlUnreadable),
        },
        Once::Absent | Once::Twice => Ok(asked_by(How::Sync, options)),
    }
}

/// What a head asks that has a `Disposition-Notification-To`.
fn asked(head: &Head) -> Result<ReceiptAsk<'_>, AskFault>
    ensures { request_result result ≡ request_in_head head.now }
{
    let to = head.value(b"disposition-notification-to");
    let options = head.value(b"disposition-notification-options");
    let delivery = head.value(b"receipt-delivery-option");
    if is_twice(&to) || is_twice(&options) || is_twice(&delivery) {
        return Err(AskFault::Twice);
    }
    let options = text_of(&options);
    if !are_options(options) {
        return Err(AskFault::OptionsUnreadable);
    }
    delivered(&delivery, options)
}

/// What a head asks.
fn read(head: &Head) -> Result<ReceiptAsk<'_>, AskFault>
    ensures { request_result result ≡ request_reading head.now }
{
    match head.value(b"disposition-notification-to") {
        Once::Absent => Ok(ReceiptAsk {
            how: How::NoReceipt,
            digests: b"",
            digests_required: false,
            other_required: false,
        }),
        Once::One(_) | Once::Twice => asked(head),
    }
}

impl<'a> ReceiptAsk<'a> {
    /// Reads what a head asks: nothing where it has no `Disposition-Notification-To`, and then the other two fields
    /// aren't read. It takes no memory.
    pub fn read(head: &'a Head) -> Result<ReceiptAsk<'a>, AskFault>
        // What is read is asked.
        ensures found { IfOk result (λ ask. Asks head.now (request_of ask)) }
        // What is asked is read.
        ensures only { (request : Request) → Asks head.now request → request_result result ≡ Ok request }
        // Which fault it is.
        ensures exact { request_result result ≡ request_reading head.now }
    {
        read(head)
    }
}
