//! The texts of AS2: names, identifiers and heads, media types, parts and fields, addresses and receipt requests.
#![tactic(auto)]

mod receipt_ask;
mod receipt_option;
mod receipt_options;
mod url;

pub use as2_media::{Kind, MediaType, TypeFault};
pub use as2_names::{
    AsName, Domain, Head, HeadFault, IdFault, LAST_MOMENT, Memory, MessageId, Moment, NameFault,
    Once, all_printable, cut_at, decimal_value, is_blank, is_identifier, is_number, lists,
    without_blanks, without_blanks_and_line_ends, without_brackets,
};
pub use as2_parts::{Field, Fields, Part, PartFault, Twice, find_once, part_in, two_parts};
pub use receipt_ask::{AskFault, How, ReceiptAsk};
pub use url::Url;
