//! Names, identifiers, domains, moments and heads of AS2 messages: the lowest layer of the texts.
#![tactic(auto)]

mod ascii;
mod blanks;
mod cut;
mod domain;
mod head;
mod identifier;
mod memory;
mod moment;
mod name;
mod number;
mod options;
mod trim;

pub use ascii::all_printable;
pub use blanks::{is_blank, without_blanks};
pub use cut::cut_at;
pub use domain::{Domain, is_domain};
pub use head::{Head, HeadFault, Once};
pub use identifier::{IdFault, MessageId, is_identifier, without_brackets};
pub use memory::Memory;
pub use moment::{LAST_MOMENT, Moment};
pub use name::{AsName, NameFault};
pub use number::{decimal_value, is_number};
pub use options::lists;
pub use trim::without_blanks_and_line_ends;
