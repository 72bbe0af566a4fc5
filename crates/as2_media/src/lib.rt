//! Media types of AS2 messages (RFC 2045, section 5.1).
#![tactic(auto)]

mod cuts;
mod essence;
mod fault;
mod kind;
mod media_type;
mod parameter;
mod parameters;
mod token;
mod value;

pub use fault::TypeFault;
pub use kind::Kind;
pub use media_type::MediaType;
pub use token::is_token;

#[cfg(test)]
mod tests;
