//! The messages of HTTP, whoever reads and writes them: the requests and answers that bytes begin with, and the text of a reply.
#![tactic(auto)]

mod answer_head;
mod answer_laws;
mod answer_parser;
mod framing;
mod laws;
mod parser;
mod reply;
mod request;

pub use answer_head::BodyEnd;
pub use answer_laws::one_answer;
pub use answer_parser::{AnswerParser, ParsedAnswer, ReceivedAnswer};
pub use framing::{Method, Refused, RequestFault, Target};
pub use laws::{one_beginning, one_refusal, one_reply_text, one_request};
pub use parser::{Parsed, RequestParser};
pub use reply::{Form, date_of, refusal, write_reply};
pub use request::Request;
