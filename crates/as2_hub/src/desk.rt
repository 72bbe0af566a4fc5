//! What answers requests.
ghost use Rattle.std.specs.Prelude.{◌≡◌, true, false, IsTrue, Some, option_map};
ghost use Rattle.as2_hub.specs.Calls.{MayStay};
ghost use Rattle.as2_hub.specs.Conduct.{Conduct, KeepsUntilSettled};
ghost use Rattle.as2_hub.specs.declared.beginning.Beginning.TheVariants as beginning;

use crate::beginning::Beginning;
use as2_messages::{Refused, Request};

/// A reply, and what comes behind it.
#[derive(Drop)]
pub struct Reply {
    /// Its bytes.
    pub text: Vec<u8>,
    /// The connection stays open, and its next request is read.
    pub stays: bool,
}

/// What came of a request.
#[derive(Drop)]
pub struct Replied {
    /// The reply.
    pub reply: Reply,
    /// The request as it was, unless the desk has used it up.
    pub request: Option<Request>,
}

/// What came of what a connection begins with.
#[derive(Drop)]
pub struct Resolved {
    /// The reply.
    pub reply: Reply,
    /// What the connection begins with, unless the desk has used it up.
    pub asked: Option<Beginning>,
}

/// What answers requests, in rounds. Of a round that may be lost it keeps nothing before `settle` says so, and gives
/// its requests back.
pub trait Desk {
    // How it answers.
    ghost conduct: { Conduct Self };

    /// Answers a request. Behind the last one of a connection it doesn't stay open.
    fn answer(&mut self, request: Request) -> Replied
        ensures answers { conduct.answers self.old (beginning.Request request) result.reply.text.items
            result.reply.stays self.new }
        ensures last { IsTrue request.last → result.reply.stays ≡ false }
        ensures back { conduct.may_lose self.old ≡ true → result.request ≡ Some request }
        ensures goes_on { KeepsUntilSettled conduct self.old self.new };

    /// Answers bytes that no request begins with.
    fn refuse(&mut self, refused: Refused) -> Vec<u8>
        ensures answers { conduct.answers self.old (beginning.NoRequest refused) result.items false self.new }
        ensures goes_on { KeepsUntilSettled conduct self.old self.new };

    /// Ends the round, and says whether it is kept. One that is lost, as it may have been from its begin, leaves what
    /// the desk keeps as it was.
    fn settle(&mut self) -> bool
        ensures rests { conduct.at_rest self.new }
        ensures kept { IsTrue result → conduct.settles self.old self.new }
        ensures may_lose { result ≡ false → conduct.may_lose self.old ≡ true }
        ensures keeps { result ≡ false → conduct.kept self.new ≡ conduct.kept self.old };
}

/// That request as what a connection begins with.
fn beginning_of(request: Option<Request>) -> Option<Beginning>
    ensures { result ≡ option_map beginning.Request request }
{
    match request {
        Some(request) => Some(Beginning::Request(request)),
        None => None,
    }
}

/// The desk's reply to what a connection begins with.
pub fn reply_to<D: Desk>(desk: &mut D, asked: Beginning) -> Resolved
    ensures answers { D.conduct.answers desk.old asked result.reply.text.items result.reply.stays desk.new }
    ensures last { MayStay asked result.reply.stays }
    ensures back { D.conduct.may_lose desk.old ≡ true → result.asked ≡ Some asked }
    ensures goes_on { KeepsUntilSettled D.conduct desk.old desk.new }
{
    match asked {
        Beginning::Request(request) => {
            let replied = desk.answer(request);
            let Replied { reply, request } = replied;
            Resolved {
                reply,
                asked: beginning_of(request),
            }
        }
        Beginning::NoRequest(refused) => {
            let text = desk.refuse(refused);
            Resolved {
                reply: Reply { text, stays: false },
                asked: Some(Beginning::NoRequest(refused)),
            }
        }
    }
}
