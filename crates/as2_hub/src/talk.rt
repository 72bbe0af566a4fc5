//! One connection, without IO: its bytes come in any pieces, what they begin with waits for its round, and then the
//! reply to be written.
ghost use Rattle.std.specs.Prelude.{◌≡◌, ◌+◌, ◌-◌, ◌^◌, ◌<◌, ◌≤◌, ◌++◌, List, ℕ, false, [], ◌∷◌, length, drop, min, Some, None, is_some, IsSome, IsTrue};
ghost use Rattle.as2_messages.specs.Parsing.{HasTaken};
ghost use Rattle.as2_hub.specs.Calls.{DeskCall};
ghost use Rattle.as2_hub.specs.Talks.{AsksDesk, HoldsReply, HoldsRest, HoldsUnanswered, IsFresh, KeepsBehind, UnansweredBy, before_call, is_done, is_ready, talk_room, unanswered_of};
ghost use Rattle.as2_messages.specs.declared.parser.RequestParser.{RequestParser as TheParser};

use crate::beginning::Beginning;
use crate::desk::{Desk, Reply, reply_to};
use crate::rest::Rest;
use as2_messages::{Parsed, RequestParser};
use as2_text::Memory;
use std::alloc::Global;
use std::mem;

/// What is kept of a connection.
#[derive(Drop)]
pub struct Talk {
    alloc: Global,
    // none: nothing more is read
    parser: Option<RequestParser>,
    // what the bytes begin with that aren't answered yet
    waiting: Option<Beginning>,
    // how many bytes of these the parser has taken
    taken: usize,
    // the bytes that came behind what waits
    behind: Rest,
    // nothing more is read, since memory wasn't there
    is_spent: bool,
    // the reply to what waits, within a round
    reply: Option<Reply>,
    // what is to be written of the last reply
    output: Vec<u8>,
}

impl Talk {
    /// Nothing came and nothing went.
    pub fn new(alloc: Global) -> Talk
        ensures fresh { IsFresh result }
        ensures rest { HoldsRest result [] [] }
    {
        Talk {
            alloc,
            parser: Some(RequestParser::new(alloc)),
            waiting: None,
            taken: 0,
            behind: Rest::new(alloc),
            is_spent: false,
            reply: None,
            output: Vec::new(alloc),
        }
    }

    /// Has the parser take bytes, and answers how many of them it took. Where memory isn't there, the connection is
    /// given up.
    fn parse(&mut self, parser: RequestParser, bytes: &[u8]) -> usize
        requires some { 0 < length bytes.now }
        requires ended { self.old.parser ≡ None }
        requires free { self.old.waiting ≡ None }
        requires fits { self.old.taken + length bytes.now < 2 ^ 64 }
        ensures unread { (text : List ℕ) → HasTaken parser text → self.old.taken ≡ length text
            → UnansweredBy self.new.parser self.new.waiting self.new.is_spent self.new.taken (drop result bytes.now)
            (text ++ bytes.now) }
        ensures within { result ≤ length bytes.now }
        ensures no_more { self.new.taken ≤ self.old.taken + result }
        ensures taken { IsSome self.new.parser → self.new.taken ≡ self.old.taken + result }
        ensures others { self.new ≡ record self.old {
          parser = self.new.parser;
          waiting = self.new.waiting;
          taken = self.new.taken;
          is_spent = self.new.is_spent;
        } }
    {
        let mut parser = parser;
        let used = match parser.feed(bytes) {
            Ok(Parsed::Open) => {
                self.parser = Some(parser);
                bytes.len()
            }
            Ok(Parsed::Request(request, used)) => {
                self.parser = Some(RequestParser::new(self.alloc));
                self.waiting = Some(Beginning::Request(request));
                used.min(bytes.len())
            }
            Ok(Parsed::Refused(refused)) => {
                self.waiting = Some(Beginning::NoRequest(refused));
                bytes.len()
            }
            Err(Memory) => {
                self.is_spent = true;
                self.taken = 0;
                return bytes.len();
            }
        };
        self.taken += used;
        used
    }

    /// Keeps bytes that came behind what waits. Where memory for them isn't there, the connection is given up.
    fn keep(&mut self, bytes: &[u8])
        ensures { KeepsBehind self.old self.new bytes.now }
    {
        if bytes.is_empty() {
            return;
        }
        if self.behind.append(bytes).is_err() {
            self.parser = None;
            self.behind = Rest::new(self.alloc);
            self.is_spent = true;
        }
    }

    /// Takes a piece that came. Nothing is kept of it where nothing more is read.
    pub fn hear(&mut self, piece: &[u8])
        requires fits { unanswered_of self.old + length piece.now < 2 ^ 64 }
        ensures rest { (input : List ℕ) (calls : List DeskCall) → HoldsRest self.old input calls
            → HoldsRest self.new (input ++ piece.now) calls }
        ensures unread { unanswered_of self.new ≤ unanswered_of self.old + length piece.now }
        ensures same_reply { self.new.reply ≡ self.old.reply }
        ensures same_output { self.new.output ≡ self.old.output }
    {
        if piece.is_empty() {
            return;
        }
        let Some(parser) = self.parser.take() else {
            return;
        };
        if self.waiting.is_some() {
            self.parser = Some(parser);
            self.keep(piece);
            return;
        }
        let used = self.parse(parser, piece);
        self.keep(&piece[used..]);
    }

    /// Has the desk answer what waits, unless it has in this round or a reply is still to be written. Answers whether
    /// it did.
    pub fn ask<D: Desk>(&mut self, desk: &mut D) -> bool
        ensures { AsksDesk D.conduct desk.old desk.new self.old self.new result }
    {
        if self.reply.is_some() || !self.output.is_empty() {
            return false;
        }
        let Some(asked) = self.waiting.take() else {
            return false;
        };
        let resolved = reply_to(desk, asked);
        self.waiting = resolved.asked;
        self.reply = Some(resolved.reply);
        true
    }

    /// Reads on in what came behind a request that was answered. Where nothing came, nothing is asked of the parser.
    fn go_on(&mut self)
        requires free { self.old.waiting ≡ None }
        ensures reads { (p : TheParser) → self.old.parser ≡ Some p → HasTaken p []
            → HoldsUnanswered self.new self.old.behind }
        ensures ended { self.old.parser ≡ None → self.new ≡ record self.old { behind = self.new.behind; taken = 0 } }
        ensures nothing { self.old.parser ≡ None → self.new.behind ≡ [] }
        ensures unread { unanswered_of self.new ≤ length self.old.behind }
        ensures same_reply { self.new.reply ≡ self.old.reply }
        ensures same_output { self.new.output ≡ self.old.output }
    {
        self.taken = 0;
        let behind = mem::replace(&mut self.behind, Rest::new(self.alloc));
        if behind.len() == 0 {
            return;
        }
        let Some(parser) = self.parser.take() else {
            return;
        };
        let mut behind = behind;
        let used = self.parse(parser, behind.bytes());
        if used < behind.len() {
            behind.skip(used);
            self.behind = behind;
        }
    }

    /// Nothing more is read.
    fn end(&mut self)
        ensures unread { unanswered_of self.new ≡ 0 }
        ensures others { self.new ≡ record self.old { parser = None; behind = self.new.behind; taken = 0 } }
    {
        self.parser = None;
        self.behind = Rest::new(self.alloc);
        self.taken = 0;
    }

    /// The round has ended: the reply may go, or there is none, and what waits waits on.
    pub fn settle(&mut self, is_kept: bool)
        ensures kept { IsTrue is_kept → (e : DeskCall) (input : List ℕ) (calls : List DeskCall)
            → HoldsReply e self.old → HoldsRest (before_call e.asked self.old) input calls
            → HoldsRest self.new input (e ∷ calls) × (self.new.output.items ≡ e.reply) }
        ensures lost { is_kept ≡ false → self.new ≡ record self.old { reply = None } }
        ensures silent { self.old.reply ≡ None → self.new ≡ self.old }
        ensures over { self.new.reply ≡ None }
        ensures unread { unanswered_of self.new ≤ unanswered_of self.old }
    {
        let Some(reply) = self.reply.take() else {
            return;
        };
        if !is_kept {
            return;
        }
        self.output = reply.text;
        self.waiting = None;
        if reply.stays {
            self.go_on();
        } else {
            self.end();
        }
    }

    /// How many bytes may be read next, where one connection may have so many that aren't answered: none while a
    /// request waits.
    pub fn room(&self, bytes_of_one: usize) -> usize
        ensures { result ≡ talk_room bytes_of_one self.now }
    {
        if self.parser.is_none() || self.waiting.is_some() {
            return 0;
        }
        bytes_of_one.saturating_sub(self.unanswered())
    }

    /// More is read of it.
    pub fn is_reading(&self) -> bool
        ensures { result ≡ is_some self.now.parser }
    {
        self.parser.is_some()
    }

    /// How many bytes came that aren't answered.
    pub fn unanswered(&self) -> usize
        ensures { result ≡ min (unanswered_of self.now) (2 ^ 64 - 1) }
    {
        self.taken.saturating_add(self.behind.len())
    }

    /// A request waits whose reply may be made.
    pub fn is_ready(&self) -> bool
        ensures { result ≡ is_ready self.now }
    {
        self.reply.is_none() && self.output.is_empty() && self.waiting.is_some()
    }

    /// Nothing more is read, and nothing is to be written.
    pub fn is_done(&self) -> bool
        ensures { result ≡ is_done self.now }
    {
        self.parser.is_none() && self.waiting.is_none() && self.output.is_empty()
    }

    /// What is to be written.
    pub fn output(&self) -> &[u8]
        ensures { result.now ≡ self.now.output.items }
    {
        &self.output
    }

    /// So many of those bytes went.
    pub fn sent(&mut self, count: usize)
        requires { count ≤ length self.old.output.items }
        ensures went { self.new.output.items ≡ drop count self.old.output.items }
        ensures others { self.new ≡ record self.old { output = self.new.output } }
    {
        if count == self.output.len() {
            self.output = Vec::new(self.alloc);
        } else {
            self.output.drain(..count);
        }
    }
}
