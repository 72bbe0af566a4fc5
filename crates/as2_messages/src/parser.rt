//! The request that bytes begin with which come in any pieces (RFC 9112, section 2.1). No reader is known here.
ghost use Rattle.std.specs.Prelude.{◌≡◌, ◌≤◌, List, ℕ, [], ◌++◌, length, drop, None, IfOk, IfErr, OnErr, IsErr};
ghost use Rattle.as2_framing.specs.HeadText.{HasHeadText};
ghost use Rattle.as2_framing.specs.ChunkPieces.{BodyWithin};
ghost use Rattle.as2_framing.specs.HeadPieces.{EndsHead};
ghost use Rattle.as2_messages.specs.Parsing.{Awaits, FeedsRequest, HasHead, HasTaken, IsSpent, RefusesHead, Parses, TellsBlank, refused_for};

use crate::framing::{Refused, RequestFault};
use crate::request::{NotJudged, Request, judge};
use as2_framing::{BodyPiece, HeadBytes, HeadPiece, MissingBody};
use as2_mic::Pieces;
use as2_text::Memory;
use std::alloc::Global;

/// A request whose head is there.
#[derive(Drop)]
pub struct Awaited {
    /// The request, with its body as far as it came.
    pub request: Request,
    /// What is missing of the body.
    pub missing: MissingBody,
}

/// Why no body is awaited.
#[derive(Clone, Copy, Debug, PartialEq, Eq)]
pub enum NotAwaited {
    /// No request can be read.
    Refused(Refused),
    /// Memory for the fields wasn't there.
    Memory,
}

/// What the bytes so far begin with.
#[derive(Drop)]
pub enum Parsed {
    /// Less than a request.
    Open,
    /// A request, which ends with so many bytes of the last piece.
    Request(Request, usize),
    /// Bytes that no request begins with.
    Refused(Refused),
}

const BAD_HEAD: Refused = Refused {
    reason: RequestFault::BadHead,
    to_head: false,
};

/// What the bytes of a head say, before any of the body came.
fn read_head(alloc: Global, head: &[u8]) -> Result<Awaited, NotAwaited>
    ensures found { IfOk result (λ a. (text after : List ℕ) → HasHeadText text head.now after → Awaits a text after) }
    ensures refused { IfErr result (RefusesHead head.now) }
{
    let judged = match judge(alloc, head) {
        Ok(judged) => judged,
        Err(NotJudged::BadHead) => return Err(NotAwaited::Refused(BAD_HEAD)),
        Err(NotJudged::Memory) => return Err(NotAwaited::Memory),
    };
    match judged.framing {
        Ok(framing) => Ok(Awaited {
            request: Request {
                method: judged.method,
                target: judged.target,
                fields: judged.fields,
                body: Pieces::new(alloc),
                last: judged.last,
            },
            missing: MissingBody::new(alloc, framing),
        }),
        Err(reason) => Err(NotAwaited::Refused(Refused {
            reason,
            to_head: judged.method.is_head(),
        })),
    }
}

impl Awaited {
    /// Takes what is there of the body.
    fn feed(&mut self, rest: &[u8]) -> Result<BodyPiece, Memory>
        ensures within { IfOk result (BodyWithin (length rest.now)) }
        ensures fed { IfOk result (λ f. (text : List ℕ) → Awaits self.old text rest.now
            → FeedsRequest self.old self.new text rest.now f) }
    {
        self.missing.feed(rest, &mut self.request.body)
    }

    /// The request is refused for that.
    fn refused(&self, reason: RequestFault) -> Refused
        ensures { result ≡ refused_for reason self.now }
    {
        Refused {
            reason,
            to_head: self.request.method.is_head(),
        }
    }
}

/// A request whose bytes come in pieces. It keeps what came of a head until that is whole, and of a body.
#[derive(Drop)]
pub struct RequestParser {
    alloc: Global,
    head: HeadBytes,
    awaited: Option<Awaited>,
    is_spent: bool,
}

impl RequestParser {
    /// No byte came yet.
    pub fn new(alloc: Global) -> RequestParser
        ensures { HasTaken result [] }
    {
        RequestParser {
            alloc,
            head: HeadBytes::new(alloc),
            awaited: None,
            is_spent: false,
        }
    }

    /// Takes what is there of the body of a request, behind the first bytes of the piece.
    fn take_body(&mut self, awaited: Awaited, bytes: &[u8], from: usize) -> Result<Parsed, Memory>
        requires within { from ≤ length bytes.now }
        requires none { self.old.awaited ≡ None }
        ensures { IfOk result (λ p. (text : List ℕ) → HasHead self.old.head awaited text bytes.now from
            → Parses self.new text bytes.now p) }
    {
        let mut awaited = awaited;
        match awaited.feed(&bytes[from..])? {
            BodyPiece::Open => {
                self.awaited = Some(awaited);
                Ok(Parsed::Open)
            }
            BodyPiece::Whole(used) => Ok(Parsed::Request(awaited.request, from + used)),
            BodyPiece::Bad => Ok(Parsed::Refused(awaited.refused(RequestFault::BadChunk))),
            BodyPiece::TooLarge => Ok(Parsed::Refused(awaited.refused(RequestFault::TooLarge))),
        }
    }

    /// Takes a whole head, which ends with the first bytes of the piece, and what is there of the body behind it.
    fn take_head(&mut self, bytes: &[u8], from: usize) -> Result<Parsed, Memory>
        requires within { from ≤ length bytes.now }
        requires none { self.old.awaited ≡ None }
        ensures { IfOk result (λ p. (text : List ℕ) → EndsHead self.old.head text bytes.now from
            → Parses self.new text bytes.now p) }
    {
        let found = read_head(self.alloc, &self.head.text);
        self.head.clear();
        match found {
            Ok(awaited) => self.take_body(awaited, bytes, from),
            Err(NotAwaited::Refused(refused)) => Ok(Parsed::Refused(refused)),
            Err(NotAwaited::Memory) => Err(Memory),
        }
    }

    /// Takes the next piece. Each byte of a head is looked at once to find its end, and each of a body copied once. Behind a
    /// request the rest of the piece is to be given again, as the first of what follows; behind a refusal nothing more.
    /// Memory means that memory for the request wasn't there, now or before: from then on nothing is taken.
    pub fn feed(&mut self, bytes: &[u8]) -> Result<Parsed, Memory>
        ensures parses { IfOk result (λ p. (text : List ℕ) → HasTaken self.old text
            → Parses self.new text bytes.now p) }
        ensures spent { OnErr result (IsSpent self.new) }
        ensures over { IsSpent self.old → IsErr result }
    {
        if self.is_spent {
            return Err(Memory);
        }
        match self.take_piece(bytes) {
            Ok(parsed) => Ok(parsed),
            Err(Memory) => {
                self.is_spent = true;
                Err(Memory)
            }
        }
    }

    /// Takes the next piece.
    fn take_piece(&mut self, bytes: &[u8]) -> Result<Parsed, Memory>
        ensures { IfOk result (λ p. (text : List ℕ) → HasTaken self.old text → Parses self.new text bytes.now p) }
    {
        if let Some(awaited) = self.awaited.take() {
            return self.take_body(awaited, bytes, 0);
        }
        match self.head.feed(bytes)? {
            HeadPiece::Open => Ok(Parsed::Open),
            HeadPiece::TooLong => Ok(Parsed::Refused(BAD_HEAD)),
            HeadPiece::Whole(from) => self.take_head(bytes, from),
        }
    }

    /// Nothing but CR and LF came since the last request.
    pub fn is_blank(&self) -> bool
        ensures { (text : List ℕ) → HasTaken self.now text → TellsBlank text result }
    {
        self.awaited.is_none() && self.head.text.is_empty()
    }
}
