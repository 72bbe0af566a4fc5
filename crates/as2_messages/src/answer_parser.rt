//! The answer that bytes begin with which come in any pieces (RFC 9112, section 2.1). No reader is known here.
ghost use Rattle.std.specs.Prelude.{◌≡◌, ◌≤◌, List, ℕ, [], ◌++◌, length, drop, None, IfOk, OnErr, IsErr};
ghost use Rattle.as2_framing.specs.HeadPieces.{EndsHead};
ghost use Rattle.as2_messages.specs.AnswerPieces.{AwaitsAnswer, EndsAnswer, HasKept, HoldsEnd, IsSpent, ParsesAnswer, IsTakenAs};

use crate::answer_head::{BodyEnd, JudgedAnswer, judge_answer};
use crate::request::NotJudged;
use as2_framing::{BODY_LIMIT, BodyPiece, HeadBytes, HeadPiece, MissingBody};
use as2_mic::Pieces;
use as2_text::{Head, Memory};
use std::alloc::Global;

/// An answer, with its body as far as it came.
#[derive(Drop)]
pub struct ReceivedAnswer {
    /// The status code.
    pub status: u16,
    /// The fields of the head.
    pub fields: Head,
    /// The body.
    pub body: Pieces,
}

/// What is missing of an answer.
#[derive(Drop)]
pub enum MissingEnd {
    /// The rest of its body.
    Body(MissingBody),
    /// The end of the input.
    Input,
}

impl MissingEnd {
    /// No byte of the body came yet.
    fn new(alloc: Global, end: BodyEnd) -> MissingEnd
        ensures { (text : List ℕ) → HoldsEnd result end [] text text }
    {
        match end {
            BodyEnd::Framing(framing) => MissingEnd::Body(MissingBody::new(alloc, framing)),
            BodyEnd::WithInput => MissingEnd::Input,
        }
    }
}

/// An answer whose head is there.
#[derive(Drop)]
pub struct AwaitedAnswer {
    /// The answer, with its body as far as it came.
    pub answer: ReceivedAnswer,
    /// What is missing of it.
    pub missing: MissingEnd,
}

/// What an awaited answer is with more bytes.
#[derive(Drop)]
pub enum Taken {
    /// Still awaited.
    Open(AwaitedAnswer),
    /// Whole.
    Whole(ReceivedAnswer),
    /// None: its body has more than 1,048,576 bytes, or a chunk of it is none.
    NoAnswer,
}

/// What the bytes so far begin with.
#[derive(Drop)]
pub enum ParsedAnswer {
    /// Less than an answer, or one that goes on to the end of the input.
    Open,
    /// A whole answer.
    Answer(ReceivedAnswer),
    /// Bytes that no answer begins with.
    NoAnswer,
}

/// Takes what is there of a body whose end the head tells.
fn take_framed(answer: ReceivedAnswer, missing: MissingBody, bytes: &[u8]) -> Result<Taken, Memory>
    ensures { IfOk result (λ t. (text : List ℕ)
        → AwaitsAnswer (record { answer = answer; missing = MissingEnd.Body missing }) text bytes.now
        → IsTakenAs text t) }
{
    let mut answer = answer;
    let mut missing = missing;
    match missing.feed(bytes, &mut answer.body)? {
        BodyPiece::Open => Ok(Taken::Open(AwaitedAnswer {
            answer,
            missing: MissingEnd::Body(missing),
        })),
        BodyPiece::Whole(_) => Ok(Taken::Whole(answer)),
        BodyPiece::Bad | BodyPiece::TooLarge => Ok(Taken::NoAnswer),
    }
}

/// Takes more of a body that ends with the input.
fn take_all(answer: ReceivedAnswer, bytes: &[u8]) -> Result<Taken, Memory>
    ensures { IfOk result (λ t. (text : List ℕ)
        → AwaitsAnswer (record { answer = answer; missing = MissingEnd.Input }) text bytes.now → IsTakenAs text t) }
{
    let mut answer = answer;
    if bytes.len() > BODY_LIMIT.saturating_sub(answer.body.len()) {
        return Ok(Taken::NoAnswer);
    }
    answer.body.append(bytes)?;
    Ok(Taken::Open(AwaitedAnswer {
        answer,
        missing: MissingEnd::Input,
    }))
}

/// Takes what is there of the body of an answer.
fn take(awaited: AwaitedAnswer, bytes: &[u8]) -> Result<Taken, Memory>
    ensures { IfOk result (λ t. (text : List ℕ) → AwaitsAnswer awaited text bytes.now → IsTakenAs text t) }
{
    let AwaitedAnswer { answer, missing } = awaited;
    match missing {
        MissingEnd::Body(missing) => take_framed(answer, missing, bytes),
        MissingEnd::Input => take_all(answer, bytes),
    }
}

/// An answer whose bytes come in pieces. It keeps what came of a head until that is whole, and of a body.
#[derive(Drop)]
pub struct AnswerParser {
    alloc: Global,
    head: HeadBytes,
    awaited: Option<AwaitedAnswer>,
    is_spent: bool,
}

impl AnswerParser {
    /// No byte came yet.
    pub fn new(alloc: Global) -> AnswerParser
        ensures { HasKept result [] }
    {
        AnswerParser {
            alloc,
            head: HeadBytes::new(alloc),
            awaited: None,
            is_spent: false,
        }
    }

    /// Takes what is there of the body of an answer.
    fn take_body(&mut self, awaited: AwaitedAnswer, bytes: &[u8]) -> Result<ParsedAnswer, Memory>
        ensures { IfOk result (λ p. (text : List ℕ) → AwaitsAnswer awaited text bytes.now
            → ParsesAnswer self.new text p) }
    {
        match take(awaited, bytes)? {
            Taken::Open(awaited) => {
                self.awaited = Some(awaited);
                Ok(ParsedAnswer::Open)
            }
            Taken::Whole(answer) => Ok(ParsedAnswer::Answer(answer)),
            Taken::NoAnswer => Ok(ParsedAnswer::NoAnswer),
        }
    }

    /// Takes a whole head, which ends with the first bytes of the piece, and what is there of the body behind it.
    fn take_head(&mut self, bytes: &[u8], from: usize) -> Result<ParsedAnswer, Memory>
        requires within { from ≤ length bytes.now }
        ensures { IfOk result (λ p. (text : List ℕ) → EndsHead self.old.head text bytes.now from
            → ParsesAnswer self.new (text ++ bytes.now) p) }
    {
        let JudgedAnswer {
            status,
            fields,
            end,
        } = match judge_answer(self.alloc, &self.head.text) {
            Ok(judged) => judged,
            Err(NotJudged::BadHead) => return Ok(ParsedAnswer::NoAnswer),
            Err(NotJudged::Memory) => return Err(Memory),
        };
        let Some(end) = end else {
            return Ok(ParsedAnswer::NoAnswer);
        };
        let answer = ReceivedAnswer {
            status,
            fields,
            body: Pieces::new(self.alloc),
        };
        let missing = MissingEnd::new(self.alloc, end);
        self.take_body(AwaitedAnswer { answer, missing }, &bytes[from..])
    }

    /// Takes the next piece. Each byte of a head is looked at once to find its end, and each of a body copied once. Behind a
    /// whole answer, and where there is none, nothing more is to be given. Memory means that memory for the answer wasn't there,
    /// now or before: from then on nothing is taken.
    pub fn feed(&mut self, bytes: &[u8]) -> Result<ParsedAnswer, Memory>
        ensures parses { IfOk result (λ p. (text : List ℕ) → HasKept self.old text
            → ParsesAnswer self.new (text ++ bytes.now) p) }
        ensures spent { OnErr result (IsSpent self.new) }
        ensures over { IsSpent self.old → IsErr result }
    {
        if self.is_spent {
            return Err(self.spend());
        }
        match self.take_piece(bytes) {
            Ok(parsed) => Ok(parsed),
            Err(Memory) => Err(self.spend()),
        }
    }

    /// Memory was wanting: nothing more is taken, and what was kept of a body is given up.
    fn spend(&mut self) -> Memory
        ensures { IsSpent self.new }
    {
        self.is_spent = true;
        self.awaited = None;
        Memory
    }

    /// Takes the next piece.
    fn take_piece(&mut self, bytes: &[u8]) -> Result<ParsedAnswer, Memory>
        ensures { IfOk result (λ p. (text : List ℕ) → HasKept self.old text
            → ParsesAnswer self.new (text ++ bytes.now) p) }
    {
        if let Some(awaited) = self.awaited.take() {
            return self.take_body(awaited, bytes);
        }
        match self.head.feed(bytes)? {
            HeadPiece::Open => Ok(ParsedAnswer::Open),
            HeadPiece::TooLong => Ok(ParsedAnswer::NoAnswer),
            HeadPiece::Whole(from) => self.take_head(bytes, from),
        }
    }

    /// The input has ended: the answer whose body ends with it, if there is one; none where memory was wanting.
    pub fn end(self) -> Option<ReceivedAnswer>
        ensures ends { (text : List ℕ) → HasKept self text → EndsAnswer text result }
        ensures over { IsSpent self → result ≡ None }
    {
        let AnswerParser { awaited, .. } = self;
        let Some(AwaitedAnswer { answer, missing }) = awaited else {
            return None;
        };
        match missing {
            MissingEnd::Body(_) => None,
            MissingEnd::Input => Some(answer),
        }
    }
}
