//! One link: the request of a try goes over it, and an answer comes.
ghost use Rattle.std.specs.Prelude.{◌≡◌, ◌==◌, ◌≤◌, ◌++◌, ℕ, List, length, not, take, [], true, false, IsTrue};
ghost use Rattle.as2_exchange.specs.declared.event.TryAnswer.TheVariants as TryAnswer;
ghost use Rattle.as2_messages.specs.AnswerPieces.{HasKept};
ghost use Rattle.as2_links.specs.Happenings.{GetsBy, LinkState, fresh};
ghost use Rattle.as2_links.specs.Links.{HoldsLink, HoldsAnswer, is_answer_known, unsent_of};

use as2_exchange::{Job, Next, TryAnswer};
use as2_messages::{AnswerParser, ParsedAnswer, ReceivedAnswer};
use std::alloc::Global;
use std::mem;

/// What is known of the answer.
#[derive(Drop)]
enum Answer {
    /// So much of it came.
    Awaited(AnswerParser),
    /// That is what the try got.
    Got(TryAnswer),
}

/// A link that is open for a try.
#[derive(Drop)]
pub struct Link {
    what: Next,
    job: Job,
    sent: usize,
    answer: Answer,
}

/// What a try got whose link has ended.
#[derive(Drop)]
pub struct EndedLink {
    /// What was tried.
    pub what: Next,
    /// What it got.
    pub got: TryAnswer,
}

/// What a try gets with a whole answer.
fn received(answer: ReceivedAnswer) -> TryAnswer
    ensures { result ≡ TryAnswer.Reply answer.status answer.fields answer.body }
{
    TryAnswer::Reply {
        status: answer.status,
        head: answer.fields,
        body: answer.body,
    }
}

/// What is known of an answer with a piece more.
fn with_piece(parser: AnswerParser, piece: &[u8]) -> Answer
    ensures { (text : List ℕ) → HasKept parser text → HoldsAnswer result (text ++ piece.now) false }
{
    let mut parser = parser;
    match parser.feed(piece) {
        Ok(ParsedAnswer::Open) => Answer::Awaited(parser),
        Ok(ParsedAnswer::Answer(answer)) => Answer::Got(received(answer)),
        Ok(ParsedAnswer::NoAnswer) | Err(_) => Answer::Got(TryAnswer::NoAnswer),
    }
}

/// What is known of an answer where no more bytes come.
fn at_end(parser: AnswerParser) -> Answer
    ensures { (text : List ℕ) → HasKept parser text → HoldsAnswer result text true }
{
    match parser.end() {
        Some(answer) => Answer::Got(received(answer)),
        None => Answer::Got(TryAnswer::NoAnswer),
    }
}

impl Link {
    /// For a try of that, whose request is to be written. Nothing was written yet.
    pub(crate) fn new(alloc: Global, what: Next, job: Job) -> Link
        ensures holds { HoldsLink result (fresh what job) }
        ensures awaits { is_answer_known result.answer ≡ false }
    {
        Link {
            what,
            job,
            sent: 0,
            answer: Answer::Awaited(AnswerParser::new(alloc)),
        }
    }

    /// What is tried.
    pub fn what(&self) -> Next
        ensures { result ≡ self.now.what }
    {
        self.what
    }

    /// The host, and its port where it has one, that the request is sent to.
    pub fn authority(&self) -> &[u8]
        ensures { result.now ≡ self.now.job.authority }
    {
        self.job.authority.as_slice()
    }

    /// What is still to be written of the request.
    pub fn unsent(&self) -> &[u8]
        ensures { result.now ≡ unsent_of self.now }
    {
        let bytes = self.job.bytes.as_slice();
        &bytes[self.sent.min(bytes.len())..]
    }

    /// The request was written whole.
    pub fn has_sent(&self) -> bool
        ensures exact { result ≡ (length (unsent_of self.now) == 0) }
        ensures whole { IsTrue result → unsent_of self.now ≡ [] }
    {
        self.unsent().is_empty()
    }

    /// So many of the first of those bytes were written.
    pub(crate) fn sent(&mut self, count: usize)
        requires within { count ≤ length (unsent_of self.old) }
        ensures holds { (s : LinkState) → HoldsLink self.old s
            → HoldsLink self.new (record s { sent = s.sent ++ take count (unsent_of self.old) }) }
        ensures same { self.new ≡ record self.old { sent = self.new.sent } }
    {
        self.sent = self.sent.min(self.job.bytes.as_slice().len()) + count;
    }

    /// A whole answer came, or it is known that none can.
    pub fn is_answered(&self) -> bool
        ensures { result ≡ is_answer_known self.now.answer }
    {
        matches!(self.answer, Answer::Got(_))
    }

    /// Takes bytes that came. False: a whole answer came before, or none can come, and nothing changes.
    pub(crate) fn hear(&mut self, piece: &[u8]) -> bool
        ensures awaits { result ≡ not (is_answer_known self.old.answer) }
        ensures holds { IsTrue result → (s : LinkState) → HoldsLink self.old s
            → HoldsLink self.new (record s { heard = s.heard ++ piece.now }) }
        ensures same { result ≡ false → self.new ≡ self.old }
    {
        match mem::replace(&mut self.answer, Answer::Got(TryAnswer::NoAnswer)) {
            Answer::Awaited(parser) => {
                self.answer = with_piece(parser, piece);
                true
            }
            answer => {
                self.answer = answer;
                false
            }
        }
    }

    /// Takes that no more bytes come. False: a whole answer came before, or none can come, and nothing changes.
    pub(crate) fn cut(&mut self) -> bool
        ensures awaits { result ≡ not (is_answer_known self.old.answer) }
        ensures holds { IsTrue result → (s : LinkState) → HoldsLink self.old s
            → HoldsLink self.new (record s { is_over = true }) }
        ensures same { result ≡ false → self.new ≡ self.old }
    {
        match mem::replace(&mut self.answer, Answer::Got(TryAnswer::NoAnswer)) {
            Answer::Awaited(parser) => {
                self.answer = at_end(parser);
                true
            }
            answer => {
                self.answer = answer;
                false
            }
        }
    }

    /// The link has ended. Where no whole answer came, the try got none.
    pub(crate) fn end(self) -> EndedLink
        ensures what { result.what ≡ self.what }
        ensures got { (s : LinkState) → HoldsLink self s → GetsBy s.is_over s.heard result.got }
    {
        let Link { what, answer, .. } = self;
        let got = match answer {
            Answer::Got(got) => got,
            Answer::Awaited(_) => TryAnswer::NoAnswer,
        };
        EndedLink { what, got }
    }
}
