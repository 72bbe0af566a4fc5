//! A request is sent, and one answer is read.
ghost use Rattle.std.specs.Prelude.{◌≡◌, ◌+◌, ◌<◌, ◌≤◌, List, ℕ, Some, IsTrue};
ghost use Rattle.std.specs.Io.KnownBytes.{Appends};
ghost use Rattle.as2_messages.specs.Answering.{Gets, IsOpenAnswer, is_answered};
ghost use Rattle.as2_messages.specs.AnswerPieces.{HasKept};
ghost use Rattle.as2_http.specs.InputReads.{ReadsNeeded};
ghost use Rattle.as2_http.specs.Sending.{AppendsPart};

use crate::device::{Sink, Source};
use crate::reads::{READ_LIMIT, READS, pull};
use crate::sending::push_all;
use as2_exchange::{Job, TryAnswer};
use as2_messages::{AnswerParser, ParsedAnswer, ReceivedAnswer};
use std::alloc::Global;

/// What a try gets with a whole answer.
fn received(answer: ReceivedAnswer) -> TryAnswer
    ensures { result ≡ TryAnswer.Reply answer.status answer.fields answer.body }
{
    TryAnswer::Reply {
        status: answer.status,
        head: answer.fields,
        body: answer.body,
    }
}

/// What a try gets where the input has ended.
fn ended(parser: AnswerParser) -> TryAnswer
    ensures { (text : List ℕ) → HasKept parser text → Gets text result }
{
    match parser.end() {
        Some(answer) => received(answer),
        None => TryAnswer::NoAnswer,
    }
}

/// Reads one answer, and makes no read once it is whole.
fn read_answer<R: Source>(alloc: Global, source: &mut R) -> TryAnswer
    ensures answer { (input : List ℕ) → R.left source.old ≡ Some input → Gets input result }
    ensures needed { (input : List ℕ) → R.left source.old ≡ Some input
        → ReadsNeeded IsOpenAnswer input (R.left source.new) (R.calls source.old) (R.calls source.new) }
    ensures reads { R.calls source.new ≤ R.calls source.old + 100000 }
    ensures sound { IsTrue (is_answered result) → R.failed source.new ≡ R.failed source.old }
    ensures once { R.failed source.new ≤ R.failed source.old + 1 }
{
    let mut buffer = Vec::new(alloc);
    if buffer.resize(READ_LIMIT, 0).is_err() {
        return TryAnswer::NoAnswer;
    }
    let mut parser = AnswerParser::new(alloc);
    for _ in 0..READS {
        let Some(count) = pull(source, &mut buffer) else {
            return TryAnswer::NoAnswer;
        };
        if count == 0 {
            return ended(parser);
        }
        match parser.feed(&buffer[..count]) {
            Ok(ParsedAnswer::Open) => {}
            Ok(ParsedAnswer::Answer(answer)) => return received(answer),
            Ok(ParsedAnswer::NoAnswer) | Err(_) => return TryAnswer::NoAnswer,
        }
    }
    TryAnswer::NoAnswer
}

/// Sends the request of a job, and reads one answer (RFC 9112, sections 4 and 6). Whatever goes wrong is no answer. So it is
/// with a write or a read that fails, memory that isn't there, an input that ends too early, and a head that can't be read. So
/// it is too with a status below 200, a transfer coding other than `chunked`, a bad chunk, and a body of more than 1,048,576
/// bytes. At most 100,000 reads are made.
pub fn exchange<R: Source, W: Sink>(
    alloc: Global,
    job: &Job,
    source: &mut R,
    sink: &mut W,
) -> TryAnswer
    // What was written is the request of the job, or the front of it.
    ensures written { AppendsPart (W.written sink.old) (W.written sink.new) job.now.bytes }
    // Nothing is read where the request couldn't be written, or before it was written whole.
    ensures unread { W.failed sink.old < W.failed sink.new → R.calls source.new ≡ R.calls source.old }
    ensures behind { R.calls source.old < R.calls source.new
        → Appends (W.written sink.old) (W.written sink.new) job.now.bytes }
    // An answer is told only where the whole request was written.
    ensures whole { IsTrue (is_answered result) → Appends (W.written sink.old) (W.written sink.new) job.now.bytes }
    // .. and where no call failed. Nothing is tried again: of either device one call fails at most.
    ensures sound { IsTrue (is_answered result) → (R.failed source.new ≡ R.failed source.old)
        × (W.failed sink.new ≡ W.failed sink.old) }
    ensures once_read { R.failed source.new ≤ R.failed source.old + 1 }
    ensures once_written { W.failed sink.new ≤ W.failed sink.old + 1 }
    // The answer is that of the whole input: never a part of its body.
    ensures answer { (input : List ℕ) → R.left source.old ≡ Some input → Gets input result }
    // Each read stands behind less than an answer, or behind one whose end wasn't seen, and one that gave nothing is the last.
    ensures needed { (input : List ℕ) → R.left source.old ≡ Some input
        → ReadsNeeded IsOpenAnswer input (R.left source.new) (R.calls source.old) (R.calls source.new) }
    ensures reads { R.calls source.new ≤ R.calls source.old + 100000 }
{
    if push_all(sink, job.bytes.as_slice()).is_err() {
        return TryAnswer::NoAnswer;
    }
    read_answer(alloc, source)
}
