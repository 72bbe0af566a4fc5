//! The requests of a stream, answered one after the other.
ghost use Rattle.std.specs.Prelude.{◌≡◌, ◌⊎◌, ◌+◌, ◌<◌, ◌≤◌, List, ℕ, [], ◌++◌, take, vec_len, Option, Some, None, Err, IfSome, true};
ghost use Rattle.std.specs.Io.KnownBytes.{Appends};
ghost use Rattle.as2_framing.specs.HeadText.{unblank};
ghost use Rattle.as2_http.specs.declared.stream.Served.TheVariants.{Closed, ReadFault, TooLong, Truncated, WriteFault};
ghost use Rattle.as2_http.specs.declared.sending.SendFault.TheVariants.{Write};
ghost use Rattle.as2_exchange.specs.State.{State};
ghost use Rattle.as2_http.specs.InputReads.{read_limit};
ghost use Rattle.as2_messages.specs.Parsing.{HasTaken};
ghost use Rattle.as2_http.specs.Notes.{SinkAndJournal, refusal_note, sink_and_journal};
ghost use Rattle.as2_http.specs.Sending.{WritesReply, refusal_form};
ghost use Rattle.as2_messages.specs.Replies.{refusal_line};
ghost use Rattle.as2_exchange.specs.Lines.{refusal};
ghost use Rattle.as2_http.specs.StreamReads.{AnswersNext, BetweenReads, RunsPosts, Serves};
ghost use Rattle.as2_http.specs.Streams.{AnswersPiece, RepliesTo, end_by, may_end_piece};

use crate::device::{Sink, Source};
use crate::journal::{Journal, note_refusal, note_request, note_status};
use crate::reads::{READ_LIMIT, READS, pull};
use crate::response::respond;
use crate::sending::{SendFault, send, send_refusal};
use as2_agreement::Agreements;
use as2_messages::{Form, Parsed, Refused, Request, RequestParser};
use as2_records::Records;
use as2_station::Station;
use as2_text::Moment;
use std::alloc::Global;

/// What a stream came to.
#[derive(Clone, Copy, Debug, PartialEq, Eq)]
pub enum Served {
    /// It ended between two requests, or after the reply to its last one.
    Closed,
    /// It ended inside a request.
    Truncated,
    /// A request was refused whose end can't be told.
    BadFraming,
    /// A read failed.
    ReadFault,
    /// A write failed, or took no byte.
    WriteFault,
    /// Memory ran out.
    Memory,
    /// It took more reads than a stream may.
    TooLong,
}

/// How a stream ends with a reply that wasn't written whole.
fn end_by(fault: SendFault) -> Served
    ensures end { result ≡ end_by fault }
    ensures of_piece { may_end_piece result ≡ true }
{
    match fault {
        SendFault::Write => Served::WriteFault,
        SendFault::Memory => Served::Memory,
    }
}

/// Notes why no request begins there, and writes the reply that says so.
fn refuse<W: Sink, J: Journal>(
    alloc: Global,
    moment: Moment,
    refused: Refused,
    sink: &mut W,
    journal: &mut J,
) -> Result<(), SendFault>
    ensures sends { WritesReply moment (refusal_form refused) (refusal (refusal_line refused.reason))
        (W.written sink.old) (W.written sink.new) result }
    ensures noted { Appends (J.noted journal.old) (J.noted journal.new) (refusal_note moment refused.reason) }
    ensures failed { result ≡ Err Write → W.failed sink.old < W.failed sink.new }
    ensures sound { ¬ (result ≡ Err Write) → W.failed sink.new ≡ W.failed sink.old }
    ensures once { W.failed sink.new ≤ W.failed sink.old + 1 }
{
    note_refusal(moment, refused.reason, journal);
    send_refusal(alloc, moment, refused, sink)
}

/// Has the station take a request, notes its reply, and writes it.
fn reply<K: Records, W: Sink, J: Journal>(
    alloc: Global,
    agreements: &Agreements,
    moment: Moment,
    station: &mut Station<K>,
    request: Request,
    sink: &mut W,
    journal: &mut J,
) -> Result<(), SendFault>
    ensures clean { (K.shows station.new).IsClean → (K.shows station.old).IsClean }
    ensures replied { (K.shows station.new).IsClean → (s : State) → (K.shows station.old).Rests s
        → RepliesTo agreements.now moment s request (K.shows station.new)
        (sink_and_journal (W.written sink.old) (J.noted journal.old))
        (sink_and_journal (W.written sink.new) (J.noted journal.new)) result }
    ensures failed { result ≡ Err Write → W.failed sink.old < W.failed sink.new }
    ensures sound { ¬ (result ≡ Err Write) → W.failed sink.new ≡ W.failed sink.old }
    ensures once { W.failed sink.new ≤ W.failed sink.old + 1 }
{
    let form = Form {
        closes: false,
        to_head: request.method.is_head(),
    };
    note_request(moment, &request.fields, journal);
    let response = respond(alloc, agreements, moment, station, request);
    let answer = response.answer();
    note_status(answer.status, journal);
    send(alloc, moment, form, &answer, sink)
}

/// Answers the requests that end in a piece, in turn, and tells how the stream ends with it, if it does.
fn answer_piece<K: Records, W: Sink, J: Journal>(
    alloc: Global,
    agreements: &Agreements,
    moment: Moment,
    station: &mut Station<K>,
    parser: &mut RequestParser,
    piece: &[u8],
    sink: &mut W,
    journal: &mut J,
) -> Option<Served>
    requires held { (held : List ℕ) × HasTaken parser.old held }
    ensures clean { (K.shows station.new).IsClean → (K.shows station.old).IsClean }
    ensures answered { (K.shows station.new).IsClean → (s : State) → (K.shows station.old).Rests s
        → (held left : List ℕ) → HasTaken parser.old held
        → AnswersPiece agreements.now moment s (held ++ piece.now ++ left) left parser.new (K.shows station.new)
        (sink_and_journal (W.written sink.old) (J.noted journal.old))
        (sink_and_journal (W.written sink.new) (J.noted journal.new)) result }
    ensures failed { result ≡ Some WriteFault → W.failed sink.old < W.failed sink.new }
    ensures sound { ¬ (result ≡ Some WriteFault) → W.failed sink.new ≡ W.failed sink.old }
    ensures once { W.failed sink.new ≤ W.failed sink.old + 1 }
    ensures of_piece { IfSome result (λ end. may_end_piece end ≡ true) }
    ensures open { result ≡ None → (held : List ℕ) × HasTaken parser.new held }
{
    let mut rest = piece;
    while !rest.is_empty() {
        match parser.feed(rest) {
            Ok(Parsed::Open) => return None,
            Ok(Parsed::Request(request, used)) => {
                let last = request.last;
                if let Err(fault) = reply(
                    alloc, agreements, moment, station, request, sink, journal,
                ) {
                    return Some(end_by(fault));
                }
                if last {
                    return Some(Served::Closed);
                }
                rest = &rest[used..];
            }
            Ok(Parsed::Refused(refused)) => {
                return match refuse(alloc, moment, refused, sink, journal) {
                    Ok(()) => Some(Served::BadFraming),
                    Err(fault) => Some(end_by(fault)),
                };
            }
            Err(_) => return Some(Served::Memory),
        }
    }
    None
}

/// How a stream ends that has no more bytes.
fn ended(parser: &RequestParser) -> Served
    ensures closed { result ≡ Closed → (text : List ℕ) → HasTaken parser.now text → unblank text ≡ [] }
    ensures truncated { result ≡ Truncated → (text : List ℕ) → HasTaken parser.now text → ¬ (unblank text ≡ []) }
    ensures one { (result ≡ Closed) ⊎ (result ≡ Truncated) }
{
    if parser.is_blank() {
        Served::Closed
    } else {
        Served::Truncated
    }
}

/// Makes one read, and answers the requests that end in what it gave. Before it, every whole request that was read has its
/// reply; and so behind it, where the stream goes on.
fn answer_next<K: Records, R: Source, W: Sink, J: Journal>(
    alloc: Global,
    agreements: &Agreements,
    moment: Moment,
    station: &mut Station<K>,
    parser: &mut RequestParser,
    buffer: &mut Vec<u8>,
    source: &mut R,
    sink: &mut W,
    journal: &mut J,
) -> Option<Served>
    requires held { (held : List ℕ) × HasTaken parser.old held }
    requires room { vec_len buffer.old ≡ read_limit }
    ensures clean { (K.shows station.new).IsClean → (K.shows station.old).IsClean }
    ensures calls { R.calls source.new ≡ R.calls source.old + 1 }
    ensures answered { (K.shows station.new).IsClean
        → (s : State) (input : List ℕ) (before : SinkAndJournal) (calls : ℕ)
        → BetweenReads agreements.now moment s input parser.old (K.shows station.old) (R.left source.old) before
        (sink_and_journal (W.written sink.old) (J.noted journal.old)) calls (R.calls source.old)
        → AnswersNext agreements.now moment s input parser.new (K.shows station.new) (R.left source.new) before
        (sink_and_journal (W.written sink.new) (J.noted journal.new)) calls (R.calls source.new) result }
    ensures posts { (K.shows station.new).IsClean → (s mid : State) → (K.shows station.old).Rests mid
        → RunsPosts agreements.now moment s mid
        → (t : State) × (K.shows station.new).Rests t × RunsPosts agreements.now moment s t }
    ensures held { result ≡ None → (held : List ℕ) × HasTaken parser.new held }
    ensures room { vec_len buffer.new ≡ read_limit }
    ensures read_fault { result ≡ Some ReadFault → R.failed source.old < R.failed source.new }
    ensures write_fault { result ≡ Some WriteFault → W.failed sink.old < W.failed sink.new }
    ensures short { ¬ (result ≡ Some TooLong) }
    ensures sound_reads { ¬ (result ≡ Some ReadFault) → R.failed source.new ≡ R.failed source.old }
    ensures sound_writes { ¬ (result ≡ Some WriteFault) → W.failed sink.new ≡ W.failed sink.old }
    ensures once_read { R.failed source.new ≤ R.failed source.old + 1 }
    ensures once_written { W.failed sink.new ≤ W.failed sink.old + 1 }
{
    let Some(count) = pull(source, buffer) else {
        return Some(Served::ReadFault);
    };
    if count == 0 {
        return Some(ended(parser));
    }
    let piece = &buffer[..count];
    answer_piece(
        alloc, agreements, moment, station, parser, piece, sink, journal,
    )
}

/// Answers the requests of a stream one after the other: a post is taken by the station, over the agreements. A read is made
/// only when every whole request that was read has its reply, and none once the stream has ended; at most 100,000 are made.
/// Each reply is noted in the journal, in a line: a request up to its status before the station takes it.
pub fn serve_stream<K: Records, R: Source, W: Sink, J: Journal>(
    alloc: Global,
    agreements: &Agreements,
    moment: Moment,
    station: &mut Station<K>,
    source: &mut R,
    sink: &mut W,
    journal: &mut J,
) -> Served
    ensures clean { (K.shows station.new).IsClean → (K.shows station.old).IsClean }
    ensures serves { (K.shows station.new).IsClean → (s : State) → (K.shows station.old).Rests s
        → (input : List ℕ) → R.left source.old ≡ Some input → (t : State) × (K.shows station.new).Rests t
        × Serves agreements.now moment s t input (R.left source.new)
        (sink_and_journal (W.written sink.old) (J.noted journal.old))
        (sink_and_journal (W.written sink.new) (J.noted journal.new)) (R.calls source.old) (R.calls source.new) result }
    // Whatever the reader tells, nothing but posts at this moment was taken.
    ensures posts { (K.shows station.new).IsClean → (s : State) → (K.shows station.old).Rests s
        → (t : State) × (K.shows station.new).Rests t × RunsPosts agreements.now moment s t }
    ensures reads { R.calls source.new ≤ R.calls source.old + 100000 }
    ensures read_fault { result ≡ ReadFault → R.failed source.old < R.failed source.new }
    ensures write_fault { result ≡ WriteFault → W.failed sink.old < W.failed sink.new }
    // A call that fails is told by the end, and of either device one fails at most.
    ensures sound_reads { ¬ (result ≡ ReadFault) → R.failed source.new ≡ R.failed source.old }
    ensures sound_writes { ¬ (result ≡ WriteFault) → W.failed sink.new ≡ W.failed sink.old }
    ensures once_read { R.failed source.new ≤ R.failed source.old + 1 }
    ensures once_written { W.failed sink.new ≤ W.failed sink.old + 1 }
    ensures too_long { result ≡ TooLong → R.calls source.new ≡ R.calls source.old + 100000 }
{
    let mut buffer = Vec::new(alloc);
    if buffer.resize(READ_LIMIT, 0).is_err() {
        return Served::Memory;
    }
    let mut parser = RequestParser::new(alloc);
    for _ in 0..READS {
        let end = answer_next(
            alloc,
            agreements,
            moment,
            station,
            &mut parser,
            &mut buffer,
            source,
            sink,
            journal,
        );
        if let Some(end) = end {
            return end;
        }
    }
    Served::TooLong
}
