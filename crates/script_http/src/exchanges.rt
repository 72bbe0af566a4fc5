//! A request is sent, and its answer is read (RFC 9112, sections 4 and 6).
ghost use Rattle.as2_http.specs.Devices.{OpensLedger};

use crate::devices::{Room, Steps};
use as2_exchange::{Bytes, Job, TryAnswer};
use as2_http::{Counted, exchange};
use script_lines::{Answer, Trouble};
use std::alloc::Global;
use std::io::{Read, Write};
use std::marker::Brand;
use std::sync::ledger::{Blank, Ledger};

fn exchange_counted<R: Read, W: Write, A: Ledger, B: Ledger, C: Ledger, D: Ledger>(
    alloc: Global,
    job: &Job,
    input: &mut R,
    output: &mut W,
    reads: Blank,
    failed_reads: Blank,
    writes: Blank,
    failed_writes: Blank,
) -> TryAnswer
    requires reads { OpensLedger reads.name reads.parts A.name A.parts }
    requires failed_reads { OpensLedger failed_reads.name failed_reads.parts B.name B.parts }
    requires writes { OpensLedger writes.name writes.parts C.name C.parts }
    requires failed_writes { OpensLedger failed_writes.name failed_writes.parts D.name D.parts }
{
    let mut source: Counted<&mut R, A, B> = Counted::new(input, reads, failed_reads);
    let mut sink: Counted<&mut W, C, D> = Counted::new(output, writes, failed_writes);
    exchange(alloc, job, &mut source, &mut sink)
}

/// What a try gets that sends the request of a job, where nobody looks at the counts.
pub fn exchanged<R: Read, W: Write>(
    alloc: Global,
    job: &Job,
    input: &mut R,
    output: &mut W,
) -> TryAnswer {
    exchange_counted::<R, W, Brand, Brand, Brand, Brand>(
        alloc,
        job,
        input,
        output,
        Blank::new(1),
        Blank::new(1),
        Blank::new(1),
        Blank::new(1),
    )
}

/// The status of an answer, and how many fields and bytes of body it has.
type Said = Option<(u16, usize, usize)>;

fn said(answer: &TryAnswer) -> Said {
    match answer {
        TryAnswer::NoAnswer => None,
        TryAnswer::Reply { status, head, body } => Some((*status, head.len(), body.len())),
    }
}

/// What a try came to: what the answer says, how many reads were made, and whether the whole request was written.
#[derive(Clone, Copy)]
struct Tried {
    said: Said,
    reads: usize,
    is_sent: bool,
}

/// A request that is sent, and the text that is answered to it.
#[derive(Drop)]
struct Exchange {
    job: Job,
    text: Vec<u8>,
}

/// What a try comes to whose answer comes in such steps, with so many sound reads.
fn try_in(alloc: Global, exchange: &Exchange, step: usize, sound: usize) -> Tried {
    let mut reader = Steps {
        text: exchange.text.as_slice(),
        step,
        sound,
        reads: 0,
    };
    let mut writer = Room {
        bytes: Vec::new(alloc),
        room: usize::MAX,
        fails: true,
    };
    let got = exchanged(alloc, &exchange.job, &mut reader, &mut writer);
    Tried {
        said: said(&got),
        reads: reader.reads,
        is_sent: writer.bytes.as_slice() == exchange.job.bytes.as_slice(),
    }
}

/// Tells what an answer says.
fn say_said(said: Said, answer: &mut Answer) {
    match said {
        Some((status, fields, body)) => {
            answer.say("status ");
            answer.say_number(u64::from(status));
            answer.say(", fields ");
            answer.say_number(fields as u64);
            answer.say(", body ");
            answer.say_number(body as u64);
        }
        None => answer.say("no answer"),
    }
}

/// Tells whether the request was sent whole.
fn say_sent(is_sent: bool, answer: &mut Answer) {
    answer.say(if is_sent {
        "; sent"
    } else {
        "; not sent whole"
    });
}

/// Tells what a try came to.
fn say_tried(tried: Tried, answer: &mut Answer) {
    say_said(tried.said, answer);
    answer.say("; reads ");
    answer.say_number(tried.reads as u64);
    say_sent(tried.is_sent, answer);
}

/// The request that a word spells, as what is to be sent.
fn job_in(request: &str, answer: &mut Answer) -> Job {
    Job {
        authority: Bytes::of(answer.bytes_of("127.0.0.1:8080")),
        bytes: Bytes::of(answer.bytes_of(request)),
    }
}

/// The request that a row begins with, and the rest of it.
fn request_and_rest<'a>(row: &'a str, answer: &mut Answer) -> (&'a str, &'a str) {
    answer.cut(row, " | ", "no request and no answer")
}

/// The exchange that `REQUEST | TEXT` spells.
fn exchange_in(rest: &str, answer: &mut Answer) -> Exchange {
    let (request, text) = request_and_rest(rest, answer);
    Exchange {
        job: job_in(request, answer),
        text: answer.bytes_of(text),
    }
}

/// Tells what a try comes to whose answer comes in such steps, unless it says what the first did. Gives what the first said.
fn say_in_step(exchange: &Exchange, step: usize, first: Option<Said>, answer: &mut Answer) -> Said {
    let tried = try_in(answer.alloc(), exchange, step, usize::MAX);
    let Some(first) = first else {
        say_tried(tried, answer);
        return tried.said;
    };
    if tried.said != first {
        answer.say("; in steps of ");
        answer.say_number(step as u64);
        answer.say(" ");
        say_tried(tried, answer);
    }
    first
}

/// Tells what tries come to whose answers come in each of the steps.
fn say_in_steps(exchange: &Exchange, steps: &str, answer: &mut Answer) {
    let mut first = None;
    for word in steps.split(" ") {
        let step = answer.length_in(word);
        first = Some(say_in_step(exchange, step, first, answer));
    }
}

/// `REQUEST | STEPS | TEXT`: what a try comes to whose answer comes in reads of so many bytes as the first step has; and what it
/// says with those of another step, where that is something else.
fn say_exchange(rest: &str, answer: &mut Answer) {
    let (request, rest) = request_and_rest(rest, answer);
    let job = job_in(request, answer);
    let (steps, text) = answer.cut(rest, " | ", "no steps and no answer");
    let text = answer.bytes_of(text);
    say_in_steps(&Exchange { job, text }, steps, answer);
}

/// Makes each read of one byte fail in turn, until none does that a try makes, and tells what comes of it.
fn say_reads(exchange: &Exchange, answer: &mut Answer) {
    for sound in 0..exchange.text.len().saturating_add(2) {
        let tried = try_in(answer.alloc(), exchange, 1, sound);
        if tried.said.is_some() {
            answer.say("no answer ");
            answer.say_number(sound as u64);
            answer.say(" times, then one");
            return;
        }
        if tried.reads != sound || !tried.is_sent {
            answer.say("behind ");
            answer.say_number(sound as u64);
            answer.say(" reads ");
            say_tried(tried, answer);
            return;
        }
    }
    answer.say("never an answer");
}

/// `REQUEST | TEXT`: each read of one byte fails in turn, until none does that a try makes. How often there was no answer, no read
/// behind the one that failed, and the request written whole.
fn say_failing_reads(rest: &str, answer: &mut Answer) {
    let exchange = exchange_in(rest, answer);
    say_reads(&exchange, answer);
}

/// Whether no answer is taken where the writer has such room, no read made, and as much of the request written.
fn is_unsent(alloc: Global, exchange: &Exchange, room: usize, fails: bool) -> bool {
    let mut reader = Steps {
        text: exchange.text.as_slice(),
        step: 65_536,
        sound: usize::MAX,
        reads: 0,
    };
    let mut writer = Room {
        bytes: Vec::new(alloc),
        room,
        fails,
    };
    let got = exchanged(alloc, &exchange.job, &mut reader, &mut writer);
    let sent = writer.bytes.as_slice();
    let is_front = sent.len() == room && exchange.job.bytes.as_slice().starts_with(sent);
    is_front && reader.reads == 0 && matches!(got, TryAnswer::NoAnswer)
}

/// Makes a write fail, and take none, behind each byte of the request, and tells what comes of it.
fn say_writes(exchange: &Exchange, answer: &mut Answer) {
    let mut count = 0u64;
    for room in 0..exchange.job.bytes.as_slice().len() {
        for fails in [true, false] {
            if !is_unsent(answer.alloc(), exchange, room, fails) {
                answer.say("otherwise behind ");
                answer.say_number(room as u64);
                answer.say(" bytes");
                return;
            }
            count = count.saturating_add(1);
        }
    }
    answer.say("no answer and no read ");
    answer.say_number(count);
    answer.say(" times");
}

/// `REQUEST | TEXT`: behind each byte of the request, from before the first on, a write fails, and takes none. How often there was no
/// answer, no read, and what stands before it written.
fn say_failing_writes(rest: &str, answer: &mut Answer) {
    let exchange = exchange_in(rest, answer);
    say_writes(&exchange, answer);
}

/// Tells the body of an answer, where there is one.
fn say_body(got: &TryAnswer, answer: &mut Answer) {
    if let TryAnswer::Reply { body, .. } = got {
        answer.say(": ");
        for at in 0..body.count() {
            answer.say_bytes(body.piece(at).unwrap_or(b""));
        }
    }
}

/// `REQUEST | TEXT`: what a try comes to over the standard reader and writer in memory, and the body that it gets.
fn say_in_memory(rest: &str, answer: &mut Answer) {
    let exchange = exchange_in(rest, answer);
    let request = exchange.job.bytes.as_slice();
    let mut text = exchange.text.as_slice();
    let mut output = Vec::new(answer.alloc());
    let got = exchanged(answer.alloc(), &exchange.job, &mut text, &mut output);
    say_said(said(&got), answer);
    say_sent(output.as_slice() == request, answer);
    say_body(&got, answer);
}

/// Answers to the verbs of exchanges over HTTP; whether it is one.
pub fn answer(verb: &str, rest: &str, answer: &mut Answer) -> bool {
    match verb {
        "exchange" => say_exchange(rest, answer),
        "exchange-in-memory" => say_in_memory(rest, answer),
        "exchange-fail-each-read" => say_failing_reads(rest, answer),
        "exchange-fail-each-write" => say_failing_writes(rest, answer),
        _ => return false,
    }
    true
}
