//! Replies, as they are written.
ghost use Rattle.std.specs.Prelude.{◌≡◌, ◌+◌, ◌<◌, ◌≤◌, Err, OnOk, OnErr};
ghost use Rattle.std.specs.Io.KnownBytes.{Appends};
ghost use Rattle.as2_exchange.specs.Lines.{refusal};
ghost use Rattle.as2_messages.specs.Replies.{refusal_line};
ghost use Rattle.as2_http.specs.Sending.{AppendsPart, WritesReply, refusal_form};
ghost use Rattle.as2_http.specs.declared.sending.SendFault.TheVariants.{Write};

use crate::device::{DeviceFault, Sink};
use as2_exchange::HttpAnswer;
use as2_messages::{Form, Refused, refusal, write_reply};
use as2_text::Moment;
use std::alloc::Global;

/// Why a reply wasn't written whole.
#[derive(Clone, Copy, Debug, PartialEq, Eq)]
pub enum SendFault {
    /// A write failed, or took no byte.
    Write,
    /// Memory for its text wasn't there, and nothing was written.
    Memory,
}

/// Writes all the bytes, or the first of them.
pub fn push_all<W: Sink>(sink: &mut W, bytes: &[u8]) -> Result<(), DeviceFault>
    ensures whole { OnOk result (Appends (W.written sink.old) (W.written sink.new) bytes.now) }
    ensures sound { OnOk result (W.failed sink.new ≡ W.failed sink.old) }
    ensures part { OnErr result (AppendsPart (W.written sink.old) (W.written sink.new) bytes.now) }
    ensures failed { OnErr result (W.failed sink.old < W.failed sink.new) }
    ensures counted { W.failed sink.old ≤ W.failed sink.new }
    ensures once { W.failed sink.new ≤ W.failed sink.old + 1 }
{
    let mut rest = bytes;
    while !rest.is_empty() {
        let count = sink.push(rest)?;
        if count == 0 {
            return Err(DeviceFault);
        }
        rest = &rest[count..];
    }
    Ok(())
}

/// Writes the reply that an answer is at a moment.
pub fn send<W: Sink>(
    alloc: Global,
    moment: Moment,
    form: Form,
    answer: &HttpAnswer,
    sink: &mut W,
) -> Result<(), SendFault>
    ensures sends { WritesReply moment form answer.now (W.written sink.old) (W.written sink.new) result }
    ensures failed { result ≡ Err Write → W.failed sink.old < W.failed sink.new }
    ensures sound { ¬ (result ≡ Err Write) → W.failed sink.new ≡ W.failed sink.old }
    ensures once { W.failed sink.new ≤ W.failed sink.old + 1 }
{
    let Ok(text) = write_reply(alloc, moment, form, answer) else {
        return Err(SendFault::Memory);
    };
    match push_all(sink, &text) {
        Ok(()) => Ok(()),
        Err(_) => Err(SendFault::Write),
    }
}

/// Writes the reply that says why no request begins there.
pub fn send_refusal<W: Sink>(
    alloc: Global,
    moment: Moment,
    refused: Refused,
    sink: &mut W,
) -> Result<(), SendFault>
    ensures sends { WritesReply moment (refusal_form refused) (refusal (refusal_line refused.reason))
        (W.written sink.old) (W.written sink.new) result }
    ensures failed { result ≡ Err Write → W.failed sink.old < W.failed sink.new }
    ensures sound { ¬ (result ≡ Err Write) → W.failed sink.new ≡ W.failed sink.old }
    ensures once { W.failed sink.new ≤ W.failed sink.old + 1 }
{
    let form = Form {
        closes: true,
        to_head: refused.to_head,
    };
    send(alloc, moment, form, &refusal(refused.reason), sink)
}
