//! The answers to posts.
ghost use Rattle.std.specs.Prelude.{◌≡◌, IfOk};
ghost use Rattle.as2_exchange.specs.declared.answer.Answer.TheVariants.{Http};
ghost use Rattle.as2_exchange.specs.declared.answer.HttpBody.TheVariants.{Nothing};
ghost use Rattle.as2_exchange.specs.Recording.{answer_to, receipt_out};
ghost use Rattle.as2_posts.specs.Answers.{receipt_answer, untold};

use as2_agreement::Agreements;
use as2_exchange::{Bytes, HttpAnswer, HttpBody, Line, Posted, ReceiptDelivery};
use as2_mdn::{Outcome, ReceiptOut, write_receipt};
use as2_text::Memory;
use std::alloc::{AllocError, Global};

/// An answer without a body.
fn nothing(status: u16) -> HttpAnswer
    ensures { result ≡ record { status = status; body = Nothing } }
{
    HttpAnswer {
        status,
        body: HttpBody::Nothing,
    }
}

/// The receipt of that number for a document.
pub fn receipt_out(
    agreements: &Agreements,
    number: u64,
    posted: &Posted,
) -> Result<ReceiptOut, AllocError>
    ensures { IfOk result (λ out. out ≡ receipt_out agreements.now number posted.now) }
{
    Ok(ReceiptOut {
        number,
        domain: agreements.domain().clone()?,
        from: posted.receiver.clone()?,
        to: posted.sender.clone()?,
        original_id: posted.id.clone()?,
        outcome: posted.outcome,
        mic: posted.mic,
    })
}

/// The answer that carries a receipt.
#[tactic(auto, unfolding(as2_exchange::specs::Readings::receipt_bytes))]
fn carrying(alloc: Global, out: ReceiptOut) -> Result<HttpAnswer, Memory>
    ensures { IfOk result (λ a. a ≡ receipt_answer out) }
{
    let bytes = Bytes::of(write_receipt(alloc, &out)?);
    Ok(HttpAnswer {
        status: 200,
        body: HttpBody::Report { out, bytes },
    })
}

/// The answer where no receipt is asked for: what became of the document (RFC 4130, section 7.2).
fn untold(outcome: Outcome) -> HttpAnswer
    ensures { result ≡ untold outcome }
{
    match outcome {
        Outcome::Processed => nothing(200),
        _ => Line::NotProcessed(outcome).answer(),
    }
}

/// The answer to a recorded document whose receipt has that number; a repeat of the document gets the same.
#[tactic(auto, unfolding(as2_exchange::specs::Recording::answer_to))]
pub fn answer_to(
    alloc: Global,
    agreements: &Agreements,
    number: u64,
    posted: &Posted,
) -> Result<HttpAnswer, Memory>
    ensures { IfOk result (λ a. Http a ≡ answer_to agreements.now number posted.now) }
{
    match posted.how {
        ReceiptDelivery::NoReceipt => Ok(untold(posted.outcome)),
        ReceiptDelivery::Sync => carrying(alloc, receipt_out(agreements, number, posted)?),
        ReceiptDelivery::Async(_) => Ok(nothing(202)),
    }
}
