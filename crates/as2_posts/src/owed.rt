//! Receipts that are sent by a request of their own (RFC 4130, section 7.3; RFC 9112, section 3).
ghost use Rattle.std.specs.Prelude.{◌≡◌, IfOk};
ghost use Rattle.as2_text.specs.Addresses.{IsAuthority};
ghost use Rattle.as2_exchange.specs.Readings.{receipt_job};
ghost use Rattle.as2_exchange.specs.Recording.{receipt_out};
ghost use Rattle.as2_exchange.specs.declared.inbox.ReceiptDelivery.TheVariants as delivery;
ghost use Rattle.as2_posts.specs.Sending.{receipt_to};

use crate::answering::receipt_out;
use crate::sending::{HEAD, add_opening, add_text};
use as2_agreement::Agreements;
use as2_exchange::{Address, Bytes, Job, Posted};
use as2_mdn::{write_head_fields, write_receipt};
use as2_text::{Memory, Url};
use std::alloc::Global;

/// The request of the receipt of that number for a document, to that address.
fn job_to(
    alloc: Global,
    url: &Url<'_>,
    agreements: &Agreements,
    number: u64,
    posted: &Posted,
) -> Result<Job, Memory>
    ensures job { IfOk result (λ job. job ≡ receipt_to url.now (receipt_out agreements.now number posted.now)) }
{
    let out = receipt_out(agreements, number, posted)?;
    let report = Bytes::of(write_receipt(alloc, &out)?);
    let report = report.as_slice();
    let mut bytes = Vec::with_capacity(alloc, report.len().saturating_add(HEAD))?;
    add_opening(&mut bytes, url)?;
    write_head_fields(alloc, &mut bytes, &out, report.len())?;
    add_text(&mut bytes, b"\r\n")?;
    add_text(&mut bytes, report)?;
    Ok(Job {
        authority: Bytes::keep(alloc, url.authority())?,
        bytes: Bytes::of(bytes),
    })
}

/// The request that carries the receipt of that number for a document, to this address, which was named with it.
#[tactic(auto, unfolding(as2_exchange::specs::Readings::receipt_job))]
pub fn receipt_job(
    alloc: Global,
    agreements: &Agreements,
    number: u64,
    posted: &Posted,
    address: &Address,
) -> Result<Job, Memory>
    ensures job { IfOk result (λ job. job
        ≡ receipt_job (delivery.Async address.now) (receipt_out agreements.now number posted.now)) }
    ensures address { IfOk result (λ job. IsAuthority job.authority) }
{
    let Some(url) = Url::parse(address.as_slice()) else {
        unreachable!()
    };
    let job = job_to(alloc, &url, agreements, number, posted)?;
    Ok(job)
}
