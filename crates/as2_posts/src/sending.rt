//! Documents that are sent: the identifier that one gets, and the request that carries it to its partner (RFC 4130, sections
//! 5.3 and 6; RFC 9112, section 3).
ghost use Rattle.std.specs.Prelude.{◌≡◌, ◌++◌, List, ℕ, codes, option_map, IfOk, OnOk};
ghost use Rattle.as2_names.specs.Identifiers.{IsIdentifier};
ghost use Rattle.as2_text.specs.Addresses.{IsAuthority};
ghost use Rattle.as2_exchange.specs.Jobs.{asking_fields, identifier_in_brackets, document_request, identifier_value, request_opening, request_fields, return_field};
ghost use Rattle.as2_posts.specs.Sending.{content_fields, name_fields, request_to};

use as2_agreement::{Agreements, Asked, Partner, UrlText};
use as2_exchange::{Bytes, Job, OutEntry};
use as2_mdn::add_line;
use as2_mic::Pieces;
use as2_text::{AsName, IdFault, Memory, MessageId, Url};
use itoa::Buffer;
use std::alloc::{AllocError, Global};

/// More than the head of a request takes: two addresses, names, an identifier and a content type, each with its limit.
pub const HEAD: usize = 4_096;

/// The text of the identifier of the document of this number.
fn identifier_text(alloc: Global, agreements: &Agreements, number: u64) -> Result<Vec<u8>, Memory>
    ensures text { IfOk result (λ text. text.items ≡ identifier_in_brackets (identifier_value agreements.now number)) }
    ensures identifier { IfOk result (λ text. IsIdentifier text.items) }
{
    let mut text = Vec::from_slice(alloc, b"<out-")?;
    text.extend_from_slice(Buffer::new().format(number).as_bytes())?;
    text.extend_from_slice(b"@")?;
    text.extend_from_slice(agreements.domain().bytes())?;
    text.extend_from_slice(b">")?;
    Ok(text)
}

/// The identifier of the document of this number: `<out-N@domain>`.
pub fn out_id(alloc: Global, agreements: &Agreements, number: u64) -> Result<MessageId, Memory>
    ensures { IfOk result (λ id. id ≡ identifier_in_brackets (identifier_value agreements.now number)) }
{
    let text = identifier_text(alloc, agreements, number)?;
    match MessageId::parse(alloc, &text) {
        Ok(id) => Ok(id),
        Err(IdFault::Memory) => Err(Memory),
        // The text is an identifier, so nothing else can be wrong with it.
        Err(_) => unreachable!(),
    }
}

/// Appends a text. Where memory runs out, a part of it may be appended.
pub fn add_text(text: &mut Vec<u8>, more: &[u8]) -> Result<(), AllocError>
    ensures { OnOk result (text.new.items ≡ text.old.items ++ more.now) }
{
    text.extend_from_slice(more)
}

/// Appends what a request to that address begins with: its line, and the fields of the connection.
pub fn add_opening(text: &mut Vec<u8>, url: &Url<'_>) -> Result<(), AllocError>
    ensures { OnOk result (text.new.items ≡ text.old.items ++ request_opening url.now) }
{
    add_text(text, b"POST ")?;
    add_line(text, url.target(), b" HTTP/1.1")?;
    add_line(text, b"Host: ", url.authority())?;
    add_text(text, b"Connection: close\r\n")
}

/// Appends the fields that ask for a receipt (RFC 8098, section 2; RFC 4130, section 7.3).
fn add_request(
    text: &mut Vec<u8>,
    agreements: &Agreements,
    partner: &Partner,
) -> Result<(), AllocError>
    ensures { OnOk result (text.new.items ≡ text.old.items ++ request_fields agreements.now partner.now) }
{
    add_line(
        text,
        b"Disposition-Notification-To: as2@",
        agreements.domain().bytes(),
    )?;
    add_line(
        text,
        b"Disposition-Notification-Options: signed-receipt-micalg=optional, ",
        partner.digest.name().as_bytes(),
    )?;
    Ok(())
}

/// Appends the field that says where a receipt is to be sent.
fn add_return(text: &mut Vec<u8>, url: Option<&UrlText>) -> Result<(), AllocError>
    ensures { OnOk result (text.new.items ≡ text.old.items ++ return_field (option_map (λ u. u.now) url.entry)) }
{
    match url {
        Some(url) => add_line(text, b"Receipt-Delivery-Option: ", url.as_str().as_bytes()),
        None => Ok(()),
    }
}

/// Appends the fields that ask a partner for a receipt in the agreed way.
fn add_asking(
    text: &mut Vec<u8>,
    agreements: &Agreements,
    partner: &Partner,
) -> Result<(), AllocError>
    ensures { OnOk result (text.new.items
        ≡ text.old.items ++ asking_fields partner.now.receipt agreements.now partner.now) }
{
    match partner.receipt {
        Asked::NoReceipt => Ok(()),
        Asked::Sync => add_request(text, agreements, partner),
        Asked::Async => {
            add_request(text, agreements, partner)?;
            add_return(text, agreements.return_url())
        }
    }
}

/// Appends the fields that say from whom and to whom a document is, and which (RFC 4130, section 6).
fn add_names(
    text: &mut Vec<u8>,
    partner: &Partner,
    organization: &AsName,
    id: &MessageId,
) -> Result<(), AllocError>
    ensures { OnOk result (text.new.items ≡ text.old.items ++ name_fields partner.now organization.now id.now) }
{
    add_text(text, b"AS2-Version: 1.0\r\n")?;
    add_line(
        text,
        b"AS2-From: ",
        organization.spelling().as_str().as_bytes(),
    )?;
    add_line(
        text,
        b"AS2-To: ",
        partner.name.spelling().as_str().as_bytes(),
    )?;
    add_line(text, b"Message-ID: ", id.as_received().as_bytes())?;
    Ok(())
}

/// Appends the fields of a document's content, and those that ask for its receipt.
fn add_content_fields(
    text: &mut Vec<u8>,
    agreements: &Agreements,
    partner: &Partner,
    content: &Pieces,
) -> Result<(), AllocError>
    ensures { OnOk result (text.new.items ≡ text.old.items ++ content_fields agreements.now partner.now content.now) }
{
    add_line(
        text,
        b"Content-Type: ",
        partner.content_type.as_str().as_bytes(),
    )?;
    add_text(text, b"Content-Transfer-Encoding: binary\r\n")?;
    add_asking(text, agreements, partner)?;
    add_line(
        text,
        b"Content-Length: ",
        Buffer::new().format(content.len()).as_bytes(),
    )?;
    Ok(())
}

/// The request of a document to that address. The content is copied once, into its bytes.
fn job_to(
    alloc: Global,
    url: &Url<'_>,
    agreements: &Agreements,
    partner: &Partner,
    entry: &OutEntry,
) -> Result<Job, Memory>
    ensures job { IfOk result (λ job. job
        ≡ request_to url.now agreements.now partner.now entry.now.organization entry.now.id entry.now.content) }
{
    let mut bytes = Vec::with_capacity(alloc, entry.content.len().saturating_add(HEAD))?;
    add_opening(&mut bytes, url)?;
    add_names(&mut bytes, partner, &entry.organization, &entry.id)?;
    add_content_fields(&mut bytes, agreements, partner, &entry.content)?;
    add_text(&mut bytes, b"\r\n")?;
    entry.content.append_to(&mut bytes)?;
    Ok(Job {
        authority: Bytes::keep(alloc, url.authority())?,
        bytes: Bytes::of(bytes),
    })
}

/// The request that carries a document to its partner.
pub fn document_job(
    alloc: Global,
    agreements: &Agreements,
    partner: &Partner,
    entry: &OutEntry,
) -> Result<Job, Memory>
    ensures job { IfOk result (λ job. job
        ≡ document_request agreements.now partner.now entry.now.organization entry.now.id entry.now.content) }
    ensures address { IfOk result (λ job. IsAuthority job.authority) }
{
    let Some(url) = Url::parse(partner.url.as_str().as_bytes()) else {
        unreachable!()
    };
    let job = job_to(alloc, &url, agreements, partner, entry)?;
    Ok(job)
}
