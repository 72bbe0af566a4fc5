//! Where requests go.
ghost use Rattle.std.specs.Prelude.{◌≡◌, IfErr, IfOk, None, true};
ghost use Rattle.std.specs.Option.{option_map_or};
ghost use Rattle.as2_exchange.specs.State.{document, received_entry};
ghost use Rattle.as2_records.specs.Calls.{Reads};
ghost use Rattle.as2_records.specs.Standing.{may_come};
ghost use Rattle.as2_station.specs.Due.{asked_at, destination, partner_address};

use as2_agreement::Agreements;
use as2_exchange::{Bytes, Next, OutEntry, ReceiptDelivery, StoreFault};
use as2_records::Records;
use as2_text::Memory;
use std::alloc::Global;

/// The address of the document's partner, where it is agreed.
fn partner_address(
    alloc: Global,
    agreements: &Agreements,
    document: &OutEntry,
) -> Result<Option<Bytes>, Memory>
    ensures { IfOk result (λ found. found ≡ partner_address agreements.now document.now) }
{
    match agreements.partner(&document.partner) {
        Some(partner) => Ok(Some(Bytes::keep(alloc, partner.url.as_str().as_bytes())?)),
        None => Ok(None),
    }
}

/// The address at which a receipt is asked for.
fn asked_at(alloc: Global, how: &ReceiptDelivery) -> Result<Option<Bytes>, Memory>
    ensures { IfOk result (λ found. found ≡ asked_at how.now) }
{
    match how {
        ReceiptDelivery::Async(address) => Ok(Some(Bytes::keep(alloc, address.as_slice())?)),
        _ => Ok(None),
    }
}

/// The address that the request of a receipt goes to.
fn of_receipt<R: Records>(
    records: &mut R,
    alloc: Global,
    number: u64,
) -> Result<Option<Bytes>, StoreFault>
    ensures destination { Reads (λ s found. found
        ≡ option_map_or (λ e. asked_at e.posted.how) (received_entry s number) None)
        (R.shows records.old) (R.shows records.new) result }
    ensures fault { IfErr result (λ f. may_come f ≡ true) }
{
    match records.find_in_number(alloc, number)? {
        Some(entry) => Ok(asked_at(alloc, &entry.posted.how)?),
        None => Ok(None),
    }
}

/// The address that the request of a document goes to.
fn of_document<R: Records>(
    records: &mut R,
    alloc: Global,
    agreements: &Agreements,
    number: u64,
) -> Result<Option<Bytes>, StoreFault>
    ensures destination { Reads (λ s found. found
        ≡ option_map_or (partner_address agreements.now) (document s number) None)
        (R.shows records.old) (R.shows records.new) result }
    ensures fault { IfErr result (λ f. may_come f ≡ true) }
{
    match records.find_out(alloc, number)? {
        Some(document) => Ok(partner_address(alloc, agreements, &document)?),
        None => Ok(None),
    }
}

/// The address that a request for it goes to. None where there is no such entry, where the document's partner isn't agreed, and where no
/// receipt is asked for at an address.
pub fn destination<R: Records>(
    records: &mut R,
    alloc: Global,
    agreements: &Agreements,
    what: Next,
) -> Result<Option<Bytes>, StoreFault>
    ensures destination { Reads (λ s found. found ≡ destination agreements.now s what)
        (R.shows records.old) (R.shows records.new) result }
    ensures fault { IfErr result (λ f. may_come f ≡ true) }
{
    match what {
        Next::Receipt(number) => of_receipt(records, alloc, number),
        Next::Document(number) => of_document(records, alloc, agreements, number),
    }
}
