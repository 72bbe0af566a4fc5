//! The records of a station, whatever they lie on: they stand for a state of the exchange machine, and each call takes it to
//! the named next one or leaves it.
#![tactic(auto)]

ghost use Rattle.std.specs.Prelude.{◌≡◌};
ghost use Rattle.as2_exchange.specs.declared.inbox.InEntry.{InEntry};
ghost use Rattle.as2_exchange.specs.declared.outbox.OutEntry.{OutEntry};
ghost use Rattle.as2_records.specs.Summaries.{in_entry, in_summary, out_entry, out_summary};

mod counts;
mod discrepancy;
mod numbers;
mod progress;
mod records;
mod rounds;
mod summaries;

pub use counts::Counts;
pub use discrepancy::Discrepancy;
pub use numbers::NextNumbers;
pub use progress::{Progress, ReceiptProgress};
pub use records::Records;
pub use rounds::Rounds;
pub use summaries::{InRow, OutRow};

/// An entry is the one that its summary and its content, and a document's evidence, are.
pub fn entries_come_back()
    ensures inbox { (e : InEntry) → in_entry (in_summary e) e.posted.content ≡ e }
    ensures outbox { (d : OutEntry) → out_entry (out_summary d) d.begun d.content d.evidence ≡ d }
{}
