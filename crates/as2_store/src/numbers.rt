//! Numbers as the database takes them.

ghost use Rattle.std.specs.Prelude.{◌≡◌, ◌<◌, ◌≤◌, ◌^◌, pos, IfSome, IsTrue, option_map};
ghost use Rattle.as2_exchange.specs.State.{end_of_numbers};
ghost use Rattle.as2_store.specs.Adding.{EntryFits};
ghost use Rattle.as2_store.specs.Owing.{FitsReceipt};
ghost use Rattle.as2_store.specs.Progressing.{FitsProgress};

use as2_exchange::END_OF_NUMBERS;
use as2_mic::Pieces;
use as2_records::{Progress, ReceiptProgress};
use std::cmp::min;

/// The greatest number that fits into a column.
const MOST: u64 = 9_223_372_036_854_775_807;

/// A number that fits into a column.
pub fn whole(n: u64) -> i64
    requires { n < 2 ^ 63 }
    ensures { result ≡ pos n }
{
    n as i64
}

/// The same of a number that may be absent.
pub fn whole_or_none(n: Option<u64>) -> Option<i64>
    requires { IfSome n (λ n. n < 2 ^ 63) }
    ensures { result ≡ option_map pos n }
{
    match n {
        Some(n) => Some(whole(n)),
        None => None,
    }
}

/// Whether a number that may be absent fits into a column.
fn may_stand(n: Option<u64>) -> bool
    ensures { IsTrue result → IfSome n (λ n. n < 2 ^ 63) }
{
    match n {
        Some(n) => n <= MOST,
        None => true,
    }
}

/// Whether the numbers of an entry fit into its columns.
pub fn fits(content: &Pieces, tries: u64, due: Option<u64>) -> bool
    ensures { IsTrue result → EntryFits content.now tries due }
{
    content.len() as u64 <= MOST && tries <= MOST && may_stand(due)
}

/// Whether the numbers of a document that has come so far fit into its columns.
pub fn fits_progress(progress: Progress) -> bool
    ensures { IsTrue result → FitsProgress progress }
{
    progress.tries <= MOST && may_stand(progress.due)
}

/// Whether the numbers of a receipt that has come so far fit into its columns.
pub fn fits_receipt(progress: ReceiptProgress) -> bool
    ensures { IsTrue result → FitsReceipt progress }
{
    progress.tries <= MOST && may_stand(progress.due)
}

/// The number, or else one that is never given in place of any other that is never given.
pub fn asked(number: u64) -> u64
    ensures beyond { end_of_numbers ≤ number → result ≡ end_of_numbers }
    ensures within { number < end_of_numbers → result ≡ number }
{
    min(number, END_OF_NUMBERS)
}
