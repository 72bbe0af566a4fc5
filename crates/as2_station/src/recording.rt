//! Documents that are posted: each is recorded once.
ghost use Rattle.std.specs.Prelude.{◌≡◌, Ok, Some, None, IsTrue, true};
ghost use Rattle.as2_exchange.specs.State.{received_as};
ghost use Rattle.as2_exchange.specs.Lines.{refusal};
ghost use Rattle.as2_exchange.specs.Posts.{IsDocument};
ghost use Rattle.as2_exchange.specs.declared.answer.Answer.TheVariants.{Http};
ghost use Rattle.as2_exchange.specs.declared.answer.Line.TheVariants.{IdUsedBefore};
ghost use Rattle.as2_posts.specs.Answers.{has_kept_mic};
ghost use Rattle.as2_station.specs.Steps.{ClashesWhole, TakesPost, always};

use crate::terms::Terms;
use as2_exchange::{HttpAnswer, InEntry, Line, Posted, StoreFault};
use as2_posts::{answer_to, first_entry, has_kept_mic, is_requeued, repeats};
use as2_records::Records;

/// Takes a document whose key an entry has: a repeat of the entry's document is answered as that was, and its receipt is
/// queued again where a repeat does so. Any other is refused, unless the entry's own document is damaged: that is Disk. Which of
/// the two it is depends on the origin of the records.
#[tactic(auto, unfolding(as2_exchange::specs::Recording::record_post))]
fn record_again<R: Records>(
    records: &mut R,
    terms: &Terms<'_>,
    entry: &InEntry,
    posted: &Posted,
) -> Result<HttpAnswer, StoreFault>
    requires open { (R.shows records.old).IsClean → IsTrue (R.shows records.old).is_open }
    ensures taken { TakesPost R.shows terms.now.agreements.now terms.now.moment (IsDocument posted.now)
        (λ s. received_as s posted.now ≡ Some entry.now) records.old records.new result }
    ensures whole { result ≡ Ok (refusal IdUsedBefore) → has_kept_mic entry.now.posted ≡ true }
{
    let origin = records.origin()?;
    if !repeats(origin, entry.number, &entry.posted, posted) {
        if !has_kept_mic(&entry.posted) {
            return Err(StoreFault::Disk);
        }
        return Ok(Line::IdUsedBefore.answer());
    }
    let answer = answer_to(terms.alloc, terms.agreements, entry.number, &entry.posted)?;
    if !is_requeued(entry) {
        return Ok(answer);
    }
    records.requeue_receipt(entry.number, terms.moment)?;
    Ok(answer)
}

/// Takes a document whose key no entry has: it gets the next number.
#[tactic(auto, unfolding(as2_exchange::specs::Recording::record_post, as2_exchange::specs::Readings::value_of))]
fn record_first<R: Records>(
    records: &mut R,
    terms: &Terms<'_>,
    posted: Posted,
) -> Result<HttpAnswer, StoreFault>
    ensures taken { TakesPost R.shows terms.now.agreements.now terms.now.moment (IsDocument posted)
        (λ s. received_as s posted ≡ None) records.old records.new result }
    ensures own { ¬ (result ≡ Ok (refusal IdUsedBefore)) }
{
    let number = records.next_numbers()?.receipt;
    let answer = answer_to(terms.alloc, terms.agreements, number, &posted)?;
    records.add_in(&first_entry(number, terms.moment, posted))?;
    Ok(answer)
}

/// Takes a document: it repeats one, clashes with one, or is new and gets the next number.
#[tactic(auto, unfolding(as2_exchange::specs::Readings::value_of))]
pub(crate) fn record<R: Records>(
    records: &mut R,
    terms: &Terms<'_>,
    posted: Posted,
) -> Result<HttpAnswer, StoreFault>
    ensures taken { TakesPost R.shows terms.now.agreements.now terms.now.moment (IsDocument posted) always records.old
        records.new result }
    ensures whole { ClashesWhole Http (IsDocument posted) (R.shows records.old) (R.shows records.new) result }
{
    let found = records.find_in(
        terms.alloc,
        &posted.sender,
        &posted.receiver,
        posted.id.value(),
    )?;
    match &found {
        Some(entry) => record_again(records, terms, entry, &posted),
        None => record_first(records, terms, posted),
    }
}
