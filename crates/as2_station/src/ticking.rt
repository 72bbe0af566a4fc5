//! Time passes.
ghost use Rattle.std.specs.Prelude.{◌≡◌, Some, true};
ghost use Rattle.as2_exchange.specs.Documents.{tick};
ghost use Rattle.as2_exchange.specs.declared.answer.Answer.TheVariants.{Ticked};
ghost use Rattle.as2_station.specs.Steps.{Does, always};

use as2_exchange::StoreFault;
use as2_records::Records;
use as2_text::Moment;

/// Takes that this moment has come: each document whose receipt is overdue then, or the end of whose last try, passes into
/// another detail. Answers how many did.
pub fn tick<R: Records>(records: &mut R, moment: Moment) -> Result<u64, StoreFault>
    ensures taken { Does (λ s. Some (tick moment s)) always (true
        ≡ true) Ticked (R.shows records.old) (R.shows records.new) result }
{
    records.expire(moment)
}
