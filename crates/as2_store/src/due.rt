//! What is due, by the rows of what waits.

ghost use Rattle.std.specs.Prelude.{◌≡◌, ◌≤◌, [], true, false, Option, ℕ, IfOk, IfErr};
ghost use Rattle.sqlite.specs.Held.{state};
ghost use Rattle.as2_exchange.specs.Due.{least};
ghost use Rattle.as2_exchange.specs.State.{end_of_numbers};
ghost use Rattle.as2_records.specs.Due.{numbers_behind};
ghost use Rattle.as2_rows.specs.Waiting.{kind_code};
ghost use Rattle.as2_store.specs.Rounds.{ReadsBy};
ghost use Rattle.as2_exchange.specs.declared.place.Table.TheVariants as table;
ghost use Rattle.as2_records.specs.Standing.{may_come};
ghost use Rattle.as2_store.specs.Due.{due_numbers, least_behind, number_rows};
ghost use Rattle.as2_store.specs.Stands.{comes_of, is_row_of};

use crate::fault::{fault_of, unread_column};
use crate::numbers::whole;
use crate::reading::query_all;
use as2_exchange::{END_OF_NUMBERS, RowPlace, StoreFault, Table};
use as2_rows::Wait;
use as2_text::Moment;
use sqlite::{Alter, Connection, Error, Row, params};

/// Rows of which there is one where something is due that waits so.
fn any_due_rows<S: Alter>(
    conn: &mut Connection<S>,
    wait: Wait,
    moment: Moment,
) -> Result<Vec<Row>, Error>
    ensures rows { ReadsBy (λ s rows. rows.items ≡ []
        → due_numbers (kind_code wait) moment s ≡ []) (state S.Store conn.old) (state S.Store conn.new) result }
{
    let kind = whole(wait.code());
    let moment = whole(moment.seconds());
    query_all(
        conn,
        "SELECT number FROM waiting WHERE kind = ?1 AND due <= ?2 LIMIT 1",
        params![kind, moment],
    )
}

/// The least number that is behind that one, where one is given; no entry has the end of numbers.
fn least_behind(behind: Option<u64>) -> u64
    ensures least { result ≡ least_behind behind }
    ensures most { result ≤ end_of_numbers }
{
    match behind {
        Some(last) if last < END_OF_NUMBERS => last + 1,
        Some(_) => END_OF_NUMBERS,
        None => 0,
    }
}

/// The row of the least number of what is due and waits so, behind that number where one is given.
fn least_due_rows<S: Alter>(
    conn: &mut Connection<S>,
    wait: Wait,
    moment: Moment,
    behind: Option<u64>,
) -> Result<Vec<Row>, Error>
    ensures rows { ReadsBy (λ s rows. rows.items
        ≡ number_rows (least (numbers_behind behind (due_numbers (kind_code wait) moment s)))) (state S.Store conn.old)
        (state S.Store conn.new) result }
{
    let first = whole(wait.code() * END_OF_NUMBERS + least_behind(behind));
    let end = whole((wait.code() + 1) * END_OF_NUMBERS);
    let moment = whole(moment.seconds());
    query_all(
        conn,
        "SELECT number FROM waiting WHERE place >= ?1 AND place < ?2 AND due <= ?3 ORDER BY place LIMIT 1",
        params![first, end, moment],
    )
}

/// The number that the first of the rows shows.
fn number_in(rows: &[Row]) -> Result<Option<u64>, Error>
    ensures { IfOk result (λ found. (number : Option ℕ) → rows.now ≡ number_rows number → found ≡ number) }
{
    match rows.first() {
        Some(row) => Ok(Some(row.get(0)?)),
        None => Ok(None),
    }
}

/// The least number of what is due at this moment and waits so, behind that number where one is given; None where there is none. Where
/// nothing is due that is found by the index; the rows are read in order of their places only where something is.
pub fn least_due<S: Alter>(
    conn: &mut Connection<S>,
    wait: Wait,
    moment: Moment,
    behind: Option<u64>,
) -> Result<Option<u64>, StoreFault>
    ensures due { ReadsBy (λ s number. number
        ≡ least (numbers_behind behind (due_numbers (kind_code wait) moment s))) (state S.Store conn.old)
        (state S.Store conn.new) result }
    ensures fault { IfErr result (λ f. may_come f ≡ true) }
    ensures row { IfErr result (λ f. comes_of (is_row_of table.Waiting) f ≡ true) }
{
    let any = any_due_rows(conn, wait, moment).map_err(fault_of)?;
    if any.is_empty() {
        return Ok(None);
    }
    let rows = least_due_rows(conn, wait, moment, behind).map_err(fault_of)?;
    let place = RowPlace {
        table: Table::Waiting,
        number: 0,
    };
    number_in(&rows).map_err(|error| unread_column(error, place))
}
