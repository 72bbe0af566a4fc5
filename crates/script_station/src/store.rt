//! Databases and stores: what is made, adopted, migrated, changed by statements, and refused.
ghost use Rattle.std.specs.Prelude.{◌≡◌, false, IfSome};

use crate::played::{database, executed};
use crate::records::say_between;
use crate::stage::Stage;
use as2_kept::Kept;
use as2_store::Store;
use script_lines::Answer;
use sqlite::types::ValueRef;
use sqlite::{Connection, Error, MemStore, Row};

/// Adopts a database as a store; answers whether it is one.
fn adopt(conn: Connection<MemStore>, answer: &mut Answer) -> Option<Store<MemStore>>
    requires { conn.in_transaction ≡ false }
{
    match Store::adopt(conn) {
        Ok(store) => {
            answer.say("adopted");
            Some(store)
        }
        Err((_, fault)) => {
            answer.say_fault(&fault);
            None
        }
    }
}

/// The store that the connection has, where it has one.
fn kept(conn: Connection<MemStore>) -> Option<Store<MemStore>> {
    if !conn.is_autocommit() {
        return None;
    }
    match Store::adopt(conn) {
        Ok(store) => Some(store),
        Err(_) => None,
    }
}

/// Migrates the tables of a database to the third version; answers whether that was done.
fn migrate(conn: Connection<MemStore>, answer: &mut Answer) -> Option<Store<MemStore>>
    requires { conn.in_transaction ≡ false }
{
    match Store::migrate(conn) {
        Ok(store) => {
            answer.say("migrated");
            Some(store)
        }
        Err((conn, fault)) => {
            answer.say_fault(&fault);
            kept(conn)
        }
    }
}

/// Answers with the number of rows.
fn say_count(answer: &mut Answer, rows: Result<Vec<Row>, Error>) {
    match rows {
        Ok(rows) => answer.say_number(rows.len() as u64),
        Err(_) => answer.lack("no query"),
    }
}

/// Makes a store on a database; answers whether that was done, and else how many tables the database has, and how many rows the query
/// then shows.
fn make(conn: Connection<MemStore>, query: &str, answer: &mut Answer) -> Option<Store<MemStore>>
    requires { conn.in_transaction ≡ false }
{
    match Store::create(conn, 5) {
        Ok(store) => {
            answer.say("made");
            Some(store)
        }
        Err((mut conn, fault)) => {
            answer.say_fault(&fault);
            answer.say(", tables ");
            answer.say_number(conn.schema().tables.len() as u64);
            answer.say(", rows ");
            say_count(answer, conn.query_all(query, &[]));
            kept(conn)
        }
    }
}

/// Answers with the values of a row, with blanks between them.
fn say_row(answer: &mut Answer, row: &Row) {
    for at in 0..row.column_count() {
        say_between(answer, at, " ");
        match row.get_ref(at) {
            Ok(ValueRef::Int(number)) => answer.say_made(number.to_string(answer.alloc())),
            Ok(ValueRef::Text(bytes) | ValueRef::Blob(bytes)) => answer.say_bytes(bytes),
            _ => answer.say("null"),
        }
    }
}

/// Answers with rows, with commas between them.
fn say_rows(answer: &mut Answer, rows: Result<Vec<Row>, Error>) {
    match rows {
        Ok(rows) => {
            for (at, row) in rows.iter().enumerate() {
                say_between(answer, at, ", ");
                say_row(answer, row);
            }
        }
        Err(_) => answer.lack("no query"),
    }
}

/// The connection that a verb is about, after these statements: a new one, or that of the list's store.
fn connection(
    stage: &mut Stage,
    verb: &str,
    statements: &str,
    answer: &mut Answer,
) -> Option<Connection<MemStore>>
    ensures { IfSome result (λ conn. conn.in_transaction ≡ false) }
{
    if matches!(verb, "database" | "make" | "migrate") {
        return database(statements, answer);
    }
    let records = stage.played.take_records(&stage.settings, answer)?;
    executed(records.into_connection(), statements, answer)
}

/// The store that a verb leaves in a connection.
fn left(
    mut conn: Connection<MemStore>,
    verb: &str,
    query: &str,
    answer: &mut Answer,
) -> Option<Store<MemStore>>
    requires { conn.in_transaction ≡ false }
{
    match verb {
        "database" | "execute" => adopt(conn, answer),
        "make" | "make-again" => make(conn, query, answer),
        "migrate" | "migrate-again" => migrate(conn, answer),
        _ => {
            say_rows(answer, conn.query_all(query, &[]));
            kept(conn)
        }
    }
}

/// What stands before ` | ` and behind it: statements and a query, or a query alone.
fn cut<'a>(verb: &str, text: &'a str) -> (&'a str, &'a str) {
    let (statements, query) = text.split_once(" | ").unwrap_or((text, ""));
    if verb == "query" {
        ("", statements)
    } else {
        (statements, query)
    }
}

/// Has the list go on over the store that a verb leaves, if it leaves one.
fn go_on(stage: &mut Stage, verb: &str, text: &str, answer: &mut Answer) {
    let (statements, query) = cut(verb, text);
    let Some(conn) = connection(stage, verb, statements, answer) else {
        return;
    };
    if let Some(store) = left(conn, verb, query, answer) {
        stage.played.put(Kept::new(store));
    }
}

/// Answers to the verbs of databases; whether it is one.
///
/// `database STATEMENTS` adopts a new database after these, and `execute STATEMENTS` the list's store. `make STATEMENTS | QUERY` makes a
/// store on a new database after these, and `make-again STATEMENTS | QUERY` on the list's store. `migrate STATEMENTS` has the tables of a
/// new database after these become those of the third version, and `migrate-again STATEMENTS` those of the list's store. `query QUERY`
/// shows rows.
pub fn answer(stage: &mut Stage, verb: &str, rest: &str, answer: &mut Answer) -> bool {
    if !matches!(
        verb,
        "database" | "execute" | "make" | "make-again" | "migrate" | "migrate-again" | "query"
    ) {
        return false;
    }
    let text = answer.bytes_of(rest);
    go_on(stage, verb, answer.text_of(text.as_slice()), answer);
    true
}
