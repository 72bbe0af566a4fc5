//! What the first bytes of a file tell.
ghost use Rattle.std.specs.Prelude.{◌≡◌};
ghost use Rattle.as2_files.specs.Fronts.{has_byte, has_mark, has_text, lists_no_meta, may_be_store};

use as2_exchange::StoreFault;

/// What a database begins with (SQLite's file format, section 1.3).
const MARK: &[u8] = b"SQLite format 3\0";

/// The most bytes that are read of a file that may be a store: a first page of the length that stores have.
pub(crate) const PAGE: usize = 4096;

/// Where a database has the length of its pages, two bytes, the higher first (the same, section 1.3.2).
const PAGE_AT: usize = 16;

const HIGH: u8 = 0x10;

const LOW: u8 = 0x00;

/// Where a first page has its kind, and the kind of one that lists all tables by itself (the same, section 1.6).
const KIND_AT: usize = 100;

const LEAF: u8 = 13;

/// How a store's first page lists its first table.
const META: &[u8] = b"CREATE TABLE meta";

/// Whether a file that begins with these bytes is a database.
pub(crate) fn has_mark(front: &[u8]) -> bool
    ensures { result ≡ has_mark front.now }
{
    front.starts_with(MARK)
}

/// Whether the bytes have that one there.
fn has_byte(front: &[u8], at: usize, byte: u8) -> bool
    ensures { result ≡ has_byte front.now at byte }
{
    match front.get(at) {
        Some(found) => *found == byte,
        None => false,
    }
}

/// Whether the text stands somewhere in the bytes.
fn has_text(bytes: &[u8], text: &[u8]) -> bool
    ensures { result ≡ has_text text.now bytes.now }
{
    let mut rest = bytes;
    while let Some((_, behind)) = rest.split_first() {
        if rest.starts_with(text) {
            return true;
        }
        rest = behind;
    }
    false
}

/// Whether a database without a log, which begins with these bytes, is another program's: they are its first page, which lists all
/// tables, and none is a store's first.
pub(crate) fn lists_no_meta(front: &[u8]) -> bool
    ensures { result ≡ lists_no_meta front.now }
{
    has_byte(front, PAGE_AT, HIGH)
        && has_byte(front, PAGE_AT + 1, LOW)
        && has_byte(front, KIND_AT, LEAF)
        && !has_text(front, META)
}

/// What stands under a path.
#[derive(Clone, Copy, Debug, PartialEq, Eq)]
pub(crate) enum Seen {
    /// Nothing.
    Nothing,
    /// A database, which may be a store.
    Database,
    /// Any other file, an empty one too.
    Other,
}

/// Whether what was seen may be a store. NotAStore where it is no database.
pub(crate) fn may_be_store(seen: Seen) -> Result<bool, StoreFault>
    ensures { result ≡ may_be_store seen }
{
    match seen {
        Seen::Database => Ok(true),
        Seen::Other => Err(StoreFault::NotAStore),
        Seen::Nothing => Ok(false),
    }
}
