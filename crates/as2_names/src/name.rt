//! AS2 names (RFC 4130, section 6.2).

ghost use Rattle.std.specs.Prelude.{◌≡◌, ◌==◌, ◌≢◌, ◌<◌, ◌≤◌, ◌+◌, ℕ, List, [], ◌∷◌, ◌++◌, take, length, Bool, false, true, IfOk, IfErr, OnOk, Ok, Err, IsTrue, ⊤};
ghost use Rattle.std.specs.List.{list_all};
ghost use Rattle.arrayvec.specs.ArrayString.{array_string_len};
ghost use Rattle.as2_names.specs.Ascii.{is_printable, quote};
ghost use Rattle.as2_names.specs.Names.{IsName, Spells, name_spelling, quoted_name, name_reading, limited_units, limited_name, atomic, plain, units, is_text_byte, is_escaped_mark};
ghost use Rattle.as2_names.specs.Scan.{Scans};

use crate::ascii::{all_printable, is_printable};
use arrayvec::{ArrayString, ArrayVec};
use std::alloc::AllocError;
use std::marker::Model;

/// Why a text is no AS2 name: the first fault from the left.
#[derive(Clone, Copy, Debug, PartialEq, Eq)]
pub enum NameFault {
    /// The name has no byte.
    Empty,
    /// The name has more than 128 bytes.
    TooLong,
    /// A byte stands where it may not.
    BadByte,
    /// The quotes, or the backslashes between them, do not pair.
    BadQuoting,
}

/// An AS2 name: 1 to 128 printable bytes.
#[derive(Drop)]
pub struct AsName {
    kept: ArrayVec<u8, 128>,
}

impl Model for AsName {
    ghost Value = { List ℕ };

    ghost view = { λ n. n.kept.items };

    ghost invariant = { λ n. IsName n.kept.items };
}

fn is_special(b: u8) -> bool
    ensures { result ≡ is_escaped_mark b }
{
    b == b'"' || b == b'\\'
}

fn is_text_byte(b: u8) -> bool
    ensures { result ≡ is_text_byte b }
{
    b > b' ' && b <= b'~' && !is_special(b)
}

fn all_text(bytes: &[u8]) -> bool
    ensures { result ≡ list_all is_text_byte bytes.now }
{
    bytes.iter().all(|b| is_text_byte(*b))
}

/// The units between the quotes, as far as they are read.
#[derive(Drop)]
struct Scan {
    kept: ArrayVec<u8, 128>,
    count: usize,
    escaping: bool,
}

impl Scan {
    fn new() -> Scan
        ensures scans { (text : List ℕ) → Scans text result.kept.items result.count result.escaping text }
        ensures count { result.count ≡ 0 }
    {
        Scan {
            kept: ArrayVec::new(),
            count: 0,
            escaping: false,
        }
    }

    /// Counts a unit, and keeps it where there is room.
    fn add(&mut self, unit: u8)
        requires { self.old.count < usize.MAX }
        ensures kept { self.new.kept.items ≡ take 128 (self.old.kept.items ++ unit ∷ []) }
        ensures count { self.new.count ≡ self.old.count + 1 }
        ensures escaping { self.new.escaping ≡ false }
    {
        if !self.kept.is_full() {
            self.kept.push(unit);
        }
        self.count += 1;
        self.escaping = false;
    }

    /// Takes the next byte, which isn't the closing quote.
    fn take(&mut self, b: u8) -> Result<(), NameFault>
        requires room { self.old.count < usize.MAX }
        requires inside { self.old.escaping ≡ false → b ≢ quote }
        ensures goes_on { OnOk result ((text rest : List ℕ)
            → Scans text self.old.kept.items self.old.count self.old.escaping (b ∷ rest)
            → Scans text self.new.kept.items self.new.count self.new.escaping rest) }
        ensures counted { OnOk result (self.new.count ≤ self.old.count + 1) }
        ensures fault { IfErr result (λ f. (rest : List ℕ) → units self.old.escaping (b ∷ rest) ≡ Err f) }
    {
        if self.escaping {
            if !is_special(b) {
                return Err(NameFault::BadQuoting);
            }
            self.add(b);
        } else if b == b'\\' {
            self.escaping = true;
        } else if is_printable(b) {
            self.add(b);
        } else {
            return Err(NameFault::BadByte);
        }
        Ok(())
    }

    /// The name, where its units fit.
    fn finish(self) -> Result<AsName, NameFault>
        requires { (text : List ℕ) × Scans text self.kept.items self.count false (quote ∷ []) }
        ensures { (text : List ℕ) → Scans text self.kept.items self.count false (quote ∷ [])
            → result ≡ limited_name (units false text) }
    {
        if self.count == 0 {
            return Err(NameFault::Empty);
        }
        if self.count > 128 {
            return Err(NameFault::TooLong);
        }
        Ok(AsName { kept: self.kept })
    }
}

/// The name that printable bytes are, where they fit.
fn fit(bytes: &[u8]) -> Result<AsName, NameFault>
    requires { IsTrue (list_all is_printable bytes.now) }
    ensures { result ≡ limited_units bytes.now }
{
    if bytes.is_empty() {
        return Err(NameFault::Empty);
    }
    let mut kept = ArrayVec::new();
    match kept.try_extend_from_slice(bytes) {
        Ok(()) => Ok(AsName { kept }),
        Err(_) => Err(NameFault::TooLong),
    }
}

/// The name between quotes, from behind the first.
fn quoted_name(text: &[u8]) -> Result<AsName, NameFault>
    ensures { result ≡ limited_name (units false text.now) }
{
    let mut scan = Scan::new();
    for (i, b) in text.iter().enumerate() {
        if *b == b'"' && !scan.escaping {
            return if i + 1 == text.len() {
                scan.finish()
            } else {
                Err(NameFault::BadQuoting)
            };
        }
        scan.take(*b)?;
    }
    Err(NameFault::BadQuoting)
}

fn atomic_name(text: &[u8]) -> Result<AsName, NameFault>
    ensures { result ≡ atomic text.now }
{
    if !all_text(text) {
        return Err(NameFault::BadByte);
    }
    fit(text)
}

fn read(field: &[u8]) -> Result<AsName, NameFault>
    ensures { result ≡ name_reading field.now }
{
    match field {
        [] => Err(NameFault::Empty),
        [b'"', text @ ..] => quoted_name(text),
        _ => atomic_name(field),
    }
}

/// Appends an ASCII byte.
fn put(text: &mut ArrayString<258>, b: u8)
    requires room { array_string_len text.old < 258 }
    requires ascii { b < 128 }
    ensures { text.new.bytes ≡ text.old.bytes ++ b ∷ [] }
{
    text.push(char::from(b));
}

fn atom(name: &[u8]) -> ArrayString<258>
    requires { IsName name.now }
    ensures { result.bytes ≡ name.now }
{
    let mut text = ArrayString::new();
    for b in name {
        put(&mut text, *b);
    }
    text
}

fn quote(name: &[u8]) -> ArrayString<258>
    requires { IsName name.now }
    ensures { result.bytes ≡ quoted_name name.now }
{
    let mut text = ArrayString::new();
    put(&mut text, b'"');
    for b in name {
        if is_special(*b) {
            put(&mut text, b'\\');
        }
        put(&mut text, *b);
    }
    put(&mut text, b'"');
    text
}

fn spell(name: &[u8]) -> ArrayString<258>
    requires { IsName name.now }
    ensures { result.bytes ≡ name_spelling name.now }
{
    if all_text(name) {
        atom(name)
    } else {
        quote(name)
    }
}

impl AsName {
    /// The name that a field spells.
    pub fn parse(field: &[u8]) -> Result<AsName, NameFault>
        // What is read is spelled so.
        ensures found { IfOk result (Spells field.now) }
        // What spells a name is read as that name.
        ensures only { (name : List ℕ) → Spells field.now name → result ≡ Ok name }
        // Which fault it is.
        ensures exact { result ≡ name_reading field.now }
    {
        read(field)
    }

    /// The name that the bytes are, without a spelling.
    pub fn plain(bytes: &[u8]) -> Result<AsName, NameFault>
        ensures { result ≡ plain bytes.now }
    {
        if bytes.is_empty() {
            return Err(NameFault::Empty);
        }
        if !all_printable(bytes) {
            return Err(NameFault::BadByte);
        }
        fit(bytes)
    }

    /// The bytes of the name.
    pub fn bytes(&self) -> &[u8]
        ensures bytes { result.now ≡ self.now }
        ensures name { IsName self.now }
    {
        self.kept.as_slice()
    }

    /// The spelling that is written: the name itself where that spells it, or else the name in quotes.
    pub fn spelling(&self) -> ArrayString<258>
        ensures text { result.bytes ≡ name_spelling self.now }
        ensures spells { Spells result.bytes self.now }
    {
        spell(self.bytes())
    }
}

impl Clone for AsName {
    ghost is_clone = { λ m n. n ≡ m };

    // It takes no memory.
    ghost is_infallible = { λ _. ⊤ };

    fn clone(&self) -> Result<AsName, AllocError> {
        let mut kept = ArrayVec::new();
        kept.try_extend_from_slice(self.bytes()).unwrap();
        Ok(AsName { kept })
    }
}
