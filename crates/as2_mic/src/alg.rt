//! The digests that MICs are made with (RFC 4130, section 7.3.1).

ghost use Rattle.std.specs.Prelude.{◌≡◌};
ghost use Rattle.as2_mic.specs.Algs.{AllDigests, alg_named, alg_name, first_known_of, is_late};

use as2_names::{cut_at, without_blanks};

/// A digest that MICs are made with (RFC 4130, section 7.3.1).
///
/// What depends on the digest, as its size, its name and its text, is asked of this crate. The words
/// that agreements have for it stand in `as2_agreement`.
#[derive(Clone, Copy, Debug, PartialEq, Eq)]
pub enum Alg {
    /// MD5 (RFC 1321).
    Md5,
    /// SHA-1 (FIPS 180-4).
    Sha1,
    /// SHA-256 (FIPS 180-4).
    Sha256,
}

impl Alg {
    /// The digest of that name, without regard to case.
    pub fn named(name: &[u8]) -> Option<Alg>
        ensures { result ≡ alg_named AllDigests name.now }
    {
        if name.eq_ignore_ascii_case(b"sha1") || name.eq_ignore_ascii_case(b"sha-1") {
            Some(Alg::Sha1)
        } else if name.eq_ignore_ascii_case(b"md5") {
            Some(Alg::Md5)
        } else if name.eq_ignore_ascii_case(b"sha-256") || name.eq_ignore_ascii_case(b"sha256") {
            Some(Alg::Sha256)
        } else {
            None
        }
    }

    /// The name that is written.
    pub fn name(self) -> &'static str
        ensures { result.now ≡ alg_name self }
    {
        match self {
            Alg::Md5 => "md5",
            Alg::Sha1 => "sha1",
            Alg::Sha256 => "sha-256",
        }
    }

    /// Whether stores of an earlier version didn't know it.
    pub fn is_late(self) -> bool
        ensures { result ≡ is_late self }
    {
        matches!(self, Alg::Sha256)
    }

    /// The first known name of a list with commas between its names.
    pub fn first_of(list: &[u8]) -> Option<Alg>
        ensures { result ≡ first_known_of AllDigests list.now }
    {
        let mut rest = list;
        while let Some((name, names)) = cut_at(rest, b',') {
            if let Some(alg) = Alg::named(without_blanks(name)) {
                return Some(alg);
            }
            rest = names;
        }
        Alg::named(without_blanks(rest))
    }
}
