//! Addresses of HTTP services (RFC 3986, section 3; RFC 9110, section 4.2.1).

ghost use Rattle.std.specs.Prelude.{◌≡◌, ℕ, List, Some, IfSome, IfNone, option_map};
ghost use Rattle.std.specs.List.{list_all};
ghost use Rattle.as2_text.specs.Addresses.{IsUrl, address_in, are_host_and_port, authority_of, before_slash, from_slash, is_authority, is_http, is_port, is_target_byte, is_target, may_follow, target_in, address_target, url_of};

use as2_names::{cut_at, decimal_value, is_domain};
use std::marker::Model;

/// The most bytes that an address may have.
const URL_LIMIT: usize = 1_024;

/// The address of an HTTP service (RFC 3986, section 3; RFC 9110, section 4.2.1): `http://`, a host of 1 to 253
/// letters, digits, hyphens and dots, perhaps `:` and a port, and perhaps a target.
#[derive(Drop)]
pub struct Url<'a> {
    authority: &'a [u8],
    behind: &'a [u8],
}

impl<'a> Model for Url<'a> {
    ghost use Rattle.std.specs.Prelude.{ℕ, List};
    ghost use Rattle.as2_text.specs.Addresses.{target_in};

    ghost Value = { List ℕ × List ℕ };

    ghost view = { λ u. (u.authority.now, target_in u.behind.now) };
}

/// 1 to 65535 in digits, the first of them not zero.
fn is_port(text: &[u8]) -> bool
    ensures { result ≡ is_port text.now }
{
    match decimal_value(text) {
        Some(port) => text.first() != Some(&b'0') && port <= 65_535,
        None => false,
    }
}

/// A host, or a host, `:` and a port.
fn is_authority(text: &[u8]) -> bool
    ensures { result ≡ is_authority text.now }
{
    if is_domain(text) {
        return true;
    }
    match cut_at(text, b':') {
        Some((host, port)) => is_domain(host) && is_port(port),
        None => false,
    }
}

fn is_target_byte(b: u8) -> bool
    ensures { result ≡ is_target_byte b }
{
    b > b' ' && b <= b'~' && b != b'#'
}

fn all_target_bytes(text: &[u8]) -> bool
    ensures { result ≡ list_all is_target_byte text.now }
{
    text.iter().all(|b| is_target_byte(*b))
}

/// Nothing, or a target: `/` and further bytes.
fn may_follow(text: &[u8]) -> bool
    ensures { result ≡ may_follow text.now }
{
    match text {
        [] => true,
        [b, rest @ ..] => *b == b'/' && all_target_bytes(rest),
    }
}

/// What stands before the first slash, and what begins with it.
fn split_at_slash(text: &[u8]) -> (&[u8], &[u8])
    ensures before { result.0.now ≡ before_slash text.now }
    ensures behind { result.1.now ≡ from_slash text.now }
{
    match cut_at(text, b'/') {
        Some((before, _)) => text.split_at(before.len()),
        None => text.split_at(text.len()),
    }
}

/// The address that stands behind `http://`.
fn address_in(text: &[u8]) -> Option<Url<'_>>
    ensures { result ≡ address_in text.now }
{
    let (authority, behind) = split_at_slash(text);
    if is_authority(authority) && may_follow(behind) {
        Some(Url { authority, behind })
    } else {
        None
    }
}

/// The address that a text is.
fn url_of(text: &[u8]) -> Option<Url<'_>>
    ensures { result ≡ url_of text.now }
{
    if text.len() > URL_LIMIT {
        return None;
    }
    match text.split_at_checked(7) {
        Some((scheme, rest)) if scheme.eq_ignore_ascii_case(b"http://") => address_in(rest),
        _ => None,
    }
}

impl<'a> Url<'a> {
    /// Reads an address of at most 1,024 bytes.
    pub fn parse(text: &'a [u8]) -> Option<Url<'a>>
        // What is read is written there.
        ensures found { IfSome result (IsUrl text.now) }
        // What is written there is read.
        ensures only { (url : List ℕ × List ℕ) → IsUrl text.now url → result ≡ Some url }
        // Where nothing is read, no address is written there.
        ensures none { IfNone result ((url : List ℕ × List ℕ) → ¬ IsUrl text.now url) }
        // The same as a value.
        ensures exact { result ≡ url_of text.now }
    {
        url_of(text)
    }

    /// The host and the port as they are spelled, without a port where none is given (then it is 80).
    pub fn authority(&self) -> &'a [u8]
        ensures { result.now ≡ authority_of self.now }
    {
        self.authority
    }

    /// The target: `/` where none is given (RFC 9112, section 3.2.1).
    pub fn target(&self) -> &'a [u8]
        ensures { result.now ≡ address_target self.now }
    {
        if self.behind.is_empty() {
            b"/"
        } else {
            self.behind
        }
    }
}
