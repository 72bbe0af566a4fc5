//! Where a link is opened to.
ghost use Rattle.std.specs.Prelude.{◌⊎◌, IfNone, IfSome};
ghost use Rattle.as2_sockets.specs.Authorities.{SpellsNeither, SpellsNoPort, SpellsPort};

/// The port of HTTP, where an authority has none (RFC 9110, section 4.2.1).
const HTTP_PORT: u16 = 80;

/// The host and the port that an authority spells; None where what stands behind its colon is no port.
pub fn host_and_port(authority: &str) -> Option<(&str, u16)>
    ensures named { IfSome result (λ named. SpellsNoPort authority.now named.0.now named.1
        ⊎ SpellsPort authority.now named.0.now named.1) }
    ensures none { IfNone result (SpellsNeither authority.now) }
{
    let Some((host, port)) = authority.split_once(':') else {
        return Some((authority, HTTP_PORT));
    };
    match port.parse::<u16>() {
        Ok(port) => Some((host, port)),
        Err(_) => None,
    }
}
