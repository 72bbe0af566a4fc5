//! A MIC that is made piece by piece.

ghost use Rattle.std.specs.Prelude.{◌≡◌, ℕ, List, [], ◌++◌};
ghost use Rattle.as2_mic.specs.declared.alg.Alg.{Alg as Digest};
ghost use Rattle.as2_mic.specs.Mic.{mic};
ghost use Rattle.as2_mic.specs.Fed.{IsFed, HasDigested};

use crate::mic_text::spelled;
use crate::{Alg, MicText};
use md5::{Digest as _, Md5};
use sha1::Sha1;
use sha2::{Digest as _, Sha256};

/// The hasher of each digest.
#[derive(Drop)]
enum Hasher {
    Md5(Md5),
    Sha1(Sha1),
    Sha256(Sha256),
}

/// Makes the MIC of a content that comes in any pieces.
#[derive(Drop)]
pub struct Digester {
    hasher: Hasher,
}

impl Digester {
    /// A digester that was fed nothing.
    pub fn new(alg: Alg) -> Digester
        ensures { HasDigested result alg [] }
    {
        let hasher = match alg {
            Alg::Md5 => Hasher::Md5(Md5::new()),
            Alg::Sha1 => Hasher::Sha1(Sha1::new()),
            Alg::Sha256 => Hasher::Sha256(Sha256::new()),
        };
        Digester { hasher }
    }

    /// Feeds the next piece of the content.
    pub fn update(&mut self, piece: &[u8])
        ensures { (alg : Digest) (fed : List ℕ) → HasDigested self.old alg fed
            → HasDigested self.new alg (fed ++ piece.now) }
    {
        match &mut self.hasher {
            Hasher::Md5(hasher) => hasher.update(piece),
            Hasher::Sha1(hasher) => hasher.update(piece),
            Hasher::Sha256(hasher) => hasher.update(piece),
        }
    }

    /// The MIC of all that was fed.
    pub fn finish(self) -> MicText
        ensures { (alg : Digest) (fed : List ℕ) → HasDigested self alg fed → result ≡ mic alg fed }
    {
        match self.hasher {
            Hasher::Md5(hasher) => spelled(&hasher.finalize()),
            Hasher::Sha1(hasher) => spelled(&hasher.finalize()),
            Hasher::Sha256(hasher) => spelled(&hasher.finalize()),
        }
    }
}

/// The MIC of a content (RFC 4130, section 7.3.1).
pub fn mic_of(alg: Alg, content: &[u8]) -> MicText
    ensures { result ≡ mic alg content.now }
{
    let mut digester = Digester::new(alg);
    digester.update(content);
    digester.finish()
}
