// Making and filling a base.
ghost use Rattle.std.specs.Prelude.{◌≡◌, ◌≤◌, length, is_some, IfErr, if◌then◌else◌, Ok, Err, codes, MatchResult};
ghost use Rattle.address.specs.Join.{scheme_byte, is_scheme_name, shaped, is_base};
ghost use Rattle.address.specs.Shaped.{Shaped};
ghost use Rattle.uri.specs.View.{parts as parts-of};
ghost use Rattle.address.specs.Answers.{bytes_of};
ghost use Rattle.address.specs.Refusal.{number, record_of};
ghost use Rattle.address.specs.declared.refusal.BaseRefusal.TheVariants.{NotABase};

use crate::base::{Base, is_visible};
use crate::refusal::BaseRefusal;
use arrayvec::ArrayVec;
use uri::{Components, split};

// Whether a byte may stand in a scheme.
fn is_scheme_byte(b: u8) -> bool
    ensures { result ≡ scheme_byte b }
{
    b.is_ascii_alphanumeric() || matches!(b, b'+' | b'-' | b'.')
}

fn is_scheme_name(name: &[u8]) -> bool
    ensures { result ≡ is_scheme_name name.now }
{
    match name {
        [first, others @ ..] => {
            first.is_ascii_alphabetic() && others.iter().all(|b| is_scheme_byte(*b))
        }
        [] => false,
    }
}

fn is_shaped(parts: Components<'_>) -> bool
    ensures { result ≡ shaped (parts-of parts.entry) }
{
    parts.scheme.is_some_and(|name| is_scheme_name(name))
        && parts.authority.is_some_and(|name| !name.is_empty())
        && matches!(parts.path, [b'/', ..])
}

fn is_base(bytes: &[u8]) -> bool
    ensures { result ≡ is_base bytes.now }
{
    bytes.len() <= 2000 && is_visible(bytes) && is_shaped(split(bytes))
}

impl Base {
    // The base at first.
    pub fn new() -> Self
        ensures { bytes_of result ≡ codes "http://a/" }
    {
        let mut bytes = ArrayVec::new();
        bytes.try_extend_from_slice(b"http://a/").unwrap();
        Base { bytes }
    }

    // Takes the bytes for the base, or refuses them and stays as it was.
    pub fn fill(&mut self, bytes: &[u8]) -> Result<(), BaseRefusal>
        ensures answer { result ≡ (if is_base bytes.now then Ok tt else Err NotABase) }
        ensures after { bytes_of self.new ≡ (if is_base bytes.now then bytes.now else bytes_of self.old) }
        ensures refused { IfErr result (λ e. (number e ≡ 41) × (record_of e ≡ 0) × (self.new ≡ self.old)) }
        ensures shaped { MatchResult result (λ _. Shaped bytes.now) (λ _. Shaped bytes.now → ⊥) }
    {
        if !is_base(bytes) {
            return Err(BaseRefusal::NotABase);
        }
        self.bytes.clear();
        self.bytes.try_extend_from_slice(bytes).unwrap();
        Ok(())
    }

    pub fn bytes(&self) -> &[u8]
        ensures value { result.now ≡ bytes_of self.now }
        ensures short { length result.now ≤ 2000 }
    {
        self.bytes.as_slice()
    }
}
