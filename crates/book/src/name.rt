//! The name of an event.
ghost use Rattle.std.specs.Prelude.{◌≡◌, true, false, codes, MatchResult};
ghost use Rattle.book.specs.Names.{is_letter, letters, is_name};

use crate::limits::NAME;
use arrayvec::ArrayString;
use std::{fmt, str};

/// 1 to 16 bytes out of A-Z, a-z, 0-9, `_` and `-`, held in place.
#[derive(Clone, Copy, Debug, PartialEq, Eq)]
pub struct Name {
    text: ArrayString<NAME>,
    ghost formed: { is_name text.bytes ≡ true },
}

/// Bytes that make no name.
#[derive(Clone, Copy, Debug, PartialEq, Eq)]
pub struct NotAName;

fn is_letter(b: u8) -> bool
    ensures { result ≡ is_letter b }
{
    b.is_ascii_alphanumeric() || matches!(b, b'_' | b'-')
}

fn are_letters(bytes: &[u8]) -> bool
    ensures { result ≡ letters bytes.now }
{
    bytes.iter().all(|b| is_letter(*b))
}

impl Name {
    ghost use Rattle.book.specs.Held.{spelling};

    /// The name of event 0.
    pub fn opening() -> Name
        ensures { spelling result ≡ codes "opening" }
    {
        let mut text = ArrayString::new();
        text.push_str("opening");
        Name { text }
    }

    /// The name as text.
    pub fn as_str(&self) -> &str
        ensures { result.now ≡ spelling self.now }
    {
        self.text.as_str()
    }

    pub fn as_bytes(&self) -> &[u8]
        ensures { result.now ≡ spelling self.now }
    {
        self.as_str().as_bytes()
    }
}

impl TryFrom<&[u8]> for Name {
    ghost use Rattle.book.specs.Held.{spelling};

    type Error = NotAName;

    ghost try_from_gives = { λ bytes r. MatchResult r (λ n. (is_name bytes.now ≡ true) × (spelling n ≡ bytes.now)) (λ _. is_name bytes.now ≡ false) };

    fn try_from(bytes: &[u8]) -> Result<Name, NotAName> {
        if bytes.is_empty() || bytes.len() > NAME || !are_letters(bytes) {
            return Err(NotAName);
        }
        // Letters are ASCII, and so are text.
        let Ok(letters) = str::from_utf8(bytes) else {
            unreachable!()
        };
        let mut text = ArrayString::new();
        text.push_str(letters);
        Ok(Name { text })
    }
}

impl fmt::Display for Name {
    ghost use Rattle.std.specs.Prelude.{Some};
    ghost use Rattle.book.specs.Held.{spelling};

    ghost output = { λ n. Some (spelling n) };

    fn fmt<W: fmt::Write>(&self, f: &mut fmt::Formatter<W>) -> fmt::Result {
        f.pad(self.as_str())
    }
}
