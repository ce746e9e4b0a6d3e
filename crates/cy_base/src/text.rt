ghost use Rattle.std.specs.Prelude.{◌≡◌, ◌<◌, ◌^◌, ◌↔◌, ℕ, length, Err, IsTrue, IfOk, OnOk};
ghost use Rattle.std.specs.String.{string_bytes};
ghost use Rattle.std.specs.Str.{bytes_eq};
ghost use Rattle.std.specs.Cmp.{partial_equiv_from_equiv};
ghost use Rattle.std.proofs.lemmas.Cmp.{nat_list_eq_equiv};
ghost use Rattle.std.proofs.Common.{rules};
ghost use Rattle.std.specs.Cmp.Rules.{hashing};
ghost use Rattle.std.specs.Hash as fed;
ghost use Rattle.cy_base.specs.Utf8.{IsUtf8, BreaksAt};

use crate::error::{OutOfMemory, TextStop};
use std::alloc::Global;
use std::hash::{Hash, Hasher};
use std::marker::Model;
use std::str;

/// A text in UTF-8. Contracts see it as the list of its bytes. The project's own.
#[derive(Debug, Drop)]
pub struct Text {
    text: String,
}

impl Model for Text {
    ghost use Rattle.std.specs.Prelude.{List, ℕ};
    ghost use Rattle.std.specs.Coded.{coded_list, coded_ℕ};
    ghost use Rattle.std.specs.String.{string_bytes};
    ghost use Rattle.std.specs.Str.{IsUtf8};

    ghost Value = { List ℕ };

    ghost coded = { coded_list coded_ℕ };

    ghost view = { λ it. string_bytes it.text };

    ghost invariant = { λ it. ∥ IsUtf8 (string_bytes it.text) ∥₁ };
}

impl Text {
    /// A text of these bytes, or the length of their longest front that is UTF-8 (RFC 3629).
    pub fn from_bytes(alloc: Global, bytes: &[u8]) -> Result<Text, TextStop>
        requires { length bytes.now < 2 ^ 32 }
        ensures ok { IfOk result (λ text. text ≡ bytes.now) }
        ensures utf8 { OnOk result (IsUtf8 bytes.now) }
        ensures not_utf8 { (n : ℕ) → (result ≡ Err (TextStop.NotUtf8 n)) ↔ BreaksAt bytes.now n }
        ensures memory { result ≡ Err TextStop.Memory → IsUtf8 bytes.now }
    {
        match str::from_utf8(bytes) {
            Ok(text) => Ok(Text::from_str(alloc, text)?),
            Err(error) => Err(TextStop::NotUtf8 {
                offset: error.valid_up_to() as u32,
            }),
        }
    }

    /// A text of these characters.
    pub fn from_str(alloc: Global, text: &str) -> Result<Text, OutOfMemory>
        ensures { IfOk result (λ made. made ≡ text.now) }
    {
        Ok(Text::from_string(String::from_str(alloc, text)?))
    }

    /// The string as a text, which takes no memory.
    pub fn from_string(text: String) -> Text
        ensures { result ≡ string_bytes text }
    {
        Text { text }
    }

    /// A text of bytes that are known to be UTF-8 (RFC 3629).
    pub fn from_utf8(alloc: Global, bytes: &[u8]) -> Result<Text, OutOfMemory>
        requires { IsUtf8 bytes.now }
        ensures { IfOk result (λ made. made ≡ bytes.now) }
    {
        // The caller has proved what a second test would tell.
        Text::from_str(alloc, unsafe { str::from_utf8_unchecked(bytes) })
    }

    /// Another text of the same bytes.
    pub fn copied(&self, alloc: Global) -> Result<Text, OutOfMemory>
        ensures { IfOk result (λ made. made ≡ self.now) }
    {
        Text::from_str(alloc, self.as_str())
    }

    /// The bytes of the text.
    pub fn bytes(&self) -> &[u8]
        ensures same { result.now ≡ self.now }
        ensures utf8 { IsUtf8 self.now }
    {
        self.text.as_str().as_bytes()
    }

    /// The characters of the text.
    pub fn as_str(&self) -> &str
        ensures { result.now ≡ self.now }
    {
        self.text.as_str()
    }
}

impl PartialEq for Text {
    ghost eq = { bytes_eq };

    ghost laws = { partial_equiv_from_equiv nat_list_eq_equiv };

    fn eq(&self, other: &Text) -> bool
        ensures value { result ≡ bytes_eq self.now other.now }
        ensures same { IsTrue result ↔ (self.now ≡ other.now) }
    {
        self.bytes() == other.bytes()
    }
}

impl Eq for Text {
    ghost laws = { nat_list_eq_equiv };
}

impl Hash for Text {
    ghost hash_input = { λ text. fed.str text };

    ghost respects_eq = { Prim.search (hashing, rules) };

    fn hash<H: Hasher>(&self, state: &mut H) {
        self.as_str().hash(state);
    }
}
