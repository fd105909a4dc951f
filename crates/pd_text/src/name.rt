//! The names of scripts and settings as given, valid or not; is_valid asks whether one may name a script.
ghost use Rattle.std.specs.Prelude.{◌≡◌, ◌↔◌, IfOk, IsTrue};
ghost use Rattle.std.specs.List.{list_all};
ghost use Rattle.pd_text.specs.Name.{is_name_octet, is_valid_name};

use std::alloc::AllocError;
use std::hash::{Hash, Hasher};
use std::marker::Model;
use std::sync::Arc;

/// The name of a script or of a setting, or what was given as one: any octets. It is held once, however many owners keep it.
#[derive(Drop)]
pub struct Name {
    /// The octets of the name, as given, which each owner shares.
    octets: Arc<Vec<u8>>,
}

impl Model for Name {
    ghost use Rattle.std.specs.Prelude.{List, ℕ};

    ghost Value = { List ℕ };

    ghost view = { λ n. n.octets.value.items };
}

impl PartialEq for Name {
    ghost use Rattle.std.specs.Str.{bytes_eq};
    ghost use Rattle.std.proofs.Common.{rules};
    ghost use Rattle.std.specs.Cmp.Rules.{comparing};

    ghost eq = { bytes_eq };

    ghost laws = { Prim.search (comparing, rules) };

    fn eq(&self, other: &Name) -> bool {
        self.octets.as_slice() == other.octets.as_slice()
    }
}

impl Eq for Name {
    ghost use Rattle.std.proofs.Common.{rules};
    ghost use Rattle.std.specs.Cmp.Rules.{comparing};

    ghost laws = { Prim.search (comparing, rules) };
}

impl Hash for Name {
    ghost use Rattle.std.specs.Hash as fed;
    ghost use Rattle.std.proofs.Common.{rules};
    ghost use Rattle.std.specs.Cmp.Rules.{hashing};

    ghost hash_input = { fed.slice fed.u8 };

    ghost respects_eq = { Prim.search (hashing, rules) };

    fn hash<H: Hasher>(&self, state: &mut H) {
        self.octets.as_slice().hash(state);
    }
}

impl Name {
    /// The name of these octets, valid or not, with one owner.
    ///
    /// # Errors
    /// `AllocError` where memory for it is refused.
    pub fn new(octets: Vec<u8>) -> Result<Name, AllocError>
        ensures { IfOk result (λ name. name ≡ octets.items) }
    {
        Ok(Name {
            octets: Arc::new(*octets.allocator(), octets)?,
        })
    }

    /// Its octets.
    pub fn as_slice(&self) -> &[u8]
        ensures { result.now ≡ self.now }
    {
        self.octets.as_slice()
    }

    /// Whether it has 1 to 64 letters, digits, `_`, `-` and `.`, as a script's name must.
    pub fn is_valid(&self) -> bool
        ensures { result ≡ is_valid_name self.now }
    {
        let len = self.octets.len();
        1 <= len && len <= 64 && are_name_octets(self.octets.as_slice())
    }

    /// Whether both have the same octets.
    pub fn is_same(&self, other: &Name) -> bool
        ensures { IsTrue result ↔ (self.now ≡ other.now) }
    {
        self.octets.as_slice() == other.octets.as_slice()
    }

    /// Another owner of the same name.
    ///
    /// # Errors
    /// `AllocError` only where the count of owners is full.
    pub fn share(&self) -> Result<Name, AllocError>
        ensures { IfOk result (λ name. name ≡ self.now) }
    {
        Ok(Name {
            octets: self.octets.clone()?,
        })
    }
}

fn is_name_octet_byte(octet: u8) -> bool
    ensures { result ≡ is_name_octet octet }
{
    matches!(octet, b'a'..=b'z' | b'A'..=b'Z' | b'0'..=b'9' | b'_' | b'-' | b'.')
}

fn are_name_octets(octets: &[u8]) -> bool
    ensures { result ≡ list_all is_name_octet octets.now }
{
    octets.iter().all(|octet| is_name_octet_byte(*octet))
}
