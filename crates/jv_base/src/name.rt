// A text, seen as the list of its UTF-8 bytes.
ghost use Rattle.std.specs.Prelude.{◌≡◌, ◌<◌, [], ◌++◌, length, slice_index, encode_utf8, string_bytes, IfOk, IfErr, OnOk, OnErr, IsTrue, ◌↔◌};
ghost use Rattle.std.specs.Ordering.{nat_cmp};
ghost use Rattle.std.specs.Cmp.Lexicographic.{slice_cmp, pointwise};
ghost use Rattle.std.specs.Prelude.{nat_eq};
ghost use Rattle.std.specs.Cmp.Rules.{comparing, hashing};
ghost use Rattle.std.specs.Hash as fed;
ghost use Rattle.std.proofs.Common.{rules};

use crate::{Mem, TryCopy};
use std::alloc::Global;
use std::cmp::Ordering;
use std::hash::{Hash, Hasher};
use std::marker::Model;

/// A text that contracts see as the list of its UTF-8 bytes: the name of a class, a field, a method or a file, or a
/// descriptor.
#[derive(Debug, Drop)]
pub struct Name {
    text: String,
}

impl Model for Name {
    ghost use Rattle.std.specs.Prelude.{List, ℕ, string_bytes};

    ghost Value = { List ℕ };

    ghost view = { λ n. string_bytes n.text };
}

impl Name {
    /// A text with nothing in it. It takes no memory.
    pub fn new(alloc: Global) -> Name
        ensures { result ≡ [] }
    {
        Name {
            text: String::new(alloc),
        }
    }

    pub fn from_text(alloc: Global, text: &str) -> Mem<Name>
        ensures { IfOk result (λ name. name ≡ text.now) }
    {
        Ok(Name {
            text: String::from_str(alloc, text)?,
        })
    }

    pub fn from_string(text: String) -> Name
        ensures { result ≡ string_bytes text }
    {
        Name { text }
    }

    pub fn as_str(&self) -> &str
        ensures { result.now ≡ self.now }
    {
        self.text.as_str()
    }

    /// The number of bytes.
    pub fn length(&self) -> usize
        ensures { result ≡ length self.now }
    {
        self.text.len()
    }

    /// The byte at an index.
    pub fn at(&self, index: usize) -> u8
        requires { index < length self.now }
        ensures { result ≡ slice_index self.now index }
    {
        self.text.as_bytes()[index]
    }

    /// Puts a character at the end. For want of memory the text stays, and the character is handed back.
    pub fn push(&mut self, character: char) -> Result<(), char>
        ensures ok { OnOk result (self.new ≡ self.old ++ encode_utf8 character) }
        ensures unchanged { OnErr result (self.new ≡ self.old) }
        ensures back { IfErr result (λ back. back ≡ character) }
    {
        match self.text.push(character) {
            Ok(()) => Ok(()),
            Err(_) => Err(character),
        }
    }

    /// Puts a text at the end. For want of memory the name stays.
    pub fn push_text(&mut self, text: &str) -> Mem<()>
        ensures ok { OnOk result (self.new ≡ self.old ++ text.now) }
        ensures unchanged { OnErr result (self.new ≡ self.old) }
    {
        self.text.push_str(text)
    }

    pub fn copy(&self, alloc: Global) -> Mem<Name>
        ensures { IfOk result (λ copy. copy ≡ self.now) }
    {
        Name::from_text(alloc, self.text.as_str())
    }

    pub fn equals(&self, other: &Name) -> bool
        ensures { IsTrue result ↔ (self.now ≡ other.now) }
    {
        self.text.as_bytes() == other.text.as_bytes()
    }

    /// The order of the report: by the UTF-8 bytes.
    pub fn compare(&self, other: &Name) -> Ordering
        ensures { result ≡ slice_cmp nat_cmp self.now other.now }
    {
        self.text.as_bytes().cmp(other.text.as_bytes())
    }
}

impl PartialEq for Name {
    ghost eq = { pointwise nat_eq };

    ghost laws = { Prim.search (comparing, rules) };

    fn eq(&self, other: &Name) -> bool {
        self.equals(other)
    }
}

impl Eq for Name {
    ghost laws = { Prim.search (comparing, rules) };
}

impl Hash for Name {
    ghost hash_input = { λ n. fed.str n };

    ghost respects_eq = { Prim.search (hashing, rules) };

    fn hash<H: Hasher>(&self, state: &mut H) {
        self.as_str().hash(state);
    }
}

impl TryCopy for Name {
    fn copy(&self, alloc: Global) -> Mem<Name> {
        Name::copy(self, alloc)
    }
}
