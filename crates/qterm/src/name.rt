//! Names: a text of bytes with a sort.
ghost use Rattle.std.specs.Prelude.{◌≡◌, ◌↔◌, nat_eq, IsTrue, IfOk};
ghost use Rattle.std.proofs.Common.{rules};
ghost use Rattle.std.specs.Cmp.Rules.{hashing};
ghost use Rattle.std.specs.Hash as fed;
ghost use Rattle.std.specs.Cmp.Lexicographic.{pointwise, nat_list_eq_equiv};
ghost use Rattle.std.specs.Cmp.{partial_equiv_from_equiv};
ghost use Rattle.qterm.specs.Name.{IsNameByte, IsNameText};

use std::alloc::{AllocError, Global};
use std::hash::{Hash, Hasher};
use std::marker::Model;

/// The sort of a term.
#[derive(Clone, Copy, Debug, PartialEq, Eq, Hash)]
pub enum Sort {
    /// The sort of formulas.
    Bool,
    /// The sort of integers.
    Int,
}

/// The bytes of a name, which contracts see as a list. Each of them is one that a name may have.
#[derive(Debug, Drop)]
pub struct Text {
    bytes: Vec<u8>,
}

impl Model for Text {
    ghost use Rattle.std.specs.Prelude.{List, ℕ};
    ghost use Rattle.qterm.specs.Name.{IsNameText};

    ghost Value = { List ℕ };

    ghost view = { λ t. t.bytes.items };

    ghost invariant = { λ t. IsNameText t.bytes.items };
}

impl PartialEq for Text {
    ghost eq = { pointwise nat_eq };

    ghost laws = { partial_equiv_from_equiv nat_list_eq_equiv };

    fn eq(&self, other: &Text) -> bool {
        self.bytes.as_slice() == other.bytes.as_slice()
    }
}

impl Clone for Text {
    ghost is_clone = { λ t c. c ≡ t };

    fn clone(&self) -> Result<Text, AllocError> {
        Ok(Text {
            bytes: self.bytes.clone()?,
        })
    }
}

impl Eq for Text {
    ghost laws = { nat_list_eq_equiv };
}

impl Hash for Text {
    ghost hash_input = { fed.slice fed.u8 };

    ghost respects_eq = { Prim.search (hashing, rules) };

    fn hash<H: Hasher>(&self, state: &mut H) {
        self.bytes.as_slice().hash(state);
    }
}

/// A name: a text with a sort. Two names with the same text and different sorts are different names.
#[derive(Debug, Clone, PartialEq, Eq, Hash, Drop)]
pub struct Name {
    text: Text,
    sort: Sort,
}

impl Name {
    /// The name with this text and this sort.
    ///
    /// Every byte of the text is at least 32 and is none of 127, `|` and `\`, so that a quoted symbol of SMT-LIB 2.6 can
    /// hold the text on one line. `Name::allows` tells whether a text is so.
    pub fn new(alloc: Global, text: &[u8], sort: Sort) -> Result<Name, AllocError>
        requires allowed { IsNameText text.now }
        ensures text { IfOk result (λ name. name.text ≡ text.now) }
        ensures sort { IfOk result (λ name. name.sort ≡ sort) }
    {
        let text = Text {
            bytes: Vec::from_slice(alloc, text)?,
        };
        Ok(Name { text, sort })
    }

    /// Whether a name may have this text.
    pub fn allows(text: &[u8]) -> bool
        ensures { IsTrue result ↔ IsNameText text.now }
    {
        for byte in text {
            if !is_name_byte(*byte) {
                return false;
            }
        }
        true
    }

    /// The bytes of the name.
    pub fn text(&self) -> &[u8]
        ensures text { result.now ≡ self.now.text }
        ensures allowed { IsNameText result.now }
    {
        self.text.bytes.as_slice()
    }

    /// The sort of the name.
    pub fn sort(&self) -> Sort
        ensures { result ≡ self.now.sort }
    {
        self.sort
    }
}

/// Whether the text of a name may have this byte.
fn is_name_byte(byte: u8) -> bool
    ensures { IsTrue result ↔ IsNameByte byte }
{
    byte >= 32 && byte != 127 && byte != b'|' && byte != b'\\'
}
