//! Text and symbols, which a contract sees as their octets in UTF-8.

ghost use Rattle.std.specs.Prelude.{refl, Some, ◌≡◌, List, [], ◌++◌, ℕ, OnOk, OnErr, IfOk, IfErr, nat_eq};
ghost use Rattle.std.specs.Char.{encode_utf8};
ghost use Rattle.std.specs.Hash as fed;
ghost use Rattle.std.specs.Ordering.{nat_cmp};
ghost use Rattle.std.specs.Cmp.Lexicographic.{pointwise, nat_list_eq_equiv, slice_cmp, nat_list_cmp_total, texts_ties, texts_po};
ghost use Rattle.std.specs.Cmp.{partial_equiv_from_equiv};
ghost use Rattle.std.specs.Cmp.Rules.{hashing};
ghost use Rattle.std.proofs.Common.{rules};

use crate::items::{NoMemory, TryClone};
use crate::octets::AsOctets;
use std::alloc::Global;
use std::cmp::Ordering;
use std::fmt;
use std::hash::{Hash, Hasher};
use std::marker::Model;
use thin::Thin;

/// A text, which a contract sees as its octets in UTF-8.
///
/// Part 1 of the standard, section 1.6.20 (string). Lengths and places are in octets. Two texts
/// are equal where their octets are; nothing is normalised. It is one pointer wide, and keeps the
/// allocator that it was made with.
#[derive(Drop)]
pub struct Text {
    text: Thin<String>,
}

const _: () = prove!(size_of::<Text>() == 8);

impl Model for Text {
    ghost use Rattle.std.specs.Prelude.{List, ℕ};
    ghost use Rattle.amqp_txn_types.specs.Thinly.{bytes_of};

    ghost Value = { List ℕ };

    ghost view = { λ t. bytes_of t.text };
}

impl Text {
    /// The empty text. It takes no memory; later growth takes it from `alloc`.
    pub fn new(alloc: Global) -> Self
        ensures { result ≡ [] }
    {
        Text {
            text: Thin::none(alloc),
        }
    }

    /// A copy of the text, which takes no memory where it is empty. The only error is out of
    /// memory.
    pub fn from_str(alloc: Global, text: &str) -> Result<Self, NoMemory>
        ensures { IfOk result (λ t. t ≡ text.now) }
    {
        if text.is_empty() {
            return Ok(Text::new(alloc));
        }
        let text = Thin::some(alloc, String::from_str(alloc, text)?)?;
        Ok(Text { text })
    }

    /// The text as a string slice.
    pub fn as_str(&self) -> &str
        ensures { result.now ≡ self.now }
    {
        match self.text.as_ref() {
            None => "",
            Some(text) => text.as_str(),
        }
    }

    /// Appends the character, which takes one to four octets. Where memory runs out the character
    /// comes back, and the text is as it was.
    pub fn push(&mut self, item: char) -> Result<(), (char, NoMemory)>
        ensures ok { OnOk result (self.new ≡ self.old ++ encode_utf8 item) }
        ensures err { IfErr result (λ refused. (refused.0 ≡ item) × (self.new ≡ self.old)) }
    {
        if self.text.is_none() {
            let alloc = self.text.allocator();
            match Thin::some(alloc, String::new(alloc)) {
                Ok(text) => self.text = text,
                Err(_) => return Err((item, NoMemory)),
            }
        }
        match self.text.as_mut() {
            None => unreachable!(),
            Some(text) => match text.push(item) {
                Ok(()) => Ok(()),
                Err(_) => Err((item, NoMemory)),
            },
        }
    }

    /// Appends the character, which takes one to four octets.
    ///
    /// # Errors
    ///
    /// Returns [`NoMemory`] where memory runs out; the text is as it was then.
    pub fn append(&mut self, item: char) -> Result<(), NoMemory>
        ensures ok { OnOk result (self.new ≡ self.old ++ encode_utf8 item) }
        ensures err { OnErr result (self.new ≡ self.old) }
    {
        match self.push(item) {
            Ok(()) => Ok(()),
            Err((_, error)) => Err(error),
        }
    }
}

impl fmt::Debug for Text {
    fn fmt<W: fmt::Write>(&self, f: &mut fmt::Formatter<W>) -> fmt::Result {
        f.debug_struct("Text")
            .field("text", &self.as_str())
            .finish()
    }
}

impl AsOctets for Text {
    ghost octets = { λ t. t };

    fn as_octets(&self) -> &[u8] {
        self.as_str().as_bytes()
    }
}

impl TryClone for Text {
    fn try_clone(&self) -> Result<Self, NoMemory> {
        Text::from_str(self.text.allocator(), self.as_str())
    }
}

impl PartialEq for Text {
    ghost eq = { pointwise nat_eq };

    ghost laws = { partial_equiv_from_equiv nat_list_eq_equiv };

    fn eq(&self, other: &Self) -> bool {
        self.as_str() == other.as_str()
    }
}

impl Eq for Text {
    ghost laws = { nat_list_eq_equiv };
}

impl PartialOrd for Text {
    ghost partial_cmp = { λ x y. Some (slice_cmp nat_cmp x y) };

    ghost laws = { texts_po };

    fn partial_cmp(&self, other: &Self) -> Option<Ordering> {
        Some(self.cmp(other))
    }
}

impl Ord for Text {
    ghost cmp = { slice_cmp nat_cmp };

    ghost total = { nat_list_cmp_total };

    ghost matches_partial_cmp = { λ x y. refl };

    ghost matches_eq = { texts_ties };

    fn cmp(&self, other: &Self) -> Ordering {
        self.as_str().as_bytes().cmp(other.as_str().as_bytes())
    }
}

impl Hash for Text {
    ghost hash_input = { fed.str };

    ghost respects_eq = { Prim.search (hashing, rules) };

    fn hash<H: Hasher>(&self, state: &mut H) {
        self.as_str().hash(state);
    }
}

/// A symbol: a text that names a thing by agreement, as a key, a capability or a condition does.
///
/// Part 1 of the standard, section 1.6.21 (symbol). The standard's symbols are ASCII; this type
/// takes any text, and a contract sees it as its octets in UTF-8, like a [`Text`].
#[derive(Debug, Drop)]
pub struct Symbol {
    text: Text,
}

impl Model for Symbol {
    ghost Value = { List ℕ };

    ghost view = { λ s. s.text };
}

impl Symbol {
    /// The empty symbol. It takes no memory; later growth takes it from `alloc`.
    pub fn new(alloc: Global) -> Self
        ensures { result ≡ [] }
    {
        Symbol {
            text: Text::new(alloc),
        }
    }

    /// A copy of the text, as a symbol. The only error is out of memory.
    pub fn from_str(alloc: Global, text: &str) -> Result<Self, NoMemory>
        ensures { IfOk result (λ s. s ≡ text.now) }
    {
        Ok(Symbol {
            text: Text::from_str(alloc, text)?,
        })
    }

    /// The symbol as a string slice.
    pub fn as_str(&self) -> &str
        ensures { result.now ≡ self.now }
    {
        self.text.as_str()
    }

    /// Appends the character. Where memory runs out the character comes back, and the symbol is as
    /// it was.
    pub fn push(&mut self, item: char) -> Result<(), (char, NoMemory)>
        ensures ok { OnOk result (self.new ≡ self.old ++ encode_utf8 item) }
        ensures err { IfErr result (λ refused. (refused.0 ≡ item) × (self.new ≡ self.old)) }
    {
        self.text.push(item)
    }

    /// Appends the character, which takes one to four octets.
    ///
    /// # Errors
    ///
    /// Returns [`NoMemory`] where memory runs out; the symbol is as it was then.
    pub fn append(&mut self, item: char) -> Result<(), NoMemory>
        ensures ok { OnOk result (self.new ≡ self.old ++ encode_utf8 item) }
        ensures err { OnErr result (self.new ≡ self.old) }
    {
        match self.push(item) {
            Ok(()) => Ok(()),
            Err((_, error)) => Err(error),
        }
    }
}

impl AsOctets for Symbol {
    ghost octets = { λ s. s };

    fn as_octets(&self) -> &[u8] {
        self.as_str().as_bytes()
    }
}

impl TryClone for Symbol {
    fn try_clone(&self) -> Result<Self, NoMemory> {
        Ok(Symbol {
            text: self.text.try_clone()?,
        })
    }
}

impl PartialEq for Symbol {
    ghost eq = { pointwise nat_eq };

    ghost laws = { partial_equiv_from_equiv nat_list_eq_equiv };

    fn eq(&self, other: &Self) -> bool {
        self.text == other.text
    }
}

impl Eq for Symbol {
    ghost laws = { nat_list_eq_equiv };
}

impl Hash for Symbol {
    ghost hash_input = { fed.str };

    ghost respects_eq = { Prim.search (hashing, rules) };

    fn hash<H: Hasher>(&self, state: &mut H) {
        self.text.hash(state);
    }
}
