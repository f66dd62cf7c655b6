//! What is seen as octets: how many they are, and each by its place.

ghost use Rattle.std.specs.Prelude.{◌≡◌, ◌↔◌, List, [], ℕ, length, slice_get, IsTrue};

/// Octets in order: a string of octets, a payload, and a text or a symbol in UTF-8.
pub trait AsOctets {
    /// The octets, as a contract sees them.
    ghost octets: { Self → List ℕ };

    /// The octets.
    fn as_octets(&self) -> &[u8]
        ensures { result.now ≡ octets self.now };

    /// How many there are.
    final fn len(&self) -> usize
        ensures { result ≡ length (octets self.now) }
    {
        self.as_octets().len()
    }

    /// Whether there are none.
    final fn is_empty(&self) -> bool
        ensures { IsTrue result ↔ (octets self.now ≡ []) }
    {
        self.as_octets().is_empty()
    }

    /// The octet at `index`, counted from 0; `None` from the length on.
    final fn get(&self, index: usize) -> Option<u8>
        ensures { result ≡ slice_get (octets self.now) index }
    {
        self.as_octets().get(index).copied()
    }
}
