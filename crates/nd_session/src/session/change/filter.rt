//! `KeyFilter`: a set of keys in eight words. It may hold keys that were not put into it.

ghost use Rattle.std.specs.Prelude.{◌≡◌, ◌<◌, ◌/◌, ◌%◌, ◌||◌, ℕ, IsTrue, false, true};
ghost use Rattle.nd_model.specs.Cells.Running.{Input, Key, Name, OfRule};
ghost use Rattle.nd_marks.specs.Marks.{in_word};
ghost use Rattle.nd_session.specs.Session.Filter.{CoversGranules, CoversLabel, CoversLength, StaysCovered, covers, covers_byte, has_bit, text_bit};

use std::marker::Model;

// How many names, inputs and lengths a filter tells apart.
const BITS: u64 = 256;

/// A set of keys by bits. A name or an input has a bit by its bytes, a length one by the label of the
/// cell that made the block, the rule one of its own. So a filter may hold keys that were not put
/// into it.
///
/// A byte has a bit by the label, in `whole` where any byte of the label may be meant. Else it has
/// one in `part`, and the byte offset has one in `granules`: that of its 64 bytes, modulo 64.
#[derive(Drop)]
pub struct KeyFilter {
    keys: [u64; 4],
    whole: [u64; 2],
    part: u64,
    granules: u64,
}

impl Model for KeyFilter {
    ghost use Rattle.nd_session.specs.Session.Filter.{FilterData};

    ghost Value = { FilterData };

    ghost view = { λ f. record {
      keys = f.keys;
      whole = f.whole;
      part = f.part;
      granules = f.granules;
    } };
}

/// The bit of a text, from the one that it begins with.
fn text_bit(text: &str, first: u64) -> u64
    requires { first < 256 }
    ensures bit { result ≡ text_bit text.now first }
    ensures less { result < 256 }
{
    let mut bit = first;
    for byte in text.as_bytes() {
        bit = (bit * 31 + u64::from(*byte)) % BITS;
    }
    bit
}

impl KeyFilter {
    /// Returns a filter without keys.
    pub(crate) fn new() -> KeyFilter {
        KeyFilter {
            keys: [0; 4],
            whole: [0; 2],
            part: 0,
            granules: 0,
        }
    }

    /// Returns a filter that holds all keys.
    pub(crate) fn of_all() -> KeyFilter
        ensures { (k : Key) → IsTrue (covers result k) }
    {
        KeyFilter {
            keys: [u64::MAX; 4],
            whole: [u64::MAX; 2],
            part: 0,
            granules: 0,
        }
    }

    /// Sets the bit of a name, an input, a length or the rule.
    fn set_key(&mut self, bit: u64)
        requires { bit < 256 }
        ensures set { IsTrue (has_bit self.new.keys bit) }
        ensures stays { StaysCovered self.old self.new }
    {
        let at = (bit / 64) as usize;
        self.keys[at] = self.keys[at] | 1 << (bit % 64);
    }

    /// Adds all bytes of the blocks of a label.
    fn set_whole(&mut self, label: u64)
        ensures set { (p : ℕ) → IsTrue (covers_byte self.new label p) }
        ensures stays { StaysCovered self.old self.new }
    {
        let bit = label % 128;
        let at = (bit / 64) as usize;
        self.whole[at] = self.whole[at] | 1 << (bit % 64);
    }

    /// Adds the bytes in these granules of the blocks of a label.
    fn set_part(&mut self, label: u64, granules: u64)
        ensures set { (p : ℕ) → IsTrue (in_word granules (p / 64 % 64))
            → IsTrue (covers_byte self.new label p) }
        ensures stays { StaysCovered self.old self.new }
    {
        self.part = self.part | 1 << (label % 64);
        self.granules = self.granules | granules;
    }

    /// Adds a name.
    pub(crate) fn add_name(&mut self, name: &str)
        ensures added { IsTrue (covers self.new (Name name.now)) }
        ensures stays { StaysCovered self.old self.new }
    {
        self.set_key(text_bit(name, 0));
    }

    /// Adds an input.
    pub(crate) fn add_input(&mut self, name: &str)
        ensures added { IsTrue (covers self.new (Input name.now)) }
        ensures stays { StaysCovered self.old self.new }
    {
        self.set_key(text_bit(name, 1));
    }

    /// Adds the rule.
    pub(crate) fn add_rule(&mut self)
        ensures added { IsTrue (covers self.new OfRule) }
        ensures stays { StaysCovered self.old self.new }
    {
        self.set_key(2);
    }

    /// Adds the lengths of all blocks of a label.
    pub(crate) fn add_length(&mut self, label: u64)
        ensures added { CoversLength self.new label }
        ensures stays { StaysCovered self.old self.new }
    {
        self.set_key(label % BITS);
    }

    /// Adds the lengths and the bytes of all blocks of a label.
    pub(crate) fn add_label(&mut self, label: u64)
        ensures added { CoversLabel self.new label }
        ensures stays { StaysCovered self.old self.new }
    {
        self.add_length(label);
        self.set_whole(label);
    }

    /// Adds the bytes in these granules of all blocks of a label. Those of all granules are added as
    /// the whole, and leave the granules of other labels as they are.
    pub(crate) fn add_bytes(&mut self, label: u64, granules: u64)
        ensures added { CoversGranules self.new label granules }
        ensures stays { StaysCovered self.old self.new }
    {
        if granules == u64::MAX {
            self.set_whole(label);
        } else {
            self.set_part(label, granules);
        }
    }

    /// Returns true only where no name, input or length is in both, nor the rule.
    fn has_other_keys(&self, other: &KeyFilter) -> bool
        ensures { IsTrue result → (i : ℕ) → IsTrue (has_bit self.now.keys i)
            → ¬ IsTrue (has_bit other.now.keys i) }
    {
        for at in 0..4 {
            if self.keys[at] & other.keys[at] != 0 {
                return false;
            }
        }
        true
    }

    /// Returns true only where no label of which any byte may be meant is in both.
    fn has_other_wholes(&self, other: &KeyFilter) -> bool
        ensures { IsTrue result → (i : ℕ) → IsTrue (has_bit self.now.whole i)
            → ¬ IsTrue (has_bit other.now.whole i) }
    {
        for at in 0..2 {
            if self.whole[at] & other.whole[at] != 0 {
                return false;
            }
        }
        true
    }

    /// Returns true only where no label of a part is one of which the other may mean any byte.
    fn has_other_part(&self, other: &KeyFilter) -> bool
        ensures { IsTrue result → (label : ℕ) → IsTrue (in_word self.now.part (label % 64))
            → ¬ IsTrue (has_bit other.now.whole (label % 128)) }
    {
        self.part & (other.whole[0] | other.whole[1]) == 0
    }

    /// Returns true only where the parts have no label or no granule in common.
    fn has_other_granules(&self, other: &KeyFilter) -> bool
        ensures { IsTrue result → (i j : ℕ) → IsTrue (in_word self.now.part i)
            → IsTrue (in_word self.now.granules j) → IsTrue (in_word other.now.part i)
            → ¬ IsTrue (in_word other.now.granules j) }
    {
        self.part & other.part == 0 || self.granules & other.granules == 0
    }

    /// Returns true only where no key is in both. It may be false where none is.
    pub fn is_apart(&self, other: &KeyFilter) -> bool
        ensures { IsTrue result → (k : Key) → IsTrue (covers self.now k)
            → ¬ IsTrue (covers other.now k) }
    {
        self.has_other_keys(other)
            && self.has_other_wholes(other)
            && self.has_other_part(other)
            && other.has_other_part(self)
            && self.has_other_granules(other)
    }
}
