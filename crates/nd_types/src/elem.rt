//! `Elem`: the dtype of a number, its kind and byte order.
ghost use Rattle.std.specs.Prelude.{◌≡◌, ◌<◌, ◌≤◌, ◌&&◌, nat_lt, false};
ghost use Rattle.nd_model.specs.Arrays.Element as element;
ghost use Rattle.nd_types.specs.Kinds.{kind_of};

use crate::kind::Kind;
use std::marker::Model;

/// The dtype of a number: its kind, and whether it is big-endian. A number of one byte never is, so
/// that equal dtypes are equal values. A clause sees it as the definition's element.
#[derive(Clone, Copy, PartialEq, Eq)]
pub struct Elem {
    kind: Kind,
    big: bool,
}

impl Model for Elem {
    ghost use Rattle.std.specs.Prelude.{IsTrue};
    ghost use Rattle.nd_model.specs.Arrays.Element.{Element, is_canonical};
    ghost use Rattle.nd_types.specs.Kinds.{kind_of, kind_from, from_of};

    ghost Value = { Element };

    ghost view = { λ e. record { kind = kind_of e.kind; big = e.big } };

    ghost invariant = { λ e. IsTrue (is_canonical (kind_of e.kind) e.big) };

    ghost inverse = { λ e. record { kind = kind_from e.kind; big = e.big } };

    ghost inverse_ok = { λ e h i. record { kind = from_of e.kind i; big = e.big } };
}

impl Elem {
    /// Returns the dtype of a kind, big-endian if asked for and if there is more than one byte.
    /// `int8` has one dtype.
    #[inline]
    pub fn new(kind: Kind, big: bool) -> Elem
        ensures { result ≡ record {
          kind = kind_of kind;
          big = big && nat_lt 1 (element.size_of (kind_of kind));
        } }
    {
        Elem {
            kind,
            big: big && kind.size() > 1,
        }
    }

    /// Returns the little-endian dtype of a kind.
    #[inline]
    pub fn little(kind: Kind) -> Elem
        ensures { result ≡ record { kind = kind_of kind; big = false } }
    {
        Elem { kind, big: false }
    }

    /// Returns the kind.
    #[inline]
    pub fn kind(self) -> Kind
        ensures { kind_of result ≡ self.kind }
    {
        self.kind
    }

    /// Returns whether it is big-endian.
    #[inline]
    pub fn big(self) -> bool
        ensures { result ≡ self.big }
    {
        self.big
    }

    /// Returns the itemsize in bytes.
    #[inline]
    pub fn size(self) -> u64
        ensures value { result ≡ element.size_of self.kind }
        ensures range { (0 < result) × (result ≤ 8) }
    {
        self.kind.size()
    }
}
