//! `kind_named` and `parse_descr`: kinds by name, and dtypes by array-protocol type strings.
ghost use Rattle.std.specs.Prelude.{◌≡◌, None, map, option_map};
ghost use Rattle.nd_model.specs.Cells.Session as session;
ghost use Rattle.nd_model.specs.Arrays.Types as model;
ghost use Rattle.nd_types.specs.Kinds.{kind_of};
ghost use Rattle.nd_types.specs.Names.{named_kind, with_name};

use crate::elem::Elem;
use crate::kind::Kind;

static KINDS: [Kind; 9] = [
    Kind::Bool,
    Kind::I8,
    Kind::I16,
    Kind::I32,
    Kind::I64,
    Kind::U8,
    Kind::U16,
    Kind::U32,
    Kind::U64,
];

static KIND_CODES: [(&str, Kind); 9] = [
    ("b1", Kind::Bool),
    ("i1", Kind::I8),
    ("i2", Kind::I16),
    ("i4", Kind::I32),
    ("i8", Kind::I64),
    ("u1", Kind::U8),
    ("u2", Kind::U16),
    ("u4", Kind::U32),
    ("u8", Kind::U64),
];

// The kind of a name in a table.
fn find_kind(table: &[(&str, Kind)], name: &[u8]) -> Option<Kind>
    ensures { option_map kind_of result ≡ session.lookup name.now (map named_kind table.now) }
{
    for (word, kind) in table {
        if name == word.as_bytes() {
            return Some(*kind);
        }
    }
    None
}

// The kind of this name, among these.
fn find_named(kinds: &[Kind], name: &str) -> Option<Kind>
    ensures { option_map kind_of result ≡ session.lookup name.now (map with_name kinds.now) }
{
    for kind in kinds {
        if name == kind.name() {
            return Some(*kind);
        }
    }
    None
}

/// Returns the kind of a name such as `int8` or `bool` (NumPy user guide, "Data types"). Any other
/// text gives `None`, as `float64` and `i4` do.
pub fn kind_named(name: &str) -> Option<Kind>
    ensures { option_map kind_of result ≡ session.lookup name.now model.kind_names }
{
    find_named(&KINDS, name)
}

// The dtype of a code such as `i4`, in a byte order.
fn element_of(code: &[u8], big: bool) -> Option<Elem>
    ensures { result ≡ model.with_order big (session.lookup code.now model.kind_codes) }
{
    let kind = find_kind(&KIND_CODES, code)?;
    Some(Elem::new(kind, big))
}

// The dtype of a code after `|`, which stands for one byte only.
fn byte_element_of(code: &[u8]) -> Option<Elem>
    ensures { result ≡ model.without_order (session.lookup code.now model.kind_codes) }
{
    let kind = find_kind(&KIND_CODES, code)?;
    if kind.size() != 1 {
        return None;
    }
    Some(Elem::little(kind))
}

/// Returns the dtype of an array-protocol type string, such as `<i4`, `>u2` or `|b1`, and `None`
/// for any other text.
///
/// It has a byte order, which may be left out, a letter, and an itemsize in bytes. `|` stands for
/// one byte only, so `|i4` is none (NPY format description, "descr").
pub fn parse_descr(text: &str) -> Option<Elem>
    ensures { result ≡ model.or_coded None text.now }
{
    let bytes = text.as_bytes();
    let (order, code) = bytes.split_first()?;
    match *order {
        b'<' | b'=' => element_of(code, false),
        b'>' => element_of(code, true),
        b'|' => byte_element_of(code),
        _ => element_of(bytes, false),
    }
}
