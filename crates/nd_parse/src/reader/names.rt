//! `kind_named`, `ufunc_named` and the like: the kinds, functions and methods that names stand for.
ghost use Rattle.std.specs.Prelude.{◌≡◌, map};
ghost use Rattle.nd_types.specs.Kinds.{kind_of};
ghost use Rattle.nd_model.specs.Grammar.Cells.{kind_named, fill_named, ufunc_named, reduction_named, accumulation_named};
ghost use Rattle.nd_syntax.specs.Trees.Calls.{ufunc_of, reduction_of, accumulation_of, fill_of};
ghost use Rattle.nd_parse.specs.Reader.Tables.{named, named_entry};

use nd_syntax::trees::{Accumulation, Fill, Reduction, Ufunc};
use nd_types::Kind;

static FILLS: [(&str, Fill); 1] = [("ones", Fill::Ones)];

static UFUNCS: [(&str, Ufunc); 3] = [
    ("add", Ufunc::Add),
    ("multiply", Ufunc::Multiply),
    ("minimum", Ufunc::Minimum),
];

static REDUCTIONS: [(&str, Reduction); 7] = [
    ("sum", Reduction::Sum),
    ("prod", Reduction::Prod),
    ("min", Reduction::Min),
    ("max", Reduction::Max),
    ("any", Reduction::Any),
    ("all", Reduction::All),
    ("argmin", Reduction::ArgMin),
];

static ACCUMULATIONS: [(&str, Accumulation); 1] = [("cumsum", Accumulation::CumSum)];

/// The value of a name in the table, and `other` for all other names.
fn named<T: Copy>(table: &[(&str, T)], other: T, name: &str) -> T
    ensures { result ≡ named (map named_entry table.now) other name.now }
{
    for (word, meaning) in table {
        if name == *word {
            return *meaning;
        }
    }
    other
}

/// Returns the kind of this name (NumPy user guide, "Data types"): `int16` for `"int16"`. The
/// grammar hands on names of kinds only.
pub fn kind_named(name: &str) -> Kind
    ensures { kind_of result ≡ kind_named name.now }
{
    nd_types::kind_named(name).unwrap_or(Kind::Bool)
}

/// Returns what `zeros` or `ones` fills an array with.
pub fn fill_named(name: &str) -> Fill
    ensures { fill_of result ≡ fill_named name.now }
{
    named(&FILLS, Fill::Zeros, name)
}

/// Returns the universal function of this name.
pub fn ufunc_named(name: &str) -> Ufunc
    ensures { ufunc_of result ≡ ufunc_named name.now }
{
    named(&UFUNCS, Ufunc::Maximum, name)
}

/// Returns the reduction of this name.
pub fn reduction_named(name: &str) -> Reduction
    ensures { reduction_of result ≡ reduction_named name.now }
{
    named(&REDUCTIONS, Reduction::ArgMax, name)
}

/// Returns the accumulation of this name.
pub fn accumulation_named(name: &str) -> Accumulation
    ensures { accumulation_of result ≡ accumulation_named name.now }
{
    named(&ACCUMULATIONS, Accumulation::CumProd, name)
}
