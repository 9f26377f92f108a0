//! `append` and `lead`: lists whose members are read one by one.
ghost use Rattle.nd_parse.specs.Rules.Rows.{Appended, Led};

use crate::reader::read::Read;

/// Returns what was read, with what is read next behind it.
pub fn append<'t, X: Drop>(all: Vec<X>, next: Read<'t, X>) -> Read<'t, Vec<X>>
    ensures { Appended all next.entry result }
{
    let (next, rest) = next?;
    let mut all = all;
    all.push(next)?;
    Ok((all, rest))
}

/// Returns what was read first, with the others behind it.
pub(crate) fn lead<'t, X: Drop>(first: X, others: Read<'t, Vec<X>>) -> Read<'t, Vec<X>>
    ensures { Led first others.entry result }
{
    let (mut all, rest) = others?;
    all.insert(0, first)?;
    Ok((all, rest))
}
