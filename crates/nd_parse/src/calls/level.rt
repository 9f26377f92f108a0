//! `open`: opens a bracket's level of nesting, and closes it again.
ghost use Rattle.std.specs.Prelude.{◌≡◌, ◌+◌, IfOk};
ghost use Rattle.nd_model.specs.Grammar.Kinds.{kind};
ghost use Rattle.nd_model.specs.Grammar.Predict.{read};
ghost use Rattle.nd_model.specs.Grammar.Cells.{under};
ghost use Rattle.nd_parse.specs.Reader.Gives.{Gives, tokens_of, front};
ghost use Rattle.nd_parse.specs.Calls.Readers.{opens, Closes};

use crate::reader::read::{Failure, Read, Reason, Tokens, close, refuse, skip};

/// Returns how many levels are left behind a token of the set, which opens one, and the tokens
/// there.
pub(crate) fn open<'t>(
    levels: u8,
    set: u128,
    tokens: Tokens<'t>,
) -> Result<(u8, Tokens<'t>), Failure>
    ensures deeper { IfOk result (λ x. levels ≡ x.0 + 1) }
    ensures read { Gives (λ x. (front (tokens_of tokens.now), tokens_of x.1.now)) result
        (read kind (opens set (under levels)) (tokens_of tokens.now)) }
{
    if levels == 0 {
        return Err(refuse(tokens, set, Reason::TooDeep));
    }
    let rest = skip(tokens, set)?;
    Ok((levels - 1, rest))
}

/// Returns what was read, where a token of the set ends it.
pub(crate) fn close_read<'t, X: Drop>(inner: Read<'t, X>, set: u128) -> Read<'t, X>
    ensures { Closes set inner.entry result }
{
    let (inner, rest) = inner?;
    close(inner, set, rest)
}
