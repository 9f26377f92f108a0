//! Texts of small grammars, each written as a constant [`Rule`]: [`read`] gives the roles of their
//! tokens.
#![tactic(auto)]

ghost use Rattle.std.specs.Prelude.{◌≡◌, ◌<◌, ◌≤◌, ◌∷◌, true, false, List, length, IfOk, IfSome};
ghost use Rattle.std.specs.Option.{option_map};
ghost use Rattle.nd_model.specs.Grammar.Grammar.{has};
ghost use Rattle.nd_model.specs.Formats.Rules as rules;
ghost use Rattle.nd_model.specs.Formats.RuleReading.{look, stands, run, ReadingIsExact};
ghost use Rattle.nd_model.specs.Formats.RuleReading as runs;
ghost use Rattle.nd_grammar.specs.Reads.{rule_of, ahead, after, seen, rest_of};

use std::alloc::{AllocError, Global};

/// A set of kinds of tokens, one bit for each.
pub type Kinds = u64;

/// A grammar. Its texts are lists of tokens, of which only the kinds matter.
#[derive(Clone, Copy)]
pub enum Rule<'g> {
    /// No token.
    Nothing,
    /// A token of the set, which gets this role.
    One(u8, Kinds),
    /// One part, and then another.
    Then(&'g Rule<'g>, &'g Rule<'g>),
    /// One part, which begins with a token of the set, or another.
    Or(Kinds, &'g Rule<'g>, &'g Rule<'g>),
    /// Any number of parts, each of which begins with a token of the set.
    Many(Kinds, &'g Rule<'g>),
}

/// The roles of the tokens that are the front of a text, and whether they are all of one.
#[derive(Debug, Drop)]
pub struct Reading {
    pub roles: Vec<u8>,
    pub whole: bool,
}

fn is_in(kind: u8, set: Kinds) -> bool
    ensures { result ≡ has set kind }
{
    kind < 64 && (set >> kind) & 1 == 1
}

fn next_in(set: Kinds, tokens: &[u8]) -> bool
    ensures { result ≡ stands set tokens.now }
{
    match tokens.first() {
        Some(kind) => is_in(*kind, set),
        None => false,
    }
}

// Reads the tokens by the rule, and returns those behind it, or `None` where one is refused.
fn read_rule<'t>(
    rule: &Rule,
    tokens: &'t [u8],
    roles: &mut Vec<u8>,
) -> Result<Option<&'t [u8]>, AllocError>
    requires { (look (rule_of rule.now)).fits ≡ true }
    // The rest is read by any rules that may follow.
    ensures read { IfOk result (λ o. (k : List rules.Rule)
        → ahead roles.old.items (run (rule_of rule.now ∷ k) tokens.now)
        ≡ after roles.new.items (rest_of o) k) }
    ensures shorter { IfOk result (λ o. IfSome o (λ rest. length rest.now ≤ length tokens.now)) }
    ensures taken { IfOk result (λ o. IfSome o (λ rest. (look (rule_of rule.now)).empty ≡ false
        → length rest.now < length tokens.now)) }
{
    match rule {
        Rule::Nothing => Ok(Some(tokens)),
        Rule::One(role, set) => {
            if !next_in(*set, tokens) {
                return Ok(None);
            }
            roles.push(*role)?;
            Ok(Some(&tokens[1..]))
        }
        Rule::Then(first, second) => match read_rule(first, tokens, roles)? {
            Some(rest) => read_rule(second, rest, roles),
            None => Ok(None),
        },
        Rule::Or(set, first, second) => {
            if next_in(*set, tokens) {
                read_rule(first, tokens, roles)
            } else {
                read_rule(second, tokens, roles)
            }
        }
        Rule::Many(set, part) => {
            let mut rest = tokens;
            while next_in(*set, rest) {
                match read_rule(part, rest, roles)? {
                    Some(behind) => rest = behind,
                    None => return Ok(None),
                }
            }
            Ok(Some(rest))
        }
    }
}

/// Reads the tokens by the rule, for which one token of lookahead must be enough.
///
/// The rule `Many(1, &One(7, 1))` takes tokens of kind 0. Of the tokens `0 0 2` it reads the roles
/// `7 7`, which are not the whole text.
pub fn read(alloc: Global, rule: &Rule, tokens: &[u8]) -> Result<Reading, AllocError>
    requires { (look (rule_of rule.now)).fits ≡ true }
    ensures read { IfOk result (λ r. (r.roles.items, r.whole)
        ≡ seen (runs.reading (rule_of rule.now) tokens.now)) }
    ensures within { IfOk result (λ r. length r.roles.items ≤ length tokens.now) }
{
    let mut roles = Vec::new(alloc);
    let whole = match read_rule(rule, tokens, &mut roles)? {
        Some(rest) => rest.is_empty(),
        None => false,
    };
    Ok(Reading { roles, whole })
}

/// A law: what is read whole is a text of the rule, with its one meaning. Otherwise the longest
/// front of a text is read.
pub fn reading_is_exact()
    ensures { ReadingIsExact }
{}
