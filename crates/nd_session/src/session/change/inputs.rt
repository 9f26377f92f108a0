//! `Change::of_world`: what other inputs and another rule change, by themselves.

ghost use Rattle.std.specs.Prelude.{◌≡◌, ℕ, IfOk, List, None, OnOk, Some, bytes_eq, if◌then◌else◌, option_map};
ghost use Rattle.std.specs.Rc.{rc_str_bytes};
ghost use Rattle.nd_change.specs.Change.{IsOver};
ghost use Rattle.nd_model.specs.Cells.Running as running;
ghost use Rattle.nd_model.specs.Cells.Session as model;
ghost use Rattle.nd_session.specs.Inputs.Values.{inputs_of, rule_of, world_of};
ghost use Rattle.nd_session.specs.Session.Change.{IsNoted, change_of};
ghost use Rattle.nd_session.specs.Session.Now.{input_now};

use crate::inputs::{CellRule, Inputs, are_same_inputs, find_input};
use crate::session::change::change::{Change, InputsNow};
use crate::session::reads::share_input;
use indexmap::IndexMap;
use nd_heap::OutOfMemory;
use std::alloc::Global;
use std::rc::RcStr;

/// Notes an input as it is now.
fn set_input(changed: &mut InputsNow, name: &RcStr, new: &Inputs) -> Result<(), OutOfMemory>
    ensures { OnOk result ((n : List ℕ) → input_now changed.new.entries n
        ≡ (if bytes_eq n (rc_str_bytes name.now)
        then Some (inputs_of new.now.entries (rc_str_bytes name.now))
        else input_now changed.old.entries n)) }
{
    let input = share_input(new, name.as_str())?;
    let key = name.clone()?;
    changed.insert(key, input)?;
    Ok(())
}

/// Notes an input where it differs in the new inputs.
fn note_input(
    changed: &mut InputsNow,
    name: &RcStr,
    old: &Inputs,
    new: &Inputs,
) -> Result<(), OutOfMemory>
    ensures noted { OnOk result (IsNoted (inputs_of new.now.entries)
        (input_now changed.old.entries) (input_now changed.new.entries)) }
    ensures same { OnOk result (input_now changed.new.entries (rc_str_bytes name.now) ≡ None
        → inputs_of old.now.entries (rc_str_bytes name.now)
        ≡ inputs_of new.now.entries (rc_str_bytes name.now)) }
{
    let text = name.as_str();
    if are_same_inputs(find_input(old, text), find_input(new, text)) {
        return Ok(());
    }
    set_input(changed, name, new)?;
    Ok(())
}

/// Notes each of some inputs that differs in the new inputs.
fn note_inputs(
    changed: &mut InputsNow,
    names: &Inputs,
    old: &Inputs,
    new: &Inputs,
) -> Result<(), OutOfMemory>
    ensures noted { OnOk result (IsNoted (inputs_of new.now.entries)
        (input_now changed.old.entries) (input_now changed.new.entries)) }
    ensures same { OnOk result ((n : List ℕ) (x : running.Source)
        → inputs_of names.now.entries n ≡ Some x → input_now changed.new.entries n ≡ None
        → inputs_of old.now.entries n ≡ inputs_of new.now.entries n) }
{
    for i in 0..names.len() {
        let Some((name, _)) = names.get_index(i) else {
            unreachable!();
        };
        note_input(changed, name, old, new)?;
    }
    Ok(())
}

/// The rule where it is another than before.
fn changed_rule(old: CellRule, new: CellRule) -> Option<CellRule>
    ensures now { (x : running.Rule) → option_map rule_of result ≡ Some x → rule_of new ≡ x }
    ensures same { option_map rule_of result ≡ None → rule_of old ≡ rule_of new }
{
    if old.is_same(new) { None } else { Some(new) }
}

impl Change {
    /// Returns what new inputs and a new rule change in a session with the old ones: the inputs that
    /// differ, and the rule where it is another.
    pub fn of_world(
        alloc: Global,
        old: &Inputs,
        old_rule: CellRule,
        new: &Inputs,
        rule: CellRule,
    ) -> Result<Change, OutOfMemory>
        ensures { IfOk result (λ c. (s : model.Session)
            → IsOver (change_of c) s (world_of (inputs_of old.now.entries) old_rule)
            s (world_of (inputs_of new.now.entries) rule)) }
    {
        let mut inputs = IndexMap::new(alloc);
        note_inputs(&mut inputs, old, old, new)?;
        note_inputs(&mut inputs, new, old, new)?;
        Ok(Change {
            names: IndexMap::new(alloc),
            inputs,
            blocks: IndexMap::new(alloc),
            parts: IndexMap::new(alloc),
            rule: changed_rule(old_rule, rule),
            alloc,
        })
    }
}
