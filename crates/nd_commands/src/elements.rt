//! `push_elements`: the elements of an array as hex digits, from its block, one after another.

ghost use Rattle.std.specs.Prelude.{◌≡◌, ◌+◌, ◌≤◌, ◌^◌, length, replicate};
ghost use Rattle.nd_model.specs.Arrays.View.{item_size};
ghost use Rattle.nd_model.specs.Book.Script.{hex_digits, hex_text};
ghost use Rattle.nd_types.specs.Types.{type_of};
ghost use Rattle.nd_element.specs.Elements.{canonical_at, canonical_bytes};
ghost use Rattle.nd_script.specs.Lines.Answers.{Pushes};

use nd_block::store_at;
use nd_element::{number_in, write_structure};
use nd_script::lines::AnswerWrite;
use nd_script::words::{push_hex_digits, push_text};
use nd_types::ElemType;
use nd_view::View;

// Writes the element at a byte offset as it is shown, over zeros.
fn write_element(item: &mut [u8], bytes: &[u8], place: u64, elem: &ElemType)
    requires zeros { item.old ≡ replicate (item_size (type_of elem.now)) 0 }
    requires end { place + item_size (type_of elem.now) ≤ 2 ^ 64 }
    ensures { item.new ≡ canonical_at (type_of elem.now) bytes.now place }
{
    match elem {
        ElemType::One(elem) => store_at(item, 0, *elem, number_in(bytes, place, *elem)),
        ElemType::Rec(structure) => write_structure(item, bytes, place, structure),
    }
}

// Appends the hex digits of the element at a byte offset. `item` has room for one.
fn push_element<O: AnswerWrite>(
    out: &mut O,
    item: &mut [u8],
    bytes: &[u8],
    place: u64,
    elem: &ElemType,
)
    requires room { length item.old ≡ item_size (type_of elem.now) }
    requires end { place + item_size (type_of elem.now) ≤ 2 ^ 64 }
    ensures pushed { Pushes (O.state out.old)
        (hex_digits (canonical_at (type_of elem.now) bytes.now place)) (O.state out.new) }
    ensures room { length item.new ≡ item_size (type_of elem.now) }
{
    item.fill(0);
    write_element(item, bytes, place, elem);
    push_hex_digits(out, item);
}

// Appends the hex digits of a view's elements in C order.
fn push_runs<O: AnswerWrite>(out: &mut O, item: &mut [u8], view: &View, bytes: &[u8])
    requires { length item.old ≡ item_size view.now.element }
    ensures { Pushes (O.state out.old) (hex_digits (canonical_bytes view.now bytes.now))
        (O.state out.new) }
{
    let mut runs = view.runs();
    while let Some(run) = runs.next() {
        for number in 0..run.count() {
            push_element(out, item, bytes, run.place(number), view.elem());
        }
    }
}

/// Appends a view's elements in C order, two hex digits a byte, or a dash where there is no byte.
/// A Boolean is 0 or 1, and pad bytes are 0. `item` has room for one element.
pub fn push_elements<O: AnswerWrite>(out: &mut O, item: &mut [u8], view: &View, bytes: &[u8])
    requires { length item.old ≡ item_size view.now.element }
    ensures { Pushes (O.state out.old) (hex_text (canonical_bytes view.now bytes.now))
        (O.state out.new) }
{
    // proof: an element has bytes, by the clause of size().
    let _size = view.elem().size();
    if view.count() == 0 {
        push_text(out, "-");
    } else {
        push_runs(out, item, view, bytes);
    }
}
