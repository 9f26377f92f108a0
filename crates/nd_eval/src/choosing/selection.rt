//! `Selection`: the elements that an advanced index selects.

ghost use Rattle.nd_eval.specs.Choosing.ChosenPlaces.{AreChosen};

use nd_index::advanced::ChosenPlaces;
use nd_view::View;

/// The elements that an advanced index selects of a view.
#[derive(Drop)]
pub(crate) struct Selection {
    pub view: View,
    pub places: ChosenPlaces,
    ghost chosen: { AreChosen view places },
}
