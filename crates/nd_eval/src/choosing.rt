//! What is selected of values, by an index or as another view, and what may be assigned to the
//! selection: [`choose`] and [`assignment_target`].
mod arrays;
mod indexes;
mod selection;
mod selections;
mod shapes;
mod stretches;
mod targets;

pub(crate) use indexes::{Chosen, IndexValue, ItemValue, choose, is_advanced};
pub(crate) use nd_shape::Reshaped;
pub(crate) use selection::Selection;
pub(crate) use selections::copy_selection;
pub(crate) use shapes::{reshape, transpose, view_as};
pub(crate) use stretches::{stretch_element, stretch_view};
pub(crate) use targets::{Target, assignment_target};
