//! `KeptCell`: the text of a cell of a notebook, and its label.

/// A cell: its text, and its label, which no answer shows.
#[derive(Drop)]
pub struct KeptCell {
    pub label: u64,
    pub text: String,
}
