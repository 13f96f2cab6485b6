//! A text that is cut in two.

/// The front of a text, and what comes after it.
#[derive(Clone, Copy, Debug)]
pub struct Cut<'a> {
    /// A line without what ends it, or a word.
    pub front: &'a [u8],
    /// The text from the next line on, or from the end of the word on.
    pub rest: &'a [u8],
}
