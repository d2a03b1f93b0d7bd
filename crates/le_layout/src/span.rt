/// Tokens of a layout that stand one after another: the first of them, and the place after the last.
#[derive(Clone, Copy, Debug, PartialEq, Eq)]
pub struct Span {
    /// The first token, counted from 0.
    pub from: u32,
    /// The place after the last token.
    pub to: u32,
}
