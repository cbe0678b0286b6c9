//! The editing functions of characters.

/// What a character does to a text that is edited (X.3 3.16 to 3.18).
#[derive(Clone, Copy, PartialEq, Eq)]
pub enum EditingFunction {
    /// Takes the last octet away.
    CharacterDelete,
    /// Takes all of the text away.
    LineDelete,
    /// Shows the text.
    LineDisplay,
}
