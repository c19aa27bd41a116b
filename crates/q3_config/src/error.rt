//! Why a config string can't be set, or a change of one can't go out.

/// The first of these, in this order.
#[derive(Clone, Copy, Debug, PartialEq, Eq)]
pub enum ConfigError {
    /// The index is above 1,023.
    Index,
    /// A byte that a config command can't carry, the first of the text: a quote, or one outside 32 to 126.
    Chars(u8),
    /// The text has more than 8,191 bytes.
    Long,
    /// The strings with this one would have a size above 16,000.
    Full,
}
