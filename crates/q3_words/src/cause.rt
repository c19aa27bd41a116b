//! Why a line of a script is refused.

/// Why a line is refused: the first cause in this order.
#[derive(Clone, Copy, Debug, PartialEq, Eq)]
pub enum LineCause {
    /// The file is longer than a script may be; its line is 0.
    Large,
    /// The script has its 65,536 events already.
    Many,
    /// The first word isn't one of a line that the command takes.
    Word,
    /// The line has too many or too few words.
    Count,
    /// A word isn't its number, or is out of its range.
    Number,
    /// A word is no field and no value of an array, or its place doesn't rise.
    Fields,
    /// What is left of the line is no text in quotes, or one of too many bytes: more than 1,023, or in a line `config` more
    /// than 9,000.
    Text,
    /// The word isn't a name of a file: 1 to 200 bytes, each 33 to 126. It is printed `name`.
    Name,
    /// The word isn't an address.
    Address,
    /// The line can't stand here: a time that is less than the one before it, a line after `end`, or, in a client's script, a first
    /// line that isn't `client`, another `client`, or a line of another client. Of a script of a node that has no `end` it is the line
    /// after the last.
    Order,
}
