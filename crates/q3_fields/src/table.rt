//! Tables of fields. Keeps the rule "field tables", the engine's `entityStateFields` and `playerStateFields`.

ghost use Rattle.std.specs.Prelude.{◌≡◌, ◌<◌, ◌≤◌, length, slice_get, Some, IfOk, IfSome};
ghost use Rattle.q3_fields.specs.Kinds.{HasNumberBits, IsKind, IsTable, table_of, numbered_table, end_mark, least_number_bits, most_number_bits, least_end, most_end};
ghost use Rattle.q3_fields.specs.Kinds as spec;

use crate::kind::Kind;
use std::marker::Model;

/// Why widths are no table: the first of these.
#[derive(Clone, Copy, Debug, PartialEq, Eq)]
pub enum TableError {
    /// Not 1 to 64 widths.
    Fields,
    /// The first width that isn't allowed, by its place.
    Width(usize),
}

/// How many bits a number of an entity has at least: the engine's `GENTITYNUM_BITS`.
pub const LEAST_NUMBER_BITS: u8 = 10;

/// How many bits a number of an entity has at most. This project's own.
pub const MOST_NUMBER_BITS: u8 = 12;

/// The end mark of the widest entity numbers: each entity's number is below it.
pub const MOST_END: u16 = (1 << MOST_NUMBER_BITS) - 1;

/// The kinds of 1 to 64 fields, in order. To a caller it is a record of the kinds and of how many bits a number of an
/// entity has.
#[derive(Drop)]
pub struct Table {
    count: usize,
    kinds: [Kind; 64],
    number_bits: u8,
}

impl Model for Table {
    ghost use Rattle.q3_fields.specs.Kinds.{Layout};
    ghost use Rattle.q3_fields.specs.Rows.{layout_of, IsFilled};

    ghost Value = { Layout };

    ghost view = { layout_of };

    ghost invariant = { IsFilled };
}

impl Table {
    /// The table of these widths: 0 is a float, 1 to 32 an unsigned field, -8, -16 and -24 a signed one. A number of an
    /// entity has 10 bits.
    /// `Err` is the first of: other than 1 to 64 widths; the first width that isn't allowed.
    pub fn of(widths: &[i64]) -> Result<Table, TableError>
        ensures exact { result ≡ table_of widths.now }
        ensures is_table { IfOk result IsTable }
    {
        Table::numbered(widths, LEAST_NUMBER_BITS)
    }

    /// The table of these widths as `of` takes them, in which a number of an entity has so many bits: 10 to 12.
    /// `Err` is that of `of`.
    #[tactic(auto, unfolding(crate::specs::Kinds::numbered_table))]
    pub fn numbered(widths: &[i64], bits: u8) -> Result<Table, TableError>
        requires bits { HasNumberBits bits }
        ensures exact { result ≡ numbered_table widths.now bits }
        ensures is_table { IfOk result IsTable }
    {
        if widths.is_empty() || widths.len() > 64 {
            return Err(TableError::Fields);
        }
        let mut kinds = [Kind::Float; 64];
        for i in 0..widths.len() {
            let Some(kind) = kind_of(widths[i]) else {
                return Err(TableError::Width(i));
            };
            kinds[i] = kind;
        }
        Ok(Table {
            count: widths.len(),
            kinds,
            number_bits: bits,
        })
    }

    /// The same table once more.
    pub fn copy(&self) -> Table
        ensures copy { result ≡ self.now }
        ensures is_table { IsTable self.now }
        ensures numbers { HasNumberBits self.now.number_bits }
    {
        Table {
            count: self.count,
            kinds: self.kinds,
            number_bits: self.number_bits,
        }
    }

    /// The kind of field `i`, or `None` at or above the count.
    pub fn kind(&self, i: usize) -> Option<Kind>
        ensures kind { result ≡ slice_get self.now.kinds i }
        ensures allowed { IfSome result IsKind }
    {
        if i >= self.count {
            return None;
        }
        Some(self.kinds[i])
    }

    /// The kind of a field that the table has.
    pub(crate) fn kind_at(&self, i: usize) -> Kind
        requires { i < length self.now.kinds }
        ensures kind { slice_get self.now.kinds i ≡ Some result }
        ensures allowed { IsKind result }
    {
        // it has no more fields than places
        prove!(self.count <= 64);
        self.kinds[i]
    }

    /// How many fields the table has: 1 to 64.
    pub fn count(&self) -> usize
        ensures count { result ≡ length self.now.kinds }
        ensures is_table { IsTable self.now }
    {
        self.count
    }

    /// How many bits a number of an entity has in a message: 10 to 12.
    pub fn bits(&self) -> u8
        ensures bits { result ≡ self.now.number_bits }
        ensures some { least_number_bits ≤ result }
        ensures most { result ≤ most_number_bits }
    {
        self.number_bits
    }

    /// The end mark of an entity list. The numbers of entities are below it.
    pub fn end(&self) -> u16
        ensures mark { result ≡ end_mark self.now }
        ensures least { least_end ≤ result }
        ensures most { result ≤ most_end }
    {
        (1 << self.number_bits) - 1
    }
}

/// The kind that a width says.
fn kind_of(width: i64) -> Option<Kind>
    ensures kind { result ≡ spec.kind_of width }
    ensures allowed { IfSome result IsKind }
{
    match width {
        0 => Some(Kind::Float),
        1..=32 => Some(Kind::Unsigned(width as u8)),
        -8 => Some(Kind::Signed(8)),
        -16 => Some(Kind::Signed(16)),
        -24 => Some(Kind::Signed(24)),
        _ => None,
    }
}
