//! Reads a changed field, in every spelling that is accepted. Keeps the rules "entity delta" and "player delta" for one
//! field, the engine's `MSG_ReadDeltaEntity` and `MSG_ReadDeltaPlayerstate`. That a float in full comes back in normal
//! form is this project's own.

ghost use Rattle.std.specs.Prelude.{◌≡◌, ◌<◌, ◌≤◌, ◌^◌, ◌==◌, if◌then◌else◌};
ghost use Rattle.q3_bits.specs.Streams.{Reads};
ghost use Rattle.q3_fields.specs.declared.kind.Kind.TheVariants.{Float, Unsigned, Signed};
ghost use Rattle.q3_fields.specs.Kinds.{IsKind};
ghost use Rattle.q3_fields.specs.Texts.{float_at, integer_at, player_field_at, entity_field_at};

use crate::float::{pattern_of, unbiased};
use crate::kind::{Kind, positive_zero, sign_extended};
use q3_bits::{BIT, LONG, ReadError, Reader};

/// Reads a changed field of a player delta, in normal form. `Err` is the first fault in reading order; the reader then
/// stands anywhere.
#[tactic(auto, unfolding(crate::specs::Texts::player_field_at))]
#[inline(always)]
pub fn read_player_field(r: &mut Reader, kind: Kind) -> Result<u32, ReadError>
    requires { IsKind kind }
    ensures { Reads r.old r.new (player_field_at r.old.words kind r.old.left) result }
{
    match kind {
        Kind::Float => read_float(r),
        Kind::Unsigned(width) => read_unsigned(r, width),
        Kind::Signed(width) => read_signed(r, width),
    }
}

/// Reads a changed field of an entity delta, in normal form. `Err` is the first fault in reading order; the reader then
/// stands anywhere.
#[tactic(auto, unfolding(crate::specs::Texts::entity_field_at))]
#[inline(always)]
pub fn read_entity_field(r: &mut Reader, kind: Kind) -> Result<u32, ReadError>
    requires { IsKind kind }
    ensures { Reads r.old r.new (entity_field_at r.old.words kind r.old.left) result }
{
    if r.get_fixed(BIT)? == 0 {
        return Ok(0);
    }
    read_player_field(r, kind)
}

/// Reads a float: 13 bits after bit 0, and its pattern after bit 1.
#[tactic(auto, unfolding(crate::specs::Texts::float_at))]
#[inline(always)]
fn read_float(r: &mut Reader) -> Result<u32, ReadError>
    ensures { Reads r.old r.new (float_at r.old.words r.old.left) result }
{
    if r.get_fixed(BIT)? == 0 {
        let value = r.get_fixed(13)?;
        return Ok(pattern_of(unbiased(value)));
    }
    let word = r.get_fixed(LONG)?;
    Ok(positive_zero(word))
}

/// Reads an unsigned integer of so many bits, which is in normal form.
#[inline(always)]
fn read_unsigned(r: &mut Reader, width: u8) -> Result<u32, ReadError>
    requires some { 1 ≤ width }
    requires most { width ≤ 32 }
    ensures { Reads r.old r.new (integer_at r.old.words (Unsigned width) width r.old.left) result }
{
    let width = u32::from(width);
    if width == LONG {
        // the constant, so that no loop is left; another width keeps its loop
        return r.get_fixed(LONG);
    }
    r.get_fixed(width)
}

/// Reads a signed integer of so many bits, and extends its sign.
#[tactic(auto, unfolding(crate::specs::Kinds::norm))]
#[inline(always)]
fn read_signed(r: &mut Reader, width: u8) -> Result<u32, ReadError>
    requires some { 1 ≤ width }
    requires most { width ≤ 24 }
    ensures { Reads r.old r.new (integer_at r.old.words (Signed width) width r.old.left) result }
{
    Ok(sign_extended(r.get_fixed(u32::from(width))?, width))
}
