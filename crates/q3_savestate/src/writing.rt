//! Numbers as bytes, the lowest first.

ghost use Rattle.byteorder.specs.Endian.{little_bytes};
ghost use Rattle.q3_io.specs.Faults.{HasCause};
ghost use Rattle.q3_io.specs.Written.{Adds};

use q3_io::{Failed, Sink};

/// Writes a number of one byte.
pub(crate) fn write_byte<O: Sink>(number: u8, out: &mut O) -> Result<(), Failed>
    ensures adds { Adds (O.written out.old) (O.written out.new) (little_bytes 1 number) result }
    ensures cause { HasCause (O.faults out.old) (O.faults out.new) result }
{
    out.write_all(&number.to_le_bytes())
}

/// Writes a number of two bytes.
pub(crate) fn write_short<O: Sink>(number: u16, out: &mut O) -> Result<(), Failed>
    ensures adds { Adds (O.written out.old) (O.written out.new) (little_bytes 2 number) result }
    ensures cause { HasCause (O.faults out.old) (O.faults out.new) result }
{
    out.write_all(&number.to_le_bytes())
}

/// Writes a number of four bytes.
pub(crate) fn write_long<O: Sink>(number: u32, out: &mut O) -> Result<(), Failed>
    ensures adds { Adds (O.written out.old) (O.written out.new) (little_bytes 4 number) result }
    ensures cause { HasCause (O.faults out.old) (O.faults out.new) result }
{
    out.write_all(&number.to_le_bytes())
}
