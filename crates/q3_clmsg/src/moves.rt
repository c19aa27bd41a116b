//! Moves: what a player does in one frame of a client, and the delta in which a message carries it, hidden by a key.
//! Keeps the rules "move section", "move delta" and "move key and text hash", the engine's `MSG_WriteDeltaUsercmdKey`
//! and `MSG_ReadDeltaUsercmdKey` (msg.c).

ghost use Rattle.std.specs.Prelude.{◌≡◌, ◌≤◌, ◌<◌, ◌^◌, IfOk};
ghost use Rattle.std.specs.Int.{w8, cast_unsigned};
ghost use Rattle.q3_bits.specs.Streams.{Reads, Writes, holding};
ghost use Rattle.q3_clmsg.specs.Moves.{AreFields, move_widths, no_move, fields_of, move_of, step_of, time_bits, field_delta, changed_bits, fields_bits, move_delta, moves_bits, time_at, field_over, fields_at, move_at, moves_at};
ghost use Rattle.q3_clmsg.specs.Moves as spec;

use arrayvec::ArrayVec;
use q3_bits::{BIT, BYTE, LONG, Overflow, ReadError, Reader, Writer, laws};
use q3_text::{Text, hash_key};

/// How many moves a message may carry, the engine's `MAX_PACKET_USERCMDS` (qcommon.h); a client keeps as many of its newest.
pub const MOST_MOVES: usize = 32;

/// How many fields a move has beside its time.
const FIELDS: usize = 8;

/// How many bits each of them has: three angles, forward, right and up, the buttons, and the weapon.
const WIDTHS: [u32; FIELDS] = [16, 16, 16, 8, 8, 8, 16, 8];

/// What a player does in one frame of a client, the engine's `usercmd_t`.
#[derive(Clone, Copy, Debug, Default, PartialEq, Eq)]
pub struct Move {
    /// The server's time, in milliseconds.
    pub time: u32,
    /// Where the player looks: pitch, yaw and roll, in 65,536ths of a turn.
    pub angles: [u16; 3],
    /// How fast the player walks forward, from -127 to 127.
    pub forward: i8,
    /// How fast the player walks to the right, from -127 to 127.
    pub right: i8,
    /// How fast the player rises, from -127 to 127.
    pub up: i8,
    /// A bit for each button that is pressed.
    pub buttons: u16,
    /// The number of the weapon in hand.
    pub weapon: u8,
}

impl Move {
    /// The move with nothing in it.
    pub fn none() -> Move
        ensures { result ≡ no_move }
    {
        Move {
            time: 0,
            angles: [0; 3],
            forward: 0,
            right: 0,
            up: 0,
            buttons: 0,
            weapon: 0,
        }
    }
}

/// The key of a message's moves, without their times: the map's checksum feed, the number of the newest server message
/// that came whole, and the hash of the text of the newest server command.
pub fn message_key(feed: u32, acknowledged: u32, text: &Text) -> u32
    ensures { result ≡ spec.message_key feed acknowledged text.now }
{
    feed ^ acknowledged ^ hash_key(text)
}

/// A field of up to 16 bits, hidden by a key or shown.
fn hidden(key: u32, width: u32, field: u32) -> u32
    requires { width ≤ 16 }
    ensures { result ≡ spec.hidden key width field }
{
    field ^ (key % (1 << width))
}

/// A signed field as the number of its 8 bits.
fn pattern(value: i8) -> u32
    ensures is { result ≡ cast_unsigned w8 value }
    ensures fits { result < 256 }
{
    u32::from(value.cast_unsigned())
}

/// The fields of a move but its time, as numbers.
fn fields(one: &Move) -> [u32; FIELDS]
    ensures is { result ≡ fields_of one.now }
    ensures fit { AreFields move_widths result }
{
    let [pitch, yaw, roll] = one.angles;
    [
        u32::from(pitch),
        u32::from(yaw),
        u32::from(roll),
        pattern(one.forward),
        pattern(one.right),
        pattern(one.up),
        u32::from(one.buttons),
        u32::from(one.weapon),
    ]
}

/// A signed field as it is read: -128 counts as -127.
fn step(field: u32) -> i8
    requires { field < 256 }
    ensures { result ≡ step_of field }
{
    if field == 128 {
        return -127;
    }
    (field as u8).cast_signed()
}

/// The move of a time that has these fields.
fn move_from(time: u32, fields: &[u32; FIELDS]) -> Move
    requires { AreFields move_widths fields.now }
    ensures { result ≡ move_of time fields.now }
{
    let [pitch, yaw, roll, forward, right, up, buttons, weapon] = *fields;
    Move {
        time,
        angles: [pitch as u16, yaw as u16, roll as u16],
        forward: step(forward),
        right: step(right),
        up: step(up),
        buttons: buttons as u16,
        weapon: weapon as u8,
    }
}

/// Writes moves, each after the one before, the first after none.
pub(crate) fn write_moves(w: &mut Writer, key: u32, moves: &[Move]) -> Result<(), Overflow>
    ensures { Writes w.old w.new (moves_bits w.old.words key no_move moves.now) result }
{
    laws::texts_are_written();
    // what stands there fits the room
    prove!(w.length() > 0);
    let mut from = Move::none();
    for one in moves {
        write_move(w, key, &from, one)?;
        from = *one;
    }
    Ok(())
}

/// Writes a move after another: its time, and what else changed.
#[tactic(auto, unfolding(crate::specs::Moves::move_delta))]
fn write_move(w: &mut Writer, key: u32, from: &Move, to: &Move) -> Result<(), Overflow>
    ensures { Writes w.old w.new (move_delta w.old.words key from.now to.now) result }
{
    laws::texts_are_written();
    write_time(w, from.time, to.time)?;
    write_changed(w, key ^ to.time, &fields(from), &fields(to))
}

/// Writes a time after another: in 8 bits how far they are apart, if it is below 256, or else in 32.
fn write_time(w: &mut Writer, from: u32, to: u32) -> Result<(), Overflow>
    ensures { Writes w.old w.new (time_bits w.old.words from to) result }
{
    let difference = to.wrapping_sub(from);
    if difference < 256 {
        return w.put_all(&[(1, BIT), (difference, BYTE)]);
    }
    w.put_all(&[(0, BIT), (to, LONG)])
}

/// Writes a mark, and after a mark of change the fields.
fn write_changed(
    w: &mut Writer,
    key: u32,
    from: &[u32; FIELDS],
    to: &[u32; FIELDS],
) -> Result<(), Overflow>
    ensures { Writes w.old w.new (changed_bits w.old.words key from.now to.now) result }
{
    laws::texts_are_written();
    if from == to {
        return w.put(0, BIT);
    }
    w.put(1, BIT)?;
    write_fields(w, key, from, to)
}

/// Writes the fields.
fn write_fields(
    w: &mut Writer,
    key: u32,
    from: &[u32; FIELDS],
    to: &[u32; FIELDS],
) -> Result<(), Overflow>
    ensures { Writes w.old w.new (fields_bits w.old.words key move_widths from.now to.now) result }
{
    laws::texts_are_written();
    // what stands there fits the room
    prove!(w.length() > 0);
    for k in 0..FIELDS {
        write_field(w, key, WIDTHS[k], from[k], to[k])?;
    }
    Ok(())
}

/// Writes a mark, and after a mark of change the field, hidden.
fn write_field(w: &mut Writer, key: u32, width: u32, from: u32, to: u32) -> Result<(), Overflow>
    requires some { 1 ≤ width }
    requires most { width ≤ 16 }
    ensures { Writes w.old w.new (field_delta w.old.words key width from to) result }
{
    if from == to {
        return w.put(0, BIT);
    }
    w.put_all(&[(1, BIT), (hidden(key, width, to), width)])
}

/// Reads so many moves, each after the one before, the first after none.
pub(crate) fn read_moves(
    r: &mut Reader,
    key: u32,
    count: u32,
    into: &mut ArrayVec<Move, MOST_MOVES>,
) -> Result<(), ReadError>
    requires { count ≤ 32 }
    ensures { Reads r.old r.new (moves_at r.old.words key count no_move r.old.left) (holding into.new.items result) }
{
    into.clear();
    let mut from = Move::none();
    for _ in 0..count {
        from = read_move(r, key, &from)?;
        into.push(from);
    }
    Ok(())
}

/// Reads a move after another.
#[tactic(auto, unfolding(crate::specs::Moves::move_at))]
fn read_move(r: &mut Reader, key: u32, from: &Move) -> Result<Move, ReadError>
    ensures { Reads r.old r.new (move_at r.old.words key from.now r.old.left) result }
{
    let time = read_time(r, from.time)?;
    if r.get(BIT)? == 0 {
        return Ok(Move { time, ..*from });
    }
    let mut fields = fields(from);
    read_fields(r, key ^ time, &mut fields)?;
    Ok(move_from(time, &fields))
}

/// Reads a time after another.
#[tactic(auto, unfolding(crate::specs::Moves::time_at))]
fn read_time(r: &mut Reader, from: u32) -> Result<u32, ReadError>
    ensures { Reads r.old r.new (time_at r.old.words from r.old.left) result }
{
    if r.get(BIT)? == 0 {
        return r.get(LONG);
    }
    Ok(from.wrapping_add(r.get(BYTE)?))
}

/// Reads the fields over those that stand there.
fn read_fields(r: &mut Reader, key: u32, fields: &mut [u32; FIELDS]) -> Result<(), ReadError>
    requires { AreFields move_widths fields.old }
    ensures reads { Reads r.old r.new (fields_at r.old.words key move_widths fields.old r.old.left)
        (holding fields.new result) }
    ensures fit { AreFields move_widths fields.new }
{
    laws::lists_are_read();
    for k in 0..FIELDS {
        fields[k] = read_field(r, key, WIDTHS[k], fields[k])?;
    }
    Ok(())
}

/// Reads a mark, and after a mark of change the field.
#[tactic(auto, using(crate::proofs::Keys::hidden_fits))]
fn read_field(r: &mut Reader, key: u32, width: u32, from: u32) -> Result<u32, ReadError>
    requires some { 1 ≤ width }
    requires most { width ≤ 16 }
    requires fits { from < 2 ^ width }
    ensures reads { Reads r.old r.new (field_over r.old.words key width from r.old.left) result }
    ensures fits { IfOk result (λ field. field < 2 ^ width) }
{
    if r.get(BIT)? == 0 {
        return Ok(from);
    }
    Ok(hidden(key, width, r.get(width)?))
}
