//! What is done for the clients in all slots at once: a new map begins for each, and those for which a gamestate was begun are
//! told of a change of a config string.
//! - Rules: "new map", "config changes as commands".
//! - Engine: `SV_SpawnServer` and `SV_SetConfigstring` (sv_init.c).
//! - Ours: that all clients must have room for all commands of a change.

ghost use Rattle.std.specs.Prelude.{◌≡◌, ◌<◌, ◌≤◌, None, All, IsTrue, length, map, option_map, position};
ghost use Rattle.q3_config.specs.Laws.{piece_texts};
ghost use Rattle.q3_config.specs.Strings as strings_spec;
ghost use Rattle.q3_config.specs.Strings.{is_config_byte, longest_string};
ghost use Rattle.q3_window.specs.Outgoing.{total_of};
ghost use Rattle.q3_slot.specs.Slot.{on_new_map};
ghost use Rattle.q3_slot.specs.Slots.{lacks_places, lacks_room, tells};
ghost use Rattle.q3_server.specs.Server.{places};

use q3_config::{piece, pieces};
use q3_slot::Slot;
use q3_text::Text;

/// A new map begins for each client.
pub fn begin_map(slots: &mut [Slot])
    ensures { slots.new ≡ map (option_map on_new_map) slots.old }
{
    for slot in slots.iter_mut() {
        slot.on_new_map();
    }
}

/// Tells each client for which a gamestate was begun of a change of a config string, for which all of them have room.
pub fn tell_all(slots: &mut [Slot], index: u32, text: &[u8])
    requires index { index < strings_spec.places }
    requires chars { All (λ byte. IsTrue (is_config_byte byte)) text.now }
    requires room { position (lacks_room (piece_texts index text.now)) slots.old ≡ None }
    ensures { slots.new ≡ map (option_map (tells (piece_texts index text.now))) slots.old }
{
    for slot in slots.iter_mut() {
        slot.tell(index, text);
    }
}

/// The least slot whose client is told of config changes and has no room for a change of a config string.
pub fn first_without_room(slots: &[Slot], index: u32, text: &[u8]) -> Option<u8>
    requires slots { length slots.now ≤ places }
    requires index { index < strings_spec.places }
    requires chars { All (λ byte. IsTrue (is_config_byte byte)) text.now }
    requires short { length text.now ≤ longest_string }
    ensures { result ≡ position (lacks_room (piece_texts index text.now)) slots.now }
{
    let count = pieces(text.len()) as u32;
    least_without_room(slots, count, size_of_pieces(index, text))
}

/// The same for so many commands, which have so many bytes together.
fn least_without_room(slots: &[Slot], count: u32, bytes: u32) -> Option<u8>
    requires { length slots.now ≤ places }
    ensures { result ≡ position (lacks_places count bytes) slots.now }
{
    let place = place_without_room(slots, count, bytes)?;
    Some(place as u8)
}

fn place_without_room(slots: &[Slot], count: u32, bytes: u32) -> Option<usize>
    ensures { result ≡ position (lacks_places count bytes) slots.now }
{
    slots.iter().position(|slot| slot.lacks_room(count, bytes))
}

/// How many bytes the commands of a change of a config string have together.
fn size_of_pieces(index: u32, text: &[u8]) -> u32
    requires index { index < strings_spec.places }
    requires chars { All (λ byte. IsTrue (is_config_byte byte)) text.now }
    requires short { length text.now ≤ longest_string }
    ensures { result ≡ total_of (piece_texts index text.now) }
{
    let mut bytes = 0;
    for k in 0..pieces(text.len()) {
        bytes += size_of(&piece(index, text, k));
    }
    bytes
}

fn size_of(text: &Text) -> u32
    ensures size { result ≡ length text.now }
    ensures short { result ≤ 1023 }
{
    text.bytes().len() as u32
}
