//! Laws of the server's end, each the contract of a call that does nothing but cite the laws below it.

ghost use Rattle.std.specs.Prelude.{◌≤◌, length};
ghost use Rattle.q3_built.specs.Built.{IsArea};
ghost use Rattle.q3_server.specs.Apart.{SlotsApart};
ghost use Rattle.q3_server.specs.Isolated.{SlotsIsolated};
ghost use Rattle.q3_server.specs.Standing.{Below};
ghost use Rattle.q3_server.specs.Laws.{MapStays, ServerStays, BeginsAsBuilt};

use q3_chan::laws as chan;
use q3_config::laws as config;
use q3_entity::laws as entity;
use q3_frames::laws as frames;
use q3_map::laws as map;
use q3_player::laws as player;

/// The laws on which it rests that what a server begins is well formed.
pub(crate) fn below()
    ensures { Below }
{
    q3_strings::laws::numbered_are_commands();
    entity::normal_is_normal();
    entity::none_are_baselines();
    entity::baseline_is_added();
    player::normal_is_normal();
    player::zero_is_normal();
    map::lists_stay_held();
    map::new_maps_tell();
    config::strings_stay();
    config::texts_stay();
    frames::base_is_near();
    frames::held_was_built();
    frames::nothing_is_held();
    chan::ends_gather();
    chan::ends_send();
}

/// Area bytes that are few are as a snapshot may have them.
pub(crate) fn is_area(area: &[u8])
    requires { length area.now ≤ 32 }
    ensures { IsArea area.now }
{}

/// The map is well formed before the first, and stays so, whatever the game hands in.
pub fn map_stays()
    ensures { MapStays }
{
    below();
}

/// A server is well formed with no client, and stays so, whatever the game hands in, whatever it emits and whatever bytes arrive.
pub fn server_stays()
    ensures { ServerStays }
{
    below();
}

/// What a server begins for a client is a message as it builds one, whatever was handed in and whatever came.
pub fn begins_built()
    ensures { BeginsAsBuilt }
{
    below();
}

/// A call for another client, or for the map alone, leaves a slot and all frames, in every state and whatever bytes arrive. An
/// emission to another client leaves a slot, and of its frames exactly those that have their entities by the ring's room and the
/// count of entities placed, which grows by one message's at most.
pub fn slots_apart()
    ensures { SlotsApart }
{
    frames::build_leaves_others();
}

/// What a datagram does to a client's slot, and what is answered, depends on the map, on the slot, and on who the clients are,
/// and not on what the other slots hold; any datagram leaves the map and all frames, and one for another slot, or for none,
/// leaves the slot.
pub fn slots_isolated()
    ensures { SlotsIsolated }
{
    slots_apart();
}
