//! Laws of both ends over a schedule, each the contract of a call that does nothing but cite the laws below it.

ghost use Rattle.q3_world.specs.Apart.{SlotsApart};
ghost use Rattle.q3_world.specs.ByTags.{BytesFollowTags, StepFollows};
ghost use Rattle.q3_world.specs.Forgetting.{ForgettingIsAlike};
ghost use Rattle.q3_world.specs.Layers.{Layers};

use q3_chan::laws as chan;
use q3_client::laws as client;
use q3_config::laws as config;
use q3_entity::laws as entity;
use q3_frames::laws as frames;
use q3_map::laws as map;
use q3_messages::laws as messages;
use q3_player::laws as player;
use q3_rings::laws as rings;
use q3_server::laws as server;
use q3_window::laws as window;

/// What the laws over schedules use of the layers below.
pub fn layers()
    ensures { Layers }
{
    messages::built_is_read();
    messages::said_is_read();
    client::client_stays();
    server::map_stays();
    server::begins_built();
    client::begins_said();
    messages::begun_may_be_sent();
    entity::normal_is_normal();
    player::normal_is_normal();
    player::zero_is_normal();
    chan::sent_is_tagged();
    chan::qport_is_told();
    chan::tagged_does();
    chan::ends_gather();
    chan::ends_send();
    map::lists_stay_held();
    config::admitted_may_go();
    config::pieces_are_changes();
    config::pieces_are_texts();
    config::pieces_make_change();
    config::spelled_is_read();
    frames::nothing_is_held();
    frames::held_was_built();
    frames::build_keeps();
    frames::base_is_near();
    server::slots_apart();
    rings::nothing_stands();
    rings::accept_is_added();
    rings::accepted_is_held();
    rings::base_is_of_list();
    rings::held_was_accepted();
    rings::near_is_held_by_age();
    rings::usual_ring_holds();
    window::commands_flow();
    window::stays_outgoing();
}

/// A step of what stands for a whole world, where each datagram is taken by its bytes, is the whole world's step, where
/// each is taken by its tag until a line hands other bytes to an end.
pub fn step_follows()
    ensures { StepFollows }
{
    layers();
}

/// In a replay what is kept, where each datagram is taken by its bytes, stands for the whole world, where each is taken
/// by its tag until a line hands other bytes to an end, and each event answers the same.
pub fn bytes_follow_tags()
    ensures { BytesFollowTags }
{
    step_follows();
    layers();
}

/// An event that isn't of a client leaves its slot, its end, its address and its recording, in every state and whatever bytes
/// arrive; and all frames, but where another client is served: then it loses frames exactly by the ring's room and the count
/// of entities placed, which grows by one message's at most.
pub fn slots_apart()
    ensures { SlotsApart }
{
    layers();
}

/// Lines answer alike, and do alike to files, whatever datagrams were forgotten that none of them names; and a line makes one
/// datagram at most, and leaves all others.
pub fn forgetting_is_alike()
    ensures { ForgettingIsAlike }
{}
