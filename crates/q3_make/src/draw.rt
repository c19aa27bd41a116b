//! The drawn lines of a script that a seed makes.

ghost use Rattle.std.specs.Prelude.{◌≡◌, ◌+◌, ◌<◌, ◌≤◌, ◌++◌, length, decimal, All, IfOk};
ghost use Rattle.q3_text.specs.Texts.{IsTextByte};
ghost use Rattle.q3_make.specs.Generated.{walking};
ghost use Rattle.q3_make.specs.Generated as spec;

use arrayvec::ArrayVec;
use itoa::Buffer;
use q3_bits::NoMemory;
use q3_clmsg::Move;
use q3_entity::EntityState;
use q3_player::PlayerState;
use q3_script::Event;
use q3_text::Text;
use q3_text::laws::text_laws;
use q3_words::{Bytes, KeptEntity, KeptPlayer, KeptText};
use rand_core::utils::NextWord;
use rand_pcg::Lcg64Xsh32;
use std::alloc::Global;

/// For how many bytes there is room in the text of a drawn line.
const MOST_BYTES: usize = 64;

/// The next word modulo `n`.
#[tactic(auto, unfolding(crate::specs::Generated::draw))]
fn draw(generator: &mut Lcg64Xsh32, n: u32) -> u32
    requires { 0 < n }
    ensures value { (result, generator.new) ≡ spec.draw n generator.old }
    ensures below { result < n }
{
    generator.next_word() % n
}

/// An entity with one word.
pub(crate) fn entity_with(number: u16, place: usize, word: u32) -> EntityState
    requires { place < 64 }
    ensures { result ≡ spec.entity_with number place word }
{
    let mut state = EntityState::zero(number);
    state.words[place] = word;
    state
}

/// A player with one word and one stat.
fn player_with(place: usize, word: u32, stat: usize, value: u8) -> PlayerState
    requires { (place < 64) × (stat < 16) }
    ensures { result ≡ spec.player_with place word stat value }
{
    let mut player = PlayerState::zero();
    player.words[place] = word;
    player.stats[stat] = i16::from(value);
    player
}

/// A word and a number after it.
fn numbered(word: &[u8], number: u32) -> ArrayVec<u8, MOST_BYTES>
    requires { length word.now ≤ 6 }
    ensures { result.items ≡ word.now ++ decimal number }
{
    let mut digits = Buffer::new();
    let mut text = ArrayVec::new();
    let _ = text.try_extend_from_slice(word);
    let _ = text.try_extend_from_slice(digits.format(number).as_bytes());
    text
}

/// The text of a word and a number after it.
fn text_with(word: &[u8], number: u32) -> Text
    requires short { length word.now ≤ 6 }
    requires letters { All IsTextByte word.now }
    ensures { result ≡ word.now ++ decimal number }
{
    text_laws();
    Text::of(&numbered(word, number)).unwrap_or_default()
}

/// The server's time at a drawn line.
fn time_at(i: u32) -> u32
    requires { i ≤ 65000 }
    ensures { result ≡ spec.time_at i }
{
    1_000 + 10 * i
}

/// An entity with one word.
fn entity_line(alloc: Global, generator: &mut Lcg64Xsh32) -> Result<Event, NoMemory>
    ensures { IfOk result (λ event. (event, generator.new) ≡ spec.entity_line generator.old) }
{
    let number = 1 + draw(generator, 200);
    let place = draw(generator, 4);
    let word = draw(generator, 1_000);
    Ok(Event::Entity {
        state: KeptEntity::of(alloc, &entity_with(number as u16, place as usize, word))?,
    })
}

/// An entity that is gone.
fn remove_line(generator: &mut Lcg64Xsh32) -> Event
    ensures { (result, generator.new) ≡ spec.remove_line generator.old }
{
    Event::Remove {
        number: (1 + draw(generator, 200)) as u16,
    }
}

/// A client.
fn draw_client(generator: &mut Lcg64Xsh32) -> u8
    ensures value { (result, generator.new) ≡ spec.draw 4 generator.old }
{
    draw(generator, 4) as u8
}

/// A player with one word and one stat.
fn player_line(alloc: Global, generator: &mut Lcg64Xsh32) -> Result<Event, NoMemory>
    ensures { IfOk result (λ event. (event, generator.new) ≡ spec.player_line generator.old) }
{
    let c = draw_client(generator);
    let place = draw(generator, 4);
    let word = draw(generator, 1_000);
    let stat = draw(generator, 16);
    let value = draw(generator, 200);
    let player = player_with(place as usize, word, stat as usize, value as u8);
    Ok(Event::Player {
        c,
        player: KeptPlayer::of(alloc, &player)?,
    })
}

/// A command to a client.
fn say_line(alloc: Global, i: u32, generator: &mut Lcg64Xsh32) -> Result<Event, NoMemory>
    ensures { IfOk result (λ event. (event, generator.new) ≡ spec.say_line i generator.old) }
{
    Ok(Event::Say {
        c: draw_client(generator),
        text: KeptText::of(alloc, &text_with(b"chat ", i))?,
    })
}

/// A command of a client.
fn type_line(alloc: Global, i: u32, generator: &mut Lcg64Xsh32) -> Result<Event, NoMemory>
    ensures { IfOk result (λ event. (event, generator.new) ≡ spec.type_line i generator.old) }
{
    Ok(Event::TypeText {
        c: draw_client(generator),
        text: KeptText::of(alloc, &text_with(b"cmd ", i))?,
    })
}

/// A move of a client.
fn move_line(i: u32, generator: &mut Lcg64Xsh32) -> Event
    requires { i ≤ 65000 }
    ensures { (result, generator.new) ≡ spec.move_line i generator.old }
{
    let c = draw_client(generator);
    let pitch = draw(generator, 65_536) as u16;
    let yaw = draw(generator, 65_536) as u16;
    let forward = draw(generator, 128) as u8;
    let buttons = draw(generator, 16) as u16;
    Event::Move {
        c,
        one: walks(time_at(i), [pitch, yaw, 0], forward, buttons),
    }
}

/// The move of a player who walks forward.
fn walks(time: u32, angles: [u16; 3], forward: u8, buttons: u16) -> Move
    requires { forward < 128 }
    ensures { result ≡ walking time angles forward buttons }
{
    let mut one = Move::none();
    one.time = time;
    one.angles = angles;
    one.forward = forward.cast_signed();
    one.buttons = buttons;
    one
}

/// A datagram from the server.
fn serve_line(generator: &mut Lcg64Xsh32) -> Event
    ensures { (result, generator.new) ≡ spec.serve_line generator.old }
{
    Event::Serve {
        c: draw_client(generator),
    }
}

/// A datagram from a client.
fn send_line(generator: &mut Lcg64Xsh32) -> Event
    ensures { (result, generator.new) ≡ spec.send_line generator.old }
{
    Event::Send {
        c: draw_client(generator),
    }
}

/// One of the last 24 datagrams arrives.
fn deliver_line(made: u32, generator: &mut Lcg64Xsh32) -> Event
    requires { 0 < made }
    ensures { (result, generator.new) ≡ spec.deliver_line made generator.old }
{
    let back = draw(generator, made.min(24));
    Event::Deliver {
        datagram: made - back,
    }
}

/// A config string changes.
fn config_line(alloc: Global, i: u32, generator: &mut Lcg64Xsh32) -> Result<Event, NoMemory>
    ensures { IfOk result (λ event. (event, generator.new) ≡ spec.config_line i generator.old) }
{
    Ok(Event::Config {
        index: 2 + draw(generator, 40),
        text: Bytes::of(alloc, &numbered(b"value ", i))?,
    })
}

/// The line of a kind.
fn line_of(
    alloc: Global,
    kind: u32,
    i: u32,
    made: u32,
    generator: &mut Lcg64Xsh32,
) -> Result<Event, NoMemory>
    requires line { i ≤ 65000 }
    requires some { 0 < made }
    ensures { IfOk result (λ event. (event, generator.new) ≡ spec.line_of kind i made generator.old) }
{
    match kind {
        0..=1 => entity_line(alloc, generator),
        2 => Ok(remove_line(generator)),
        3 => player_line(alloc, generator),
        4 => Ok(Event::Time { time: time_at(i) }),
        5 => say_line(alloc, i, generator),
        6 => type_line(alloc, i, generator),
        7 => Ok(move_line(i, generator)),
        8..=11 => Ok(serve_line(generator)),
        12..=13 => Ok(send_line(generator)),
        14..=16 => Ok(deliver_line(made, generator)),
        _ => config_line(alloc, i, generator),
    }
}

/// The drawn line of a number, after so many datagrams.
#[tactic(auto, unfolding(crate::specs::Generated::drawn_line))]
pub(crate) fn drawn_line(
    alloc: Global,
    i: u32,
    made: u32,
    generator: &mut Lcg64Xsh32,
) -> Result<Event, NoMemory>
    requires line { i ≤ 65000 }
    requires some { 0 < made }
    ensures { IfOk result (λ event. (event, generator.new) ≡ spec.drawn_line i made generator.old) }
{
    let kind = draw(generator, 18);
    line_of(alloc, kind, i, made, generator)
}

/// How many datagrams a line makes.
pub(crate) fn made_by(event: &Event) -> u32
    ensures { result ≡ spec.made_by event.now }
{
    match event {
        Event::Serve { .. } | Event::Send { .. } => 1,
        _ => 0,
    }
}
