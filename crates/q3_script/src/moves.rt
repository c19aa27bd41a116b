//! A client's move in a line.

ghost use Rattle.std.specs.Prelude.{◌≡◌, ◌≤◌, pos, neg_ℤ};
ghost use Rattle.q3_words.specs.Words.{words_left};
ghost use Rattle.q3_words.specs.Numbers as numbers_spec;
ghost use Rattle.q3_script.specs.Lines.{signed_byte_word, angles_at, steps_at, move_with};
ghost use Rattle.q3_script.specs.Lines as spec;

use crate::event::Event;
use q3_clmsg::Move;
use q3_words::words::{after_prefix, next_three, only_word};
use q3_words::{LineCause, client_word, number_word};

/// The number so far below 0.
fn negative(size: u32) -> i8
    requires { size ≤ 128 }
    ensures { result ≡ neg_ℤ (pos size) }
{
    (size as u8).wrapping_neg().cast_signed()
}

/// The number of a step: -128 to 127, with a `-` in front where it is below 0.
#[tactic(auto, unfolding(crate::specs::Lines::signed_byte_at))]
fn signed_byte(word: &[u8]) -> Result<i8, LineCause>
    ensures { result ≡ signed_byte_word word.now }
{
    if let Some(digits) = after_prefix(b"-", word) {
        let size = number_word(digits, 1, 128)?;
        return Ok(negative(size));
    }
    Ok(number_word(word, 0, 127)? as i8)
}

/// A number of 16 bits: an angle, or the buttons.
fn short(word: &[u8]) -> Result<u16, LineCause>
    ensures { result ≡ numbers_spec.number_word 0 65535 word.now }
{
    Ok(number_word(word, 0, 65_535)? as u16)
}

/// The three angles.
fn angles(pitch: &[u8], yaw: &[u8], roll: &[u8]) -> Result<[u16; 3], LineCause>
    ensures { result ≡ angles_at pitch.now yaw.now roll.now }
{
    Ok([short(pitch)?, short(yaw)?, short(roll)?])
}

/// Forward, right and up.
fn steps(forward: &[u8], right: &[u8], up: &[u8]) -> Result<(i8, i8, i8), LineCause>
    ensures { result ≡ steps_at forward.now right.now up.now }
{
    Ok((signed_byte(forward)?, signed_byte(right)?, signed_byte(up)?))
}

/// The move of these parts.
fn one_move(time: u32, angles: [u16; 3], steps: (i8, i8, i8), buttons: u16, weapon: u8) -> Move
    ensures { result ≡ move_with time angles steps buttons weapon }
{
    let (forward, right, up) = steps;
    Move {
        time,
        angles,
        forward,
        right,
        up,
        buttons,
        weapon,
    }
}

/// The move that the words that are left spell.
#[tactic(auto, using(crate::proofs::Steps::move_steps))]
pub fn move_line(left: &[u8]) -> Result<Event, LineCause>
    ensures { result ≡ spec.move_line (words_left left.now) }
{
    let (c, time, pitch, left) = next_three(left).ok_or(LineCause::Count)?;
    let (yaw, roll, forward, left) = next_three(left).ok_or(LineCause::Count)?;
    let (right, up, buttons, left) = next_three(left).ok_or(LineCause::Count)?;
    let weapon = only_word(left).ok_or(LineCause::Count)?;
    let c = client_word(c)?;
    let time = number_word(time, 0, u32::MAX)?;
    let angles = angles(pitch, yaw, roll)?;
    let steps = steps(forward, right, up)?;
    let buttons = short(buttons)?;
    let weapon = number_word(weapon, 0, 255)? as u8;
    Ok(Event::Move {
        c,
        one: one_move(time, angles, steps, buttons, weapon),
    })
}
