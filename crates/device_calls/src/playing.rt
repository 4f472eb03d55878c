//! Lines of a script that are played on a device that stays.

ghost use Rattle.std.specs.Prelude.{◌≡◌, ◌≢◌, ◌<◌, ◌≤◌, ◌++◌, [], false, is_none, length, drop, replicate, option_to_list, None, Some, IfOk, OnOk, OnErr, IfSome};
ghost use Rattle.gfxspec.specs.Refusals.{AnswersBy};
ghost use Rattle.recorders.specs.Recording.{nothing_recorded};
ghost use Rattle.answers.specs.Lines.{answer_lines};
ghost use Rattle.device_calls.specs.Answers.{answer_of, ByHandle};
ghost use Rattle.device_calls.specs.Playing.{IsPlayed};

use crate::numbers::NO_MEMORY;
use answers::{Answer, answer_line};
use handles::{DeviceHandle, PlayerHandle};
use player::Player;
use std::alloc::{AllocError, Global};

/// How many bytes a line has that was played, and how many its answer line has, or 0.
#[repr(C)]
#[derive(Clone, Copy)]
pub struct LineTold {
    pub taken: u64,
    pub answer: u64,
}

/// A player whose contexts have recorded nothing, in a block of the heap.
fn create(alloc: Global) -> Result<Box<Player<Global>>, AllocError>
    ensures { IfOk result (λ player. player.value ≡ replicate 8 nothing_recorded) }
{
    let player = Player::new(alloc)?;
    Ok(Box::new(alloc, player)?)
}

/// A player whose contexts have recorded nothing. Refused with OutOfMemory alone, and then the handle is as it was.
#[unsafe(no_mangle)]
pub extern "C" fn yz_handle_player_create(alloc: Global, handle: &mut PlayerHandle) -> u32
    requires { handle.old.value ≡ None }
    ensures answer { AnswersBy [] (answer_of result) }
    ensures new { OnOk (answer_of result) (handle.new.value ≡ Some (replicate 8 nothing_recorded)) }
    ensures refused { OnErr (answer_of result) (handle.new ≡ handle.old) }
{
    match create(alloc) {
        Ok(player) => {
            handle.put(player);
            0
        }
        Err(_) => NO_MEMORY,
    }
}

/// Gives a player up, with its memory.
#[unsafe(no_mangle)]
pub extern "C" fn yz_handle_player_destroy(alloc: Global, handle: &mut PlayerHandle)
    requires { is_none handle.old.value ≡ false }
    ensures { handle.new.value ≡ None }
{
    drop(handle.take(alloc));
}

/// Writes the line of an answer, if there is one, to the front of an area: how many bytes it has.
fn spell(told: Option<Answer>, area: &mut [u8]) -> u64
    requires { 176 ≤ length area.old }
    ensures size { result ≡ length (answer_lines (option_to_list told)) }
    ensures written { area.new ≡ answer_lines (option_to_list told) ++ drop result area.old }
{
    match told {
        Some(answer) => {
            let line = answer_line(answer);
            let bytes = line.as_bytes();
            area[..bytes.len()].copy_from_slice(bytes);
            bytes.len() as u64
        }
        None => 0,
    }
}

/// Plays the line at the front of a text, by a player and a device. Its answer line comes to the front of an area, if it
/// asks. Answered by 0 or the number of the line's fault or of its call's refusal, and then all is as it was.
#[unsafe(no_mangle)]
pub extern "C" fn yz_handle_play_line(
    alloc: Global,
    player: &mut PlayerHandle,
    device: &mut DeviceHandle,
    text: &[u8],
    told: &mut LineTold,
    answer: &mut [u8],
) -> u32
    requires player { is_none player.old.value ≡ false }
    requires device { is_none device.old.value ≡ false }
    requires text { 0 < length text.now }
    requires room { 176 ≤ length answer.old }
    ensures played { ByHandle player.old.value player.new.value (λ p q. ByHandle device.old.value device.new.value (λ h k. IsPlayed text.now p h q k told.new answer.new result)) }
    ensures told { result ≢ 0 → told.new ≡ told.old }
    ensures untold { result ≢ 0 → answer.new ≡ answer.old }
{
    let mut contexts = player.take(alloc);
    let mut immediate = device.take(alloc);
    let played = contexts.play_line(alloc, &mut *immediate, text);
    player.put(contexts);
    device.put(immediate);
    match played {
        Ok((asked, rest)) => {
            *told = LineTold {
                taken: (text.len() - rest.len()) as u64,
                answer: spell(asked, answer),
            };
            0
        }
        Err(number) => number,
    }
}
