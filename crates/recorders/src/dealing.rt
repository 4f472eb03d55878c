//! Whose the lines of a scene are.

ghost use Rattle.std.specs.Prelude.{◌≡◌, ◌<◌, length, map, IfOk};
ghost use Rattle.scenetext.specs.Seen.{actor_value, line_value};
ghost use Rattle.recorders.specs.Apart.{line_at};
ghost use Rattle.recorders.specs.Dealing.{taker_of, places_of, place_at};

use crate::rows::empty_rows;
use scenetext::{Actor, Line};
use std::alloc::{AllocError, Allocator};
use std::marker::Model;

/// The lines of a scene, and the places of each taker's own, rising. Takers 0 to 3 are the recorders, each of contexts k and
/// k + 4, and taker 4 is the caller, who takes the lines of the immediate context.
#[derive(Drop)]
pub struct DealtLines<'a, A: Allocator> {
    lines: &'a [Line<A>],
    places: Vec<Vec<usize, A>, A>,
}

impl<'a, A: Allocator> Model for DealtLines<'a, A> {
    ghost use Rattle.std.specs.Prelude.{List, map};
    ghost use Rattle.scenetext.specs.Scene.{Line};
    ghost use Rattle.scenetext.specs.Seen.{line_value};
    ghost use Rattle.recorders.specs.Dealing.{AreDealt};

    ghost Value = { List Line };

    ghost view = { λ d. map line_value d.lines.now };

    ghost invariant = { λ d. AreDealt (map line_value d.lines.now) (map (λ row. row.items) d.places.items) };
}

/// The number of the caller as a taker.
pub const CALLER: usize = 4;

fn taker_of(actor: Actor) -> usize
    ensures taker { result ≡ taker_of (actor_value actor) }
    ensures one { result < 5 }
{
    match actor {
        Actor::Immediate => CALLER,
        Actor::Deferred(context) => (context % 4) as usize,
    }
}

/// Deals the lines, going over them once.
pub fn deal<A: Allocator + Copy>(
    alloc: A,
    lines: &[Line<A>],
) -> Result<DealtLines<'_, A>, AllocError>
    ensures { IfOk result (λ dealt. dealt ≡ map line_value lines.now) }
{
    let mut places = empty_rows(alloc, 5);
    if places.len() < 5 {
        return Err(AllocError);
    }
    for place in 0..lines.len() {
        places[taker_of(lines[place].actor)].push(place)?;
    }
    Ok(DealtLines { lines, places })
}

impl<'a, A: Allocator> DealtLines<'a, A> {
    /// How many lines there are, those of all takers.
    pub fn len(&self) -> usize
        ensures { result ≡ length self.now }
    {
        self.lines.len()
    }

    /// How many lines are a taker's.
    pub fn count(&self, taker: usize) -> usize
        requires { taker < 5 }
        ensures { result ≡ length (places_of taker 0 self.now) }
    {
        self.places[taker].len()
    }

    /// A taker's line of a number, and before it its place among all lines.
    pub fn line(&self, taker: usize, number: usize) -> (usize, &Line<A>)
        requires taker { taker < 5 }
        requires number { number < length (places_of taker 0 self.now) }
        ensures place { result.0 ≡ place_at taker self.now number }
        ensures line { line_value result.1.now ≡ line_at self.now (place_at taker self.now number) }
    {
        let (lines, places) = (self.lines, self.places[taker].as_slice());
        let place = places[number];
        (place, &lines[place])
    }
}
