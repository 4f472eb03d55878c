//! Lists, cut into segments that are compiled apart.

ghost use Rattle.std.specs.Prelude.{◌≡◌, ◌++◌, [], ℕ, Bool, map, OnOk};
ghost use Rattle.gfxspec.specs.Recorded.{items, issues as issues_of};
ghost use Rattle.gfxspec.specs.Predication.{performed};
ghost use Rattle.gfxspec.specs.Accepted.{AreAccepted};
ghost use Rattle.command.specs.Seen.{command_value};
ghost use Rattle.binner.specs.Segments.{cut_items};

use assemble::uncut_triangles;
use cmdlist::{Command, Settings};
use gfxspec::{LIST_LIMIT, Topology};
use std::alloc::{AllocError, Allocator};
use std::marker::Model;

/// A part of a list, as a list of its own, which begins from the default state and begins no query.
#[derive(Drop)]
pub struct Segment<A: Allocator> {
    pub(crate) commands: Vec<Command<A>, A>,
    /// No fewer triangles than it draws.
    drawn: u32,
}

impl<A: Allocator> Model for Segment<A> {
    ghost use Rattle.std.specs.Prelude.{List, map};
    ghost use Rattle.gfxspec.specs.Commands.{Command};
    ghost use Rattle.command.specs.Seen.{command_value};
    ghost use Rattle.binner.specs.Segments.{IsSegment};

    ghost Value = { List Command };

    ghost view = { λ s. map command_value s.commands.items };

    ghost invariant = { λ s. IsSegment (map command_value s.commands.items) };
}

impl<A: Allocator> Segment<A> {
    /// No fewer triangles than the segment draws.
    pub fn most_triangles(&self) -> usize {
        self.drawn as usize
    }
}

/// A segment to which commands are added: those so far, the settings behind them, and no fewer triangles than they draw.
#[derive(Drop)]
struct OpenSegment<A: Allocator> {
    commands: Vec<Command<A>, A>,
    settings: Settings<A>,
    drawn: u32,
}

impl<A: Allocator> Model for OpenSegment<A> {
    ghost use Rattle.std.specs.Prelude.{List, map};
    ghost use Rattle.gfxspec.specs.Commands.{Command};
    ghost use Rattle.command.specs.Seen.{command_value, settings_value};
    ghost use Rattle.binner.specs.Segments.{IsOpenSegment};

    ghost Value = { List Command };

    ghost view = { λ s. map command_value s.commands.items };

    ghost invariant = { λ s. IsOpenSegment (map command_value s.commands.items) (settings_value s.settings) };
}

/// A draw: of vertices as they lie, or of indices with a base.
#[derive(Clone, Copy)]
struct DrawCall {
    count: u32,
    start: u32,
    base: Option<i32>,
}

impl DrawCall {
    ghost use Rattle.std.specs.Prelude.{◌≡◌, IfSome};
    ghost use Rattle.command.specs.Seen.{command_value};
    ghost use Rattle.binner.specs.Segments.{draw_of};

    /// The draw that a command is.
    fn of<A: Allocator>(command: &Command<A>) -> Option<DrawCall>
        ensures { IfSome result (λ d. command_value command.now ≡ draw_of d.base d.count d.start) }
    {
        let (count, start, base) = match command {
            Command::Draw(count, start) => (*count, *start, None),
            Command::DrawIndexed(count, start, base) => (*count, *start, Some(*base)),
            _ => return None,
        };
        Some(DrawCall { count, start, base })
    }

    /// The draw as a command.
    fn command<A: Allocator>(self) -> Command<A>
        ensures { command_value result ≡ draw_of self.base self.count self.start }
    {
        match self.base {
            None => Command::Draw(self.count, self.start),
            Some(base) => Command::DrawIndexed(self.count, self.start, base),
        }
    }
}

impl<A: Allocator + Copy> OpenSegment<A> {
    ghost use Rattle.std.specs.Prelude.{◌≡◌, ◌<◌, ◌≤◌, ◌∷◌, ◌++◌, [], List, Some, OnOk, IfOk, IsTrue};
    ghost use Rattle.gfxspec.specs.declared.state.Topology.TheVariants.{TriangleList};
    ghost use Rattle.gfxspec.specs.Commands.{Command as Call};
    ghost use Rattle.gfxspec.specs.Recorded.{settings_after};
    ghost use Rattle.command.specs.Seen.{command_value};
    ghost use Rattle.binner.specs.Segments.{CanFollow, IsMore, IsSame, draw_of};

    /// No command, under the default settings.
    fn new(alloc: A) -> Self
        ensures { result ≡ [] }
    {
        OpenSegment {
            commands: Vec::new(alloc),
            settings: Settings::new(),
            drawn: 0,
        }
    }

    /// No fewer triangles than a draw has under the settings behind the segment.
    fn most_triangles(&self, draw: DrawCall) -> u32 {
        match self.settings.topology {
            Some(topology) => uncut_triangles(topology, draw.count),
            None => 0,
        }
    }

    /// Whether each three vertices of a draw are a triangle of their own, so that it can be cut.
    fn draws_lists(&self) -> bool
        ensures { IsTrue result → (settings_after self.now).topology ≡ Some TriangleList }
    {
        matches!(self.settings.topology, Some(Topology::TriangleList))
    }

    /// One more command that is no draw.
    fn push(self, command: Command<A>) -> Result<Self, AllocError>
        requires follows { CanFollow (settings_after self) (command_value command) }
        ensures { (finished : List (List Call)) → IfOk result (λ s. IsMore (command_value command) finished self finished s) }
    {
        let OpenSegment {
            commands,
            settings,
            drawn,
        } = self;
        let mut commands = commands;
        let mut settings = settings;
        settings.change(&command)?;
        commands.push(command)?;
        Ok(OpenSegment {
            commands,
            settings,
            drawn,
        })
    }

    /// One more draw, which changes no setting.
    fn push_draw(self, draw: DrawCall) -> Result<Self, AllocError>
        requires follows { CanFollow (settings_after self) (draw_of draw.base draw.count draw.start) }
        ensures { (finished : List (List Call)) → IfOk result (λ s. IsMore (draw_of draw.base draw.count draw.start) finished self finished s) }
    {
        let more = self.most_triangles(draw);
        let OpenSegment {
            commands,
            settings,
            drawn,
        } = self;
        let mut commands = commands;
        commands.push(draw.command())?;
        Ok(OpenSegment {
            commands,
            settings,
            drawn: drawn.saturating_add(more),
        })
    }

    /// The segment is finished, and another one begins under the settings behind it.
    fn finish(self, alloc: A, segments: &mut Vec<Segment<A>, A>) -> Result<Self, AllocError>
        ensures { IfOk result (λ s. IsSame segments.old.items self segments.new.items s) }
    {
        let OpenSegment {
            commands,
            settings,
            drawn,
        } = self;
        let kept = Command::Kept(Box::new(alloc, settings.share()?)?);
        segments.push(Segment { commands, drawn })?;
        let mut commands = Vec::new(alloc);
        commands.push(kept)?;
        Ok(OpenSegment {
            commands,
            settings,
            drawn: 0,
        })
    }

    /// The segment is finished where it has drawn so many triangles and the draw has more.
    fn finish_where_full(
        self,
        alloc: A,
        draw: DrawCall,
        triangles: u32,
        segments: &mut Vec<Segment<A>, A>,
    ) -> Result<Self, AllocError>
        ensures { IfOk result (λ s. IsSame segments.old.items self segments.new.items s) }
    {
        if self.most_triangles(draw) == 0 || self.drawn < triangles {
            return Ok(self);
        }
        self.finish(alloc, segments)
    }

    /// The last segment of a list is finished.
    fn end(self, segments: &mut Vec<Segment<A>, A>) -> Result<(), AllocError>
        ensures { OnOk result (segments.new.items ≡ segments.old.items ++ self ∷ []) }
    {
        segments.push(Segment {
            commands: self.commands,
            drawn: self.drawn,
        })?;
        Ok(())
    }

    /// How many more triangles the segment may draw of so many, but no fewer than one and no more than a list has.
    fn room(&self, triangles: u32) -> u32
        ensures some { 0 < result }
        ensures few { result ≤ 65536 }
    {
        triangles.saturating_sub(self.drawn).clamp(1, LIST_LIMIT)
    }

    /// A draw of a triangle list, as several draws where it is cut.
    fn add_parts(
        self,
        alloc: A,
        draw: DrawCall,
        triangles: u32,
        segments: &mut Vec<Segment<A>, A>,
    ) -> Result<Self, AllocError>
        requires follows { CanFollow (settings_after self) (draw_of draw.base draw.count draw.start) }
        requires listed { (settings_after self).topology ≡ Some TriangleList }
        ensures { IfOk result (λ s. IsMore (draw_of draw.base draw.count draw.start) segments.old.items self segments.new.items s) }
    {
        let base = draw.base;
        let mut opened = self;
        let mut count = draw.count;
        let mut start = draw.start;
        let mut room = opened.room(triangles);
        while room < count / 3 {
            let part = 3 * room;
            let first = DrawCall {
                count: part,
                start,
                base,
            };
            let full = opened.push_draw(first)?;
            opened = full.finish(alloc, segments)?;
            count -= part;
            start += part;
            room = opened.room(triangles);
        }
        opened.push_draw(DrawCall { count, start, base })
    }

    /// The next draw of a list, behind a cut where the segment is full.
    fn add_draw(
        self,
        alloc: A,
        draw: DrawCall,
        triangles: u32,
        segments: &mut Vec<Segment<A>, A>,
    ) -> Result<Self, AllocError>
        requires follows { CanFollow (settings_after self) (draw_of draw.base draw.count draw.start) }
        ensures { IfOk result (λ s. IsMore (draw_of draw.base draw.count draw.start) segments.old.items self segments.new.items s) }
    {
        let roomy = self.finish_where_full(alloc, draw, triangles, segments)?;
        if roomy.draws_lists() {
            return roomy.add_parts(alloc, draw, triangles, segments);
        }
        roomy.push_draw(draw)
    }

    /// The next command of a list.
    fn add(
        self,
        alloc: A,
        command: &Command<A>,
        triangles: u32,
        segments: &mut Vec<Segment<A>, A>,
    ) -> Result<Self, AllocError>
        requires follows { CanFollow (settings_after self) (command_value command.now) }
        ensures { IfOk result (λ s. IsMore (command_value command.now) segments.old.items self segments.new.items s) }
    {
        match DrawCall::of(command) {
            Some(draw) => self.add_draw(alloc, draw, triangles, segments),
            None => self.push(command.share(alloc)?),
        }
    }
}

/// Adds a list to segments: its commands, which begin no query, cut where a segment has drawn so many triangles, at least one. A
/// draw of a triangle list is cut too, and one of a strip stands in one segment. What the commands hold is shared with the list.
/// Without memory the segments are to be given up.
pub fn cut<A: Allocator + Copy>(
    alloc: A,
    commands: &[Command<A>],
    triangles: u32,
    segments: &mut Vec<Segment<A>, A>,
) -> Result<(), AllocError>
    requires accepted { AreAccepted (map command_value commands.now) }
    requires unissued { issues_of (map command_value commands.now) ≡ [] }
    ensures means { (results : ℕ → Bool) → OnOk result (cut_items results segments.new.items ≡ cut_items results segments.old.items ++ items (performed results (map command_value commands.now))) }
{
    let mut opened = OpenSegment::new(alloc);
    for command in commands {
        opened = opened.add(alloc, command, triangles, segments)?;
    }
    opened.end(segments)
}
