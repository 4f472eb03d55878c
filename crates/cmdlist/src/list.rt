//! Recorded commands: a finished list, and commands lent.

ghost use Rattle.std.specs.Prelude.{◌≡◌, ◌≢◌, ◌≤◌, [], map, length, false, IsTrue};
ghost use Rattle.gfxspec.specs.Recorded.{issues, triangle_count};
ghost use Rattle.gfxspec.specs.Accepted.{AreAccepted};

use command::Command;
use std::alloc::Allocator;
use std::marker::Model;

/// A list of accepted commands, which can be executed any number of times. It inherits nothing: its state is the default
/// before its first command. No query is open at its end.
#[derive(Drop)]
pub struct CommandList<A: Allocator> {
    pub(crate) commands: Vec<Command<A>, A>,
    pub(crate) triangles: u32,
    pub(crate) issues: u32,
}

impl<A: Allocator> Model for CommandList<A> {
    ghost use Rattle.std.specs.Prelude.{List};
    ghost use Rattle.gfxspec.specs.Commands.{Command};

    ghost Value = { List Command };

    ghost use Rattle.cmdlist.specs.Recorder.{list_commands, IsFinished};

    ghost view = { list_commands };

    ghost invariant = { IsFinished };
}

impl<A: Allocator> CommandList<A> {
    ghost use Rattle.std.specs.Prelude.{[]};
    ghost use Rattle.gfxspec.specs.Recorded.{queries_open};
    ghost use Rattle.command.specs.Seen.{command_value};

    /// The commands in order, each accepted behind those before it.
    pub fn commands(&self) -> &[Command<A>]
        ensures commands { map command_value result.now ≡ self.now }
        ensures accepted { AreAccepted self.now }
        ensures none_open { queries_open self.now ≡ [] }
    {
        self.commands.as_slice()
    }

    /// The commands, lent with what was counted of them.
    pub fn recorded(&self) -> Commands<'_, A>
        ensures { result ≡ self.now }
    {
        Commands {
            commands: self.commands.as_slice(),
            triangles: self.triangles,
            issues: self.issues,
        }
    }
}

/// Commands lent, each accepted behind those before it, with what was counted while they were recorded.
#[derive(Drop)]
pub struct Commands<'a, A: Allocator> {
    pub(crate) commands: &'a [Command<A>],
    pub(crate) triangles: u32,
    pub(crate) issues: u32,
}

impl<'a, A: Allocator> Model for Commands<'a, A> {
    ghost use Rattle.std.specs.Prelude.{List};
    ghost use Rattle.gfxspec.specs.Commands.{Command};

    ghost Value = { List Command };

    ghost use Rattle.cmdlist.specs.Recorder.{lent_commands, AreCounted};

    ghost view = { lent_commands };

    ghost invariant = { AreCounted };
}

impl<'a, A: Allocator> Commands<'a, A> {
    ghost use Rattle.command.specs.Seen.{command_value};

    /// No command.
    pub fn none() -> Self
        ensures { result ≡ [] }
    {
        Commands {
            commands: &[],
            triangles: 0,
            issues: 0,
        }
    }

    /// The commands in order.
    pub fn as_slice(&self) -> &'a [Command<A>]
        ensures commands { map command_value result.now ≡ self.now }
        ensures accepted { AreAccepted self.now }
    {
        self.commands
    }

    /// How many triangles they draw.
    pub fn triangles(&self) -> u32
        ensures { result ≡ triangle_count self.now }
    {
        self.triangles
    }

    /// Whether they begin a query.
    pub fn begin_queries(&self) -> bool
        ensures yes { IsTrue result → issues self.now ≢ [] }
        ensures no { result ≡ false → issues self.now ≡ [] }
    {
        self.issues > 0
    }
}
