//! A scene: the size of the target, and lines of commands.

use command::Command;
use gfxspec::Size;
use std::alloc::{Allocator, Global};

/// Who takes a line: the immediate context, or a deferred one by its number, 0 to 7.
#[derive(Clone, Copy, Debug, PartialEq, Eq)]
pub enum Actor {
    Immediate,
    Deferred(u32),
}

/// A command word with its arguments in order.
#[derive(Drop)]
pub enum Verb<A: Allocator> {
    /// A call that either kind of context records. A script says no kept state.
    Record(Command<A>),
    /// Whether the context keeps its state for the next list.
    Finish(bool),
    Flush,
    /// The deferred context, the number of its list, and whether the immediate context keeps its state.
    Execute(u32, u32, bool),
    /// The number of a query.
    Query(u32),
    /// Its place, counted from the left and from the top.
    Pixel(u32, u32),
}

#[derive(Drop)]
pub struct Line<A: Allocator> {
    pub actor: Actor,
    pub verb: Verb<A>,
}

// A script of 60 MB has millions of lines.
const _: () = prove!(size_of::<Line<Global>>() <= 40);

/// The size that the first line gives, and the lines behind it in order.
#[derive(Drop)]
pub struct Scene<A: Allocator> {
    pub size: Size,
    pub lines: Vec<Line<A>, A>,
}
