//! Vertices and indices that lines, lists and settings share.

ghost use Rattle.std.specs.Prelude.{◌≡◌, [], IfOk};

use std::alloc::{AllocError, Allocator};
use std::marker::Model;
use std::sync::ArcSlice;

/// Values in order that are never changed, and are shared and not copied. An empty buffer takes no memory.
#[derive(Drop)]
pub struct Buffer<T, A: Allocator> {
    items: Option<ArcSlice<T, A>>,
}

impl<T, A: Allocator> Model for Buffer<T, A> {
    ghost use Rattle.std.specs.Prelude.{List, []};
    ghost use Rattle.std.specs.Option.{option_map_or};
    ghost use Rattle.std.specs.Arc.{arc_slice_items};

    ghost Value = { List T };

    ghost view = { λ buffer. option_map_or arc_slice_items buffer.items [] };
}

impl<T: Copy, A: Allocator + Copy> Buffer<T, A> {
    /// The buffer with nothing in it.
    pub fn new() -> Self
        ensures { result ≡ [] }
    {
        Buffer { items: None }
    }

    /// These values, none of which is copied.
    pub fn from_vec(values: Vec<T, A>) -> Result<Self, AllocError>
        ensures { IfOk result (λ buffer. buffer ≡ values.items) }
    {
        if values.is_empty() {
            return Ok(Buffer { items: None });
        }
        let items = ArcSlice::from_vec(values)?;
        Ok(Buffer { items: Some(items) })
    }

    /// A copy of some values.
    pub fn from_slice(alloc: A, values: &[T]) -> Result<Self, AllocError>
        ensures { IfOk result (λ buffer. buffer ≡ values.now) }
    {
        Buffer::from_vec(Vec::from_slice(alloc, values)?)
    }

    /// Its values.
    pub fn as_slice(&self) -> &[T]
        ensures { result.now ≡ self.now }
    {
        match &self.items {
            Some(items) => items.as_slice(),
            None => &[],
        }
    }

    /// The same values for one more owner.
    pub fn share(&self) -> Result<Self, AllocError>
        ensures { IfOk result (λ buffer. buffer ≡ self.now) }
    {
        match &self.items {
            Some(items) => Ok(Buffer {
                items: Some(items.clone()?),
            }),
            None => Ok(Buffer { items: None }),
        }
    }
}
