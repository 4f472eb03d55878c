//! A player of scripts in C's hands.

ghost use Rattle.std.specs.Prelude.{List, Option};
ghost use Rattle.recorders.specs.Recording.{Recording};

use crate::Opaque;
use lent_box::LentBox;
use player::Player;
use std::alloc::Global;
use std::marker::Model;
use std::mem::replace;
use std::ptr::null_mut;

/// A player of scripts that C holds, or none.
#[repr(C)]
#[derive(Drop)]
pub struct PlayerHandle {
    at: *mut Opaque,
    pub ghost value: { Option (List Recording) },
}

impl Model for PlayerHandle {
    ghost use Rattle.std.specs.Prelude.{List, Option};
    ghost use Rattle.recorders.specs.Recording.{Recording};
    ghost use Rattle.handles.specs.Players.{owned};

    ghost also_owns = { λ h. owned h.at h.value };
}

impl PlayerHandle {
    ghost use Rattle.std.specs.Prelude.{◌≡◌, false, None, Some, is_none};

    /// None.
    pub fn none() -> Self
        ensures { result.value ≡ None }
    {
        PlayerHandle { at: null_mut() }
    }

    /// A lent one, as C holds it.
    fn lend(lent: LentBox<Player<Global>, Global>) -> Self
        ensures { result.value ≡ Some lent.value }
    {
        let LentBox { at, alloc: _ } = lent;
        PlayerHandle {
            at: at as *mut Opaque,
        }
    }

    /// The one that C held.
    fn back(self, alloc: Global) -> LentBox<Player<Global>, Global>
        requires { is_none self.value ≡ false }
        ensures { self.value ≡ Some result.value }
    {
        let PlayerHandle { at } = self;
        LentBox {
            at: at as *mut Player<Global>,
            alloc,
        }
    }

    /// Takes the one that C held, and leaves none.
    pub fn take(&mut self, alloc: Global) -> Box<Player<Global>>
        requires { is_none self.old.value ≡ false }
        ensures taken { self.old.value ≡ Some result.value }
        ensures none { self.new.value ≡ None }
    {
        replace(self, PlayerHandle::none()).back(alloc).into_box()
    }

    /// Puts one into C's hands, by a handle that holds none.
    pub fn put(&mut self, held: Box<Player<Global>>)
        requires { self.old.value ≡ None }
        ensures { self.new.value ≡ Some held.value }
    {
        *self = PlayerHandle::lend(LentBox::of(held));
    }
}

// It may go to another thread, since what it holds may, and the heap takes its block back on any.
unsafe impl Send for PlayerHandle {}
