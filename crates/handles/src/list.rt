//! A command list in C's hands.

ghost use Rattle.std.specs.Prelude.{List, Option};
ghost use Rattle.gfxspec.specs.Commands.{Command};

use crate::Opaque;
use cmdlist::CommandList;
use lent_box::LentBox;
use std::alloc::Global;
use std::marker::Model;
use std::mem::replace;
use std::ptr::null_mut;

/// A command list that C holds, or none.
#[repr(C)]
#[derive(Drop)]
pub struct ListHandle {
    at: *mut Opaque,
    pub ghost value: { Option (List Command) },
}

impl Model for ListHandle {
    ghost use Rattle.std.specs.Prelude.{List, Option};
    ghost use Rattle.gfxspec.specs.Commands.{Command};
    ghost use Rattle.handles.specs.Lists.{owned};

    ghost also_owns = { λ h. owned h.at h.value };
}

impl ListHandle {
    ghost use Rattle.std.specs.Prelude.{◌≡◌, false, None, Some, is_none};

    /// None.
    pub fn none() -> Self
        ensures { result.value ≡ None }
    {
        ListHandle { at: null_mut() }
    }

    /// A lent one, as C holds it.
    fn lend(lent: LentBox<CommandList<Global>, Global>) -> Self
        ensures { result.value ≡ Some lent.value }
    {
        let LentBox { at, alloc: _ } = lent;
        ListHandle {
            at: at as *mut Opaque,
        }
    }

    /// The one that C held.
    fn back(self, alloc: Global) -> LentBox<CommandList<Global>, Global>
        requires { is_none self.value ≡ false }
        ensures { self.value ≡ Some result.value }
    {
        let ListHandle { at } = self;
        LentBox {
            at: at as *mut CommandList<Global>,
            alloc,
        }
    }

    /// Takes the one that C held, and leaves none.
    pub fn take(&mut self, alloc: Global) -> Box<CommandList<Global>>
        requires { is_none self.old.value ≡ false }
        ensures taken { self.old.value ≡ Some result.value }
        ensures none { self.new.value ≡ None }
    {
        replace(self, ListHandle::none()).back(alloc).into_box()
    }

    /// Puts one into C's hands, by a handle that holds none.
    pub fn put(&mut self, held: Box<CommandList<Global>>)
        requires { self.old.value ≡ None }
        ensures { self.new.value ≡ Some held.value }
    {
        *self = ListHandle::lend(LentBox::of(held));
    }
}

// It may go to another thread, since what it holds may, and the heap takes its block back on any.
unsafe impl Send for ListHandle {}
