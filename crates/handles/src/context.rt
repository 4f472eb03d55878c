//! A deferred context in C's hands.

ghost use Rattle.std.specs.Prelude.{List, Option};
ghost use Rattle.gfxspec.specs.Commands.{Command};

use crate::Opaque;
use cmdlist::DeferredContext;
use lent_box::LentBox;
use std::alloc::Global;
use std::marker::Model;
use std::mem::replace;
use std::ptr::null_mut;

/// A deferred context that C holds, or none.
#[repr(C)]
#[derive(Drop)]
pub struct ContextHandle {
    at: *mut Opaque,
    pub ghost value: { Option (List Command) },
}

impl Model for ContextHandle {
    ghost use Rattle.std.specs.Prelude.{List, Option};
    ghost use Rattle.gfxspec.specs.Commands.{Command};
    ghost use Rattle.handles.specs.Contexts.{owned};

    ghost also_owns = { λ h. owned h.at h.value };
}

impl ContextHandle {
    ghost use Rattle.std.specs.Prelude.{◌≡◌, false, None, Some, is_none};

    /// None.
    pub fn none() -> Self
        ensures { result.value ≡ None }
    {
        ContextHandle { at: null_mut() }
    }

    /// A lent one, as C holds it.
    fn lend(lent: LentBox<DeferredContext<Global>, Global>) -> Self
        ensures { result.value ≡ Some lent.value }
    {
        let LentBox { at, alloc: _ } = lent;
        ContextHandle {
            at: at as *mut Opaque,
        }
    }

    /// The one that C held.
    fn back(self, alloc: Global) -> LentBox<DeferredContext<Global>, Global>
        requires { is_none self.value ≡ false }
        ensures { self.value ≡ Some result.value }
    {
        let ContextHandle { at } = self;
        LentBox {
            at: at as *mut DeferredContext<Global>,
            alloc,
        }
    }

    /// Takes the one that C held, and leaves none.
    pub fn take(&mut self, alloc: Global) -> Box<DeferredContext<Global>>
        requires { is_none self.old.value ≡ false }
        ensures taken { self.old.value ≡ Some result.value }
        ensures none { self.new.value ≡ None }
    {
        replace(self, ContextHandle::none()).back(alloc).into_box()
    }

    /// Puts one into C's hands, by a handle that holds none.
    pub fn put(&mut self, held: Box<DeferredContext<Global>>)
        requires { self.old.value ≡ None }
        ensures { self.new.value ≡ Some held.value }
    {
        *self = ContextHandle::lend(LentBox::of(held));
    }
}

// It may go to another thread, since what it holds may, and the heap takes its block back on any.
unsafe impl Send for ContextHandle {}
