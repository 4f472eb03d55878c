//! A device in C's hands.

ghost use Rattle.std.specs.Prelude.{Option};
ghost use Rattle.immediate.specs.Held.{Held};

use crate::Opaque;
use immediate::ImmediateContext;
use lent_box::LentBox;
use std::alloc::Global;
use std::marker::Model;
use std::mem::replace;
use std::ptr::null_mut;

/// A device that C holds, or none.
#[repr(C)]
#[derive(Drop)]
pub struct DeviceHandle {
    at: *mut Opaque,
    pub ghost value: { Option Held },
}

impl Model for DeviceHandle {
    ghost use Rattle.std.specs.Prelude.{Option};
    ghost use Rattle.immediate.specs.Held.{Held};
    ghost use Rattle.handles.specs.Devices.{owned};

    ghost also_owns = { λ h. owned h.at h.value };
}

impl DeviceHandle {
    ghost use Rattle.std.specs.Prelude.{◌≡◌, false, None, Some, is_none};

    /// None.
    pub fn none() -> Self
        ensures { result.value ≡ None }
    {
        DeviceHandle { at: null_mut() }
    }

    /// A lent one, as C holds it.
    fn lend(lent: LentBox<ImmediateContext<Global>, Global>) -> Self
        ensures { result.value ≡ Some lent.value }
    {
        let LentBox { at, alloc: _ } = lent;
        DeviceHandle {
            at: at as *mut Opaque,
        }
    }

    /// The one that C held.
    fn back(self, alloc: Global) -> LentBox<ImmediateContext<Global>, Global>
        requires { is_none self.value ≡ false }
        ensures { self.value ≡ Some result.value }
    {
        let DeviceHandle { at } = self;
        LentBox {
            at: at as *mut ImmediateContext<Global>,
            alloc,
        }
    }

    /// Takes the one that C held, and leaves none.
    pub fn take(&mut self, alloc: Global) -> Box<ImmediateContext<Global>>
        requires { is_none self.old.value ≡ false }
        ensures taken { self.old.value ≡ Some result.value }
        ensures none { self.new.value ≡ None }
    {
        replace(self, DeviceHandle::none()).back(alloc).into_box()
    }

    /// Puts one into C's hands, by a handle that holds none.
    pub fn put(&mut self, held: Box<ImmediateContext<Global>>)
        requires { self.old.value ≡ None }
        ensures { self.new.value ≡ Some held.value }
    {
        *self = DeviceHandle::lend(LentBox::of(held));
    }
}

// It may go to another thread, since what it holds may, and the heap takes its block back on any.
unsafe impl Send for DeviceHandle {}
