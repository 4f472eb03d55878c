//! Where an offer waits for one thread.

use crate::bell::Bell;
use std::sync::{Mutex, Wait};

/// A place for one offer to one thread, which another can take back.
#[derive(Drop)]
pub(crate) struct Mailbox<'a, T: Drop> {
    mail: Mutex<Option<T>>,
    bell: &'a Bell,
}

impl<'a, T: Drop> Mailbox<'a, T> {
    /// A mailbox of the thread at this bell.
    pub(crate) fn new(bell: &'a Bell) -> Mailbox<'a, T> {
        Mailbox {
            mail: Mutex::new(None),
            bell,
        }
    }

    /// The bell of its thread.
    pub(crate) fn bell(&self) -> &'a Bell {
        self.bell
    }

    /// Puts an offer there and calls the thread, and says whether that sleeps: then whoever put it has to ring.
    pub(crate) fn put<R: Wait>(&self, rt: &R, offer: T) -> bool {
        let mut mail = self.mail.lock(rt);
        *mail = Some(offer);
        drop(mail);
        self.bell.call(rt)
    }

    /// Takes the offer that lies there.
    pub(crate) fn take<R: Wait>(&self, rt: &R) -> Option<T> {
        self.mail.lock(rt).take()
    }
}
