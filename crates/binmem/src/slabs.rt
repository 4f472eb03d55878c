//! All slabs, as one memory of chunks: the chunk with the number 16 s + c is chunk c of slab s.
ghost use Rattle.std.specs.Prelude.{◌≡◌, ◌+◌, ◌<◌, ◌≤◌, ◌∷◌, ◌++◌, [], length, if◌then◌else◌, is_ok, IfOk, slice_set};
ghost use Rattle.std.specs.Vec.{vec_capacity};
ghost use Rattle.binmem.specs.Held.{pushed, begun, linked, fresh, held_at};
ghost use Rattle.binmem.specs.Slabs.{AreOwned};

use crate::chunk::Chunk;
use crate::parts::Release;
use crate::slab::{SLAB_CHUNKS, Slab};
use std::alloc::{AllocError, Allocator};
use std::marker::Model;

const MAX_SLABS: usize = 16_777_215;

/// All slabs, to be read by any number of threads.
#[derive(Drop)]
pub struct Chunks<'a> {
    slabs: &'a [Slab],
}

impl<'a> Model for Chunks<'a> {
    ghost use Rattle.std.specs.Prelude.{List};
    ghost use Rattle.binmem.specs.Held.{Held};
    ghost use Rattle.binmem.specs.Slabs.{mem_of, AreWhole};

    ghost Value = { List Held };

    ghost view = { λ c. mem_of c.slabs.now };

    ghost invariant = { λ c. AreWhole c.slabs.now };
}

impl<'a> Chunks<'a> {
    pub(crate) fn chunk(&self, number: u32) -> &'a Chunk
        requires { number < length self.now }
        ensures chunk { result.now ≡ held_at self.now number }
    {
        self.slabs[number as usize / SLAB_CHUNKS].chunk(number as usize % SLAB_CHUNKS)
    }
}

/// The slabs, with the rights to free them.
pub struct Slabs<A: Allocator> {
    slabs: Vec<Slab, A>,
    rights: Vec<Release<[Chunk; 16], A>, A>,
    alloc: A,
}

impl<A: Allocator> Model for Slabs<A> {
    ghost use Rattle.std.specs.Prelude.{List, ◌<◌, length};
    ghost use Rattle.binmem.specs.Held.{Held};
    ghost use Rattle.binmem.specs.Slabs.{mem_of, AreOwned};

    ghost Value = { List Held };

    ghost view = { λ s. mem_of s.slabs.items };

    ghost invariant = { λ s. AreOwned s.slabs.items s.rights.items × (length s.slabs.items < 16777216) };
}

impl<A: Allocator> Drop for Slabs<A> {
    fn drop(self) {
        let Slabs {
            slabs,
            rights,
            alloc,
        } = self;
        free_all(slabs, rights);
        drop(alloc);
    }
}

fn free_all<A: Allocator>(slabs: Vec<Slab, A>, rights: Vec<Release<[Chunk; 16], A>, A>)
    requires { AreOwned slabs.items rights.items }
{
    let mut slabs = slabs;
    let mut rights = rights;
    for _freed in 0..slabs.len() {
        let slab = slabs.pop().unwrap();
        let right = rights.pop().unwrap();
        slab.free(right);
    }
    slabs.destroy_empty();
    rights.destroy_empty();
}

impl<A: Allocator + Copy> Slabs<A> {
    pub(crate) fn new(alloc: A) -> Slabs<A>
        ensures { result ≡ [] }
    {
        Slabs {
            slabs: Vec::new(alloc),
            rights: Vec::new(alloc),
            alloc,
        }
    }

    /// Makes room in the lists and then a slab, whose first number it answers.
    // Apart: a slab is built on the stack, and who takes a free chunk should not pay for that room.
    #[cold]
    #[inline(never)]
    pub(crate) fn grow(&mut self) -> Result<u32, AllocError>
        ensures chunks { self.new ≡ (if is_ok result then self.old ++ fresh (length self.old) 16 else self.old) }
        ensures first { IfOk result (λ first. (first ≡ length self.old) × (first + 16 < 4294967296)) }
    {
        let count = self.slabs.len();
        if count >= MAX_SLABS {
            return Err(AllocError);
        }
        self.slabs.reserve(1)?;
        self.rights.reserve(1)?;
        let first = (count * SLAB_CHUNKS) as u32;
        let (slab, right) = Slab::new(self.alloc, first)?;
        keep(&mut self.slabs, slab);
        keep(&mut self.rights, right);
        Ok(first)
    }
}

impl<A: Allocator> Slabs<A> {
    pub(crate) fn all(&self) -> Chunks<'_>
        ensures { result ≡ self.now }
    {
        Chunks {
            slabs: self.slabs.as_slice(),
        }
    }

    pub(crate) fn push(&mut self, number: u32, word: u32) -> bool
        requires { number < length self.old }
        ensures { self.new ≡ (if result then slice_set self.old number (pushed (held_at self.old number) word) else self.old) }
    {
        self.slabs[number as usize / SLAB_CHUNKS].push(number as usize % SLAB_CHUNKS, word)
    }

    pub(crate) fn begin(&mut self, number: u32, word: u32) -> u32
        requires { number < length self.old }
        ensures chunks { self.new ≡ slice_set self.old number (begun (held_at self.old number) word) }
        ensures next { result ≡ (held_at self.old number).next }
    {
        self.slabs[number as usize / SLAB_CHUNKS].begin(number as usize % SLAB_CHUNKS, word)
    }

    pub(crate) fn link(&mut self, number: u32, next: u32)
        requires { number < length self.old }
        ensures { self.new ≡ slice_set self.old number (linked (held_at self.old number) next) }
    {
        self.slabs[number as usize / SLAB_CHUNKS].link(number as usize % SLAB_CHUNKS, next);
    }
}

// There is room for it.
fn keep<T, A: Allocator>(list: &mut Vec<T, A>, item: T)
    requires { length list.old.items + 1 ≤ vec_capacity list.old }
    ensures { list.new.items ≡ list.old.items ++ item ∷ [] }
{
    match list.push(item) {
        Ok(()) => (),
        Err(_refused) => unreachable!(),
    }
}
