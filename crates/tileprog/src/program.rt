//! The programs of compiled lists as a job over the tiles that have words.

ghost use Rattle.std.specs.Prelude.{◌≡◌, ◌≤◌, ◌∷◌, length};
ghost use Rattle.tileprog.specs.Several.{behind_it, tiles_with, AreLists};

use crate::behind::{Behind, run_behind, touched_with};
use crate::gathering::gather_touched;
use crate::tile::count_of;
use crate::words::{prefetch, run_words};
use binner::Compiled;
use gfxspec::TILE_SIDE;
use std::alloc::{AllocError, Allocator};
use tileblock::{OpenTile, TileBlock};
use tilecore::TileJob;
use tilerun::BlockJob;

/// So many workers beside the first there are at most.
const MOST_HELPERS: usize = 15;

/// How many pixels are worth waking one more worker for. They take some ten microseconds; a thread is awake after as many, and what it
/// draws on has to come into its processor's cache.
const PIXELS_EACH: usize = 24 * (TILE_SIDE * TILE_SIDE) as usize;

/// A compiled list, or several that run one behind the other, as a job whose tiles are those that have words in one of them.
/// On a board each has the number of its place among these, so a list that draws on ten tiles of a large target pays for ten.
/// The job owns its lists, so that threads may keep it beside its board for as long as they run tiles.
#[derive(Drop)]
pub struct TileProgram<A: Allocator> {
    first: Compiled<A>,
    behind: Option<Behind<A>>,
    ghost few: { length (tiles_with first behind) ≤ 16384 },
    ghost few_issues: { first.issues ≤ 64 },
    ghost lists: { AreLists first.size (first ∷ behind_it behind) (tiles_with first behind) },
}

/// A tile that waits at its place.
#[derive(Drop)]
pub struct PlacedTile<A: Allocator> {
    place: u32,
    tile: OpenTile<A>,
}

/// A tile that ran at its place: its block, and the counts of the 64 issues. It is handed from thread to thread, which
/// what a `DoneTile` remembers of its program is not made for.
#[derive(Drop)]
pub struct RunTile<A: Allocator> {
    place: u32,
    block: TileBlock<A>,
    counts: [u32; 64],
    /// What `prefetch` read: an aid and no part of the result, kept so that the reads are done.
    prefetched: u64,
}

impl<A: Allocator + Copy> TileProgram<A> {
    ghost use Rattle.std.specs.Prelude.{◌≡◌, ◌∷◌, [], All, IfOk};
    ghost use Rattle.binner.specs.Compiled.{IsCompilation};
    ghost use Rattle.tileprog.specs.Several.{CanRunBehind};
    ghost use Rattle.tileprog.specs.Programs.{lists_of, tiles_of};

    /// The job of one compiled list. It takes no memory.
    pub fn new(compiled: Compiled<A>) -> TileProgram<A>
        ensures first { result.first ≡ compiled }
        ensures sound { IsCompilation compiled }
        ensures lists { lists_of result ≡ compiled ∷ [] }
        ensures tiles { tiles_of result ≡ compiled.touched }
    {
        let _touched = compiled.touched();
        TileProgram {
            first: compiled,
            behind: None,
        }
    }

    /// The job of lists without issues that run one behind the other, a first one and those behind it, in their order. It
    /// takes memory for the tiles that they touch, and a flag for each tile of the target; without it the lists are given up.
    pub fn of_lists(
        alloc: A,
        first: Compiled<A>,
        behind: Vec<Compiled<A>, A>,
    ) -> Result<TileProgram<A>, AllocError>
        requires unissued { first.issues ≡ 0 }
        requires behind { All (CanRunBehind first.size) behind.items }
        ensures first { IfOk result (λ p. p.first ≡ first) }
        ensures lists { IfOk result (λ p. lists_of p ≡ first ∷ behind.items) }
    {
        let touched = gather_touched(alloc, &first, behind.as_slice())?;
        Ok(TileProgram {
            first,
            behind: Some(Behind {
                lists: behind,
                touched,
            }),
        })
    }

    /// The first compiled list; those behind it are dropped.
    pub fn into_compiled(self) -> Compiled<A>
        ensures { result ≡ self.first }
    {
        let TileProgram { first, behind: _ } = self;
        first
    }
}

impl<A: Allocator + Copy + Send> TileJob for TileProgram<A> {
    type Open = PlacedTile<A>;

    type Done = RunTile<A>;

    ghost use Rattle.std.specs.Prelude.{◌≡◌, ◌<◌, length, slice_index};
    ghost use mathlib.Core.Option.{some};
    ghost use lib.ListN.{get_elem?};
    ghost use Rattle.gfxspec.specs.Tiles.{tile_rect};
    ghost use Rattle.tileprog.specs.Several.{behind_it};
    ghost use Rattle.tileprog.specs.Programs.{tiles_of, TileRan};

    ghost tile_count = { λ job. length (tiles_of job) };

    ghost issue_count = { λ job. job.first.issues };

    ghost tile_number = { λ tile. tile.place };

    ghost done_number = { λ done. done.place };

    ghost done_count = { λ done issue. slice_index done.counts issue };

    ghost fits = { λ job tile. (get_elem? (tiles_of job) tile.place ≡ some tile.tile.number)
        × (tile.tile.block.rect ≡ tile_rect job.first.size tile.tile.number) };

    ghost gives = { λ job tile done. (done.place ≡ tile.place)
        × (get_elem? (tiles_of job) tile.place ≡ some tile.tile.number)
        × TileRan job.first (behind_it job.behind) tile.tile.number tile.tile.block done.block done.counts };

    fn tiles(&self) -> u32 {
        touched_with(&self.first, &self.behind).len() as u32
    }

    fn issues(&self) -> u32 {
        self.first.issues()
    }

    fn helpers(&self) -> u32 {
        if self.behind.is_some() {
            return MOST_HELPERS as u32;
        }
        let pixels = self.first.pixels_reached(MOST_HELPERS * PIXELS_EACH);
        (pixels / PIXELS_EACH) as u32
    }

    fn number(tile: &PlacedTile<A>) -> u32
        ensures { result ≡ tile.now.place }
    {
        tile.place
    }

    fn number_done(done: &RunTile<A>) -> u32
        ensures { result ≡ done.now.place }
    {
        done.place
    }

    fn count(done: &RunTile<A>, issue: u32) -> u64
        ensures { result ≡ slice_index done.now.counts issue }
    {
        count_of(&done.counts, issue)
    }

    fn run(&self, tile: PlacedTile<A>) -> RunTile<A> {
        let PlacedTile { place, tile } = tile;
        let OpenTile { number, mut block } = tile;
        let mut prefetched = prefetch(&self.first, number, &block);
        let counts = run_words(&self.first, number, &mut block);
        prefetched ^= run_behind(&self.behind, number, &mut block);
        RunTile {
            place,
            block,
            counts,
            prefetched,
        }
    }

    ghost use Rattle.tilecore.proofs.Lists.{within};

    ghost few_tiles = { λ job. job.few };

    ghost few_issues = { λ job. job.few_issues };

    ghost in_range = { λ job tile h. within (tiles_of job) tile.place tile.tile.number h.0 };

    ghost keeps_number = { λ job tile done h. h.0 };

    ghost small_counts = { λ job tile done issue h less. h.2.few issue less };
}

impl<A: Allocator + Copy + Send> BlockJob for TileProgram<A> {
    type Block = TileBlock<A>;

    ghost use Rattle.std.specs.Prelude.{◌≡◌};
    ghost use mathlib.Core.Option.{some};
    ghost use lib.ListN.{get_elem?};
    ghost use Rattle.gfxspec.specs.Tiles.{tile_rect};
    ghost use Rattle.tileprog.specs.Programs.{lists_of, tiles_of, pixel_by_all, count_by};

    ghost shown = { λ block. block };

    ghost target_size = { λ job. job.first.size };

    ghost touched = { λ job. tiles_of job };

    ghost open_block = { λ tile. tile.tile.block };

    ghost done_block = { λ done. done.block };

    ghost drawn = { λ job. pixel_by_all (lists_of job) };

    ghost counted = { λ job. count_by job.first };

    fn touched(&self) -> &[u32] {
        touched_with(&self.first, &self.behind)
    }

    fn open(&self, place: u32, number: u32, block: TileBlock<A>) -> PlacedTile<A>
        requires place { get_elem? (tiles_of self.now) place ≡ some number }
        requires rect { block.rect ≡ tile_rect self.now.first.size number }
        ensures place { result.place ≡ place }
        ensures block { result.tile.block ≡ block }
        ensures fits { (get_elem? (tiles_of self.now) result.place ≡ some result.tile.number)
            × (result.tile.block.rect ≡ tile_rect self.now.first.size result.tile.number) }
    {
        PlacedTile {
            place,
            tile: OpenTile { number, block },
        }
    }

    fn into_block(done: RunTile<A>) -> TileBlock<A>
        ensures { result ≡ done.block }
    {
        done.block
    }

    ghost use Rattle.std.specs.Prelude.{slice_index};
    ghost use Rattle.std.proofs.Common.{◌∙◌, sym, subst};
    ghost use Rattle.tileblock.specs.Block.{pixel_at};
    ghost use mathlib.Core.Option.{some-injective};

    ghost keeps_rect = { λ job tile done h. h.2.rect };

    ghost draws = { λ job tile done t x y h at inside. subst
        (λ n. pixel_at done.block x y ≡ pixel_by_all (lists_of job) n x y (pixel_at tile.tile.block x y))
        (some-injective tile.tile.number t (sym h.1 ∙ at)) (h.2.pixels x y inside) };

    ghost counts = { λ job tile done t issue opening h at less agree. subst
        (λ n. slice_index done.counts issue ≡ count_by job.first n issue opening)
        (some-injective tile.tile.number t (sym h.1 ∙ at)) (h.2.counts issue opening less agree) };
}
