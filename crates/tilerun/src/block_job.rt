//! A job on tiles of a target.

ghost use Rattle.std.specs.Prelude.{◌≡◌, ℕ, ◌<◌, List, length};
ghost use mathlib.Core.Option.{some};
ghost use lib.ListN.{get_elem?};
ghost use Rattle.gfxspec.specs.declared.geometry.Size.{Size};
ghost use Rattle.gfxspec.specs.declared.pixel.Pixel.{Pixel};
ghost use Rattle.gfxspec.specs.Tiles.{tile_rect, IsIn};
ghost use Rattle.tileblock.specs.Block.{Block, pixel_at};
ghost use Rattle.tilerun.specs.Touched.{AreTiles};

use tilecore::TileJob;

/// A job that draws on some tiles of a target. On a board a tile has the number of its place in the list of these.
pub trait BlockJob: TileJob {
    /// The blocks of its targets: `TileBlock` over some allocator. (A type with a bound can't stand in the methods of a
    /// trait that is to be implemented, so the allocator is no parameter here.)
    type Block;

    /// What contracts see of a block.
    ghost shown: { Self.Block → Block };

    /// The size of the targets that the job is for.
    ghost target_size: { Self → Size };

    /// The numbers of the tiles that it draws on, in the order of their places.
    ghost touched: { Self → List ℕ };

    /// The block in an open tile.
    ghost open_block: { Self.Open → Block };

    /// The block in a done tile.
    ghost done_block: { Self.Done → Block };

    /// What the job leaves, in the tile of a number, at x and y, of a pixel.
    ghost drawn: { Self → ℕ → ℕ → ℕ → Pixel → Pixel };

    /// What the job counts, in the tile of a number, for an issue, from what the pixels hold at first.
    ghost counted: { Self → ℕ → ℕ → (ℕ → ℕ → Pixel) → ℕ };

    /// The numbers of the tiles that it draws on, in the order of their places.
    fn touched(&self) -> &[u32]
        ensures list { result.now ≡ touched self.now }
        ensures many { length (touched self.now) ≡ Self.tile_count self.now }
        ensures tiles { AreTiles (target_size self.now) (touched self.now) };

    /// The tile of that number of the target, as it goes to its place.
    fn open(&self, place: u32, number: u32, block: Self::Block) -> Self::Open
        requires place { get_elem? (touched self.now) place ≡ some number }
        requires rect { (shown block).rect ≡ tile_rect (target_size self.now) number }
        ensures place { Self.tile_number result ≡ place }
        ensures block { open_block result ≡ shown block }
        ensures fits { Self.fits self.now result };

    /// The block of a done tile.
    fn into_block(done: Self::Done) -> Self::Block
        ensures { shown result ≡ done_block done };

    /// A result has the rectangle of the tile that it came from,
    ghost keeps_rect: { (job : Self) (tile : Self.Open) (done : Self.Done) → Self.gives job tile done
        → (done_block done).rect ≡ (open_block tile).rect };

    /// the pixels that the job leaves there,
    ghost draws: { (job : Self) (tile : Self.Open) (done : Self.Done) (t x y : ℕ) → Self.gives job tile done
        → get_elem? (touched job) (Self.tile_number tile) ≡ some t → IsIn (open_block tile).rect x y
        → pixel_at (done_block done) x y ≡ drawn job t x y (pixel_at (open_block tile) x y) };

    /// and the counts of what its pixels held.
    ghost counts: { (job : Self) (tile : Self.Open) (done : Self.Done) (t issue : ℕ) (opening : ℕ → ℕ → Pixel)
        → Self.gives job tile done → get_elem? (touched job) (Self.tile_number tile) ≡ some t
        → issue < Self.issue_count job
        → ((x y : ℕ) → IsIn (open_block tile).rect x y → opening x y ≡ pixel_at (open_block tile) x y)
        → Self.done_count done issue ≡ counted job t issue opening };
}
