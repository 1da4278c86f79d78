//! What holds of places, wherever they are looked for.

ghost use Rattle.std.specs.Prelude.{◌≡◌, ◌≢◌, ◌≤◌, ℕ, List};
ghost use Rattle.pt_edit.specs.declared.free.FreeBlock.{FreeBlock};
ghost use Rattle.pt_edit.specs.declared.space.Run.{Run};
ghost use Rattle.pt_edit.specs.Free.{AreFree, Place};
ghost use Rattle.pt_words.specs.declared.word.End.{End};
ghost use Rattle.pt_words.specs.declared.error.Refusal.{Refusal};
ghost use Rattle.pt_edit.specs.Space.{AreBlocks, blocks_of, SameSectors, with_taken, Area, IsBlock, IsFreeRun, rounded_up, IsRoundedUp};
ghost use Rattle.pt_edit.specs.Space.{Placed, NotPlaced};

/// What is placed has sectors, all usable and none taken, and before them room for the record that leads it.
pub fn placed_is_free()
    ensures { (a : Area) (alignment start : ℕ) (end : End) (r : Run) → Placed a alignment start end r → IsFreeRun a r }
{}

/// The runs that the free sectors make are the blocks, all of them and in ascending order.
#[tactic(auto, using(crate::proofs::Grouping::blocks_are))]
pub fn blocks_of_are()
    ensures { (a : Area) → AreBlocks a (blocks_of a) }
{}

/// An area has one list of blocks.
#[tactic(auto, using(crate::proofs::Blocks::blocks_are_one))]
pub fn blocks_one()
    ensures { (a : Area) (xs ys : List Run) → AreBlocks a xs → AreBlocks a ys → xs ≡ ys }
{}

/// Places have one list of free blocks.
#[tactic(auto, using(crate::proofs::FreeLists::free_is_one))]
pub fn free_one()
    ensures { (places : List Place) (xs ys : List FreeBlock) → AreFree places xs → AreFree places ys → xs ≡ ys }
{}

/// What is placed lies in a block.
#[tactic(auto, using(crate::proofs::Placing::placed_within))]
pub fn placed_in_block()
    ensures { (a : Area) (alignment start : ℕ) (end : End) (r : Run) → Placed a alignment start end r
        → (b : Run) × IsBlock a b × (b.first ≤ r.first) × (r.last ≤ b.last) }
{}

/// A sector rounded up is the least multiple of the alignment that isn't below it.
pub fn rounded_up_is_least()
    ensures { (alignment k : ℕ) → alignment ≢ 0 → IsRoundedUp alignment k (rounded_up alignment k) }
{}

/// Only which sectors are taken counts, and not which runs have them: what is placed is placed.
pub fn placed_by_sectors()
    ensures { (a : Area) (alignment start : ℕ) (end : End) (runs : List Run) (r : Run) → SameSectors a.taken runs
        → Placed a alignment start end r → Placed (with_taken a runs) alignment start end r }
{}

/// And what is refused is refused.
pub fn refused_by_sectors()
    ensures { (a : Area) (alignment start : ℕ) (end : End) (runs : List Run) (r : Refusal) → SameSectors a.taken runs
        → NotPlaced a alignment start end r → NotPlaced (with_taken a runs) alignment start end r }
{}
