//! The laws of writes through a block and of blocks in a greater region, each a function whose contract is the law.

ghost use Rattle.block_region.specs.Laws.{WritesStayInTheirBlock, LoansAreWrites, WritesKeepRegions, BlocksKeepTheirPlaces};

/// A write through a block changes no byte outside it.
pub fn writes_stay_in_their_block()
    ensures { WritesStayInTheirBlock }
{}

/// What a loan of a block leaves is what a write of the same bytes leaves.
pub fn loans_are_writes()
    ensures { LoansAreWrites }
{}

/// What is not yet handed out stays zero when a block is written.
pub fn writes_keep_regions()
    ensures { WritesKeepRegions }
{}

/// Each block of a region is one of the grown region too, with the same bytes.
pub fn blocks_keep_their_places()
    ensures { BlocksKeepTheirPlaces }
{}
