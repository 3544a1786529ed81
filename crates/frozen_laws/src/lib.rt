//! The laws of the frozen form: each is a public function without a result, and its contract is the law.
#![tactic(auto)]

ghost use Rattle.frozen_laws.specs.Rows.{LeastInVersion1, LeastInVersion2};
ghost use Rattle.frozen_laws.specs.Laws.{ExtentsGrow, DistancesGrow, NeedsGrow, RestIsLeast, BlankIsStart, LeastIsUnique};
ghost use Rattle.frozen_laws.specs.Laws.{WidestHolds, PassesAreLegal, PassesRest, PassesStayBelow};
ghost use Rattle.frozen_laws.specs.Laws.{StoredIsRead, ReadIsStored, AlwaysInRange, NeedFromBase};
ghost use Rattle.frozen_laws.specs.Laws.{KindsDecide, StridesAreSmall, CellsByRanges, CellsInLayout};
ghost use Rattle.frozen_laws.specs.Laws.{ExtentsAreBounded, PackingIsBounded, DistancesAreBounded, HoldsEverywhere, EverywhereHolds};
ghost use Rattle.frozen_laws.specs.Laws.{PackingIsInjective, PackingExists, PackingIsOne, WalkIsSound, WalkIsComplete};
ghost use Rattle.frozen_laws.specs.Laws.{PartsStand, PartsLie, PartsAreNodes, PartsHaveFewerCells, OnePartLies};
ghost use Rattle.frozen_laws.specs.Laws.{ContentIsExact};

/// Under wider layouts the extents, the distances and the needs of a value are as great or greater.
pub fn extents_grow()
    ensures extents { ExtentsGrow }
    ensures distances { DistancesGrow }
    ensures needs { NeedsGrow }
{}

/// Where passes come to rest, the layout is the least that holds the value, and there is one least layout.
pub fn rest_is_least()
    ensures rest { RestIsLeast }
    ensures start { BlankIsStart }
    ensures unique { LeastIsUnique }
{}

/// Within the limit of cells the widest layout holds every value of its kinds, no pass makes a leaf wider than its
/// greatest width, and passes come to rest after at most 1 and 29 for each range. From the least bases a pass stays
/// below each layout that holds the value.
pub fn passes_rest()
    ensures widest { WidestHolds }
    ensures legal { PassesAreLegal }
    ensures bound { PassesRest }
    ensures below { PassesStayBelow }
{}

/// What a leaf stores for a flag or number means it again, and what is read at a leaf is what it stores; in version 1
/// it is always in the range of its kind. From the least number as base a leaf needs the digits of the greatest less
/// the least.
pub fn leaves_are_read()
    ensures stored { StoredIsRead }
    ensures read { ReadIsStored }
    ensures range { AlwaysInRange }
    ensures base { NeedFromBase }
{}

/// Whether a tree is within the limits is for its kinds to say, and a layout within them takes at most 32,767 bits
/// inline, as does each part of it.
pub fn strides_are_small()
    ensures kinds { KindsDecide }
    ensures strides { StridesAreSmall }
{}

/// The cells of a value are the inline cells of its kind tree and, over its ranges, the count times the unit.
pub fn cells_by_ranges()
    ensures kinds { CellsByRanges }
    ensures layouts { CellsInLayout }
{}

/// Within the limit of cells, each extent and each distance is below 2^29 bytes, whatever the widths.
pub fn extents_are_bounded()
    ensures extents { ExtentsAreBounded }
    ensures packing { PackingIsBounded }
    ensures distances { DistancesAreBounded }
{}

/// To hold a value is that each number fits, by recursion over the value.
pub fn holding_is_everywhere()
    ensures forth { HoldsEverywhere }
    ensures back { EverywhereHolds }
{}

/// A layout's packing is of one value.
pub fn packing_is_injective()
    ensures { PackingIsInjective }
{}

/// The packing of a value exists as bytes, and as no other bytes.
pub fn packing_is_bytes()
    ensures some { PackingExists }
    ensures one { PackingIsOne }
{}

/// What the walk gives stands where it was read.
pub fn walk_is_sound()
    ensures { WalkIsSound }
{}

/// What stands there is what the walk gives, within the limit of cells.
pub fn walk_is_complete()
    ensures { WalkIsComplete }
{}

/// A content is opened as a value exactly where it is the packing of that value, in a layout that holds it.
pub fn content_is_exact()
    ensures { ContentIsExact }
{}

/// Where a value stands each part of it stands at its own place; so it does in the value's packing, and one part alone
/// lies at a place. A part has no more cells than its whole.
pub fn parts_stand()
    ensures anywhere { PartsStand }
    ensures packed { PartsLie }
    ensures nodes { PartsAreNodes }
    ensures one { OnePartLies }
    ensures cells { PartsHaveFewerCells }
{}

/// The layouts of the worked rows are the least of their values.
pub fn rows_are_least()
    ensures first { LeastInVersion1 }
    ensures second { LeastInVersion2 }
{}
