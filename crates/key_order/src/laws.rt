//! The laws of values whose keys rise, each a function whose contract is the law.

ghost use Rattle.key_order.specs.Laws.{RisesByKeys, RisingIsUnique, OrderMoves, OrderRises, RisingIsInOrder};
ghost use Rattle.key_order.specs.Laws.{NumberedPlacesDiffer, NoneRepeatsWhereKeysDiffer, EntriesAreInOrder};

/// A set or map rises exactly where each key is below the next.
pub fn rises_by_keys()
    ensures { RisesByKeys }
{}

/// There is one way to arrange values so that their keys rise.
pub fn rising_is_unique()
    ensures { RisingIsUnique }
{}

/// Values in order are the same values.
pub fn order_moves()
    ensures { OrderMoves }
{}

/// Values in order rise where their keys are of one kind and no two are the same.
pub fn order_rises()
    ensures { OrderRises }
{}

/// Values that rise are in order.
pub fn rising_is_in_order()
    ensures { RisingIsInOrder }
{}

/// Entries that number keys from 0 have these keys, and their places differ.
pub fn numbered_places_differ()
    ensures { NumberedPlacesDiffer }
{}

/// Of keys that are numbered from 0 none repeats exactly where no two are the same.
pub fn none_repeats_where_keys_differ()
    ensures { NoneRepeatsWhereKeysDiffer }
{}

/// The items at the places of entries are in order where the keys of the entries rise.
pub fn entries_are_in_order()
    ensures { EntriesAreInOrder }
{}
