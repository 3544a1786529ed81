//! Worked rows: contents computed by hand, against the definitions of packing, measuring and opening.

ghost use Rattle.std.specs.Prelude.{ℤ, pos, negsuc, List, [], ◌∷◌};
ghost use Rattle.frozen_model.specs.Layouts.{Unsigned, TwosComplement, FromBase};
ghost use Rattle.frozen_model.specs.Walk.{Short, Long, Distance, Dirty, BadText, KeyOrder, OutOfRange};
ghost use Rattle.frozen_model.specs.Rows.{IsRow, IsRefused, Measures, two_fields, two_numbers, list_of_texts, four_texts, flag_and_number, true_and_least, three_numbers, extremes, optional_items, three_optionals, map_of_texts, three_pairs, list_of_i32, list_of_i8, thousands};

/// The numbers 5 and -1, in version 1 in 4 bits and 1 bit, in version 2 in none.
pub fn row_two_fields()
    ensures first { IsRow (two_fields (TwosComplement 4) (TwosComplement 1)) (two_numbers (pos 5) (negsuc 0)) (21 ∷ []) }
    ensures measured { Measures 1 (two_fields (TwosComplement 0) (TwosComplement 0)) (two_fields (TwosComplement 4) (TwosComplement 1)) (two_numbers (pos 5) (negsuc 0)) }
    ensures second { IsRow (two_fields (FromBase (pos 5) 0) (FromBase (negsuc 0) 0)) (two_numbers (pos 5) (negsuc 0)) [] }
{}

/// Two zeros take no byte.
pub fn row_all_zero()
    ensures first { IsRow (two_fields (TwosComplement 0) (TwosComplement 0)) (two_numbers (pos 0) (pos 0)) [] }
    ensures measured { Measures 0 (two_fields (TwosComplement 0) (TwosComplement 0)) (two_fields (TwosComplement 0) (TwosComplement 0)) (two_numbers (pos 0) (pos 0)) }
{}

/// A list of four texts, measured in two passes.
pub fn row_list_of_texts()
    ensures first { IsRow (list_of_texts 1 3 3 1) four_texts (9 ∷ 186 ∷ 220 ∷ 97 ∷ 98 ∷ 99 ∷ 100 ∷ []) }
    ensures measured { Measures 2 (list_of_texts 0 0 0 0) (list_of_texts 1 3 3 1) four_texts }
{}

/// A flag and the least number of 64 bits.
pub fn row_flag_and_least_i64()
    ensures first { IsRow (flag_and_number (Unsigned 1) (TwosComplement 64)) true_and_least (1 ∷ 0 ∷ 0 ∷ 0 ∷ 0 ∷ 0 ∷ 0 ∷ 0 ∷ 1 ∷ []) }
    ensures measured { Measures 1 (flag_and_number (Unsigned 0) (TwosComplement 0)) (flag_and_number (Unsigned 1) (TwosComplement 64)) true_and_least }
    ensures second { IsRow (flag_and_number (Unsigned 1) (FromBase (negsuc 9223372036854775807) 0)) true_and_least (1 ∷ []) }
{}

/// The greatest number of 64 bits, and the least and the greatest of 8.
pub fn row_extreme_widths()
    ensures first { IsRow (three_numbers (TwosComplement 64) (TwosComplement 8) (TwosComplement 8)) extremes (255 ∷ 255 ∷ 255 ∷ 255 ∷ 255 ∷ 255 ∷ 255 ∷ 127 ∷ 128 ∷ 127 ∷ []) }
    ensures measured { Measures 1 (three_numbers (TwosComplement 0) (TwosComplement 0) (TwosComplement 0)) (three_numbers (TwosComplement 64) (TwosComplement 8) (TwosComplement 8)) extremes }
    ensures second { IsRow (three_numbers (FromBase (pos 9223372036854775807) 0) (FromBase (negsuc 127) 0) (FromBase (pos 127) 0)) extremes [] }
{}

/// Optionals present and absent; one that is absent has zero bits, in both versions.
pub fn row_optional_items()
    ensures first { IsRow (optional_items 1 2 1 (TwosComplement 4)) three_optionals (7 ∷ 1 ∷ 44 ∷ []) }
    ensures measured { Measures 2 (optional_items 0 0 0 (TwosComplement 0)) (optional_items 1 2 1 (TwosComplement 4)) three_optionals }
    ensures dirty { IsRefused (optional_items 1 2 1 (TwosComplement 4)) (7 ∷ 65 ∷ 44 ∷ []) (Dirty 14) }
    ensures second { IsRow (optional_items 1 2 1 (FromBase (pos 0) 3)) three_optionals (7 ∷ 1 ∷ 11 ∷ []) }
    ensures second_dirty { IsRefused (optional_items 1 2 1 (FromBase (pos 0) 3)) (7 ∷ 65 ∷ 11 ∷ []) (Dirty 14) }
{}

/// A map's pairs stand in the order of their keys.
pub fn row_map_in_key_order()
    ensures first { IsRow (map_of_texts 1 2 (TwosComplement 5) 3 1) three_pairs (7 ∷ 129 ∷ 75 ∷ 39 ∷ 7 ∷ 97 ∷ 101 ∷ 105 ∷ []) }
    ensures measured { Measures 2 (map_of_texts 0 0 (TwosComplement 0) 0 0) (map_of_texts 1 2 (TwosComplement 5) 3 1) three_pairs }
    ensures second { IsRow (map_of_texts 1 2 (FromBase (pos 1) 4) 3 1) three_pairs (7 ∷ 176 ∷ 196 ∷ 216 ∷ 97 ∷ 101 ∷ 105 ∷ []) }
{}

/// A map whose first two keys are exchanged is refused at the bit of the later one.
pub fn row_keys_out_of_order()
    ensures { IsRefused (map_of_texts 1 2 (TwosComplement 5) 3 1) (7 ∷ 133 ∷ 67 ∷ 39 ∷ 7 ∷ 97 ∷ 101 ∷ 105 ∷ []) (KeyOrder 17) }
{}

/// The list of texts with other contents: a wrong distance, a byte less, a byte more, a bit set behind the root's
/// last, and a byte that begins no character.
pub fn row_damaged_content()
    ensures distance { IsRefused (list_of_texts 1 3 3 1) (9 ∷ 187 ∷ 220 ∷ 97 ∷ 98 ∷ 99 ∷ 100 ∷ []) (Distance 8 3 2) }
    ensures short { IsRefused (list_of_texts 1 3 3 1) (9 ∷ 186 ∷ 220 ∷ 97 ∷ 98 ∷ 99 ∷ []) Short }
    ensures long { IsRefused (list_of_texts 1 3 3 1) (9 ∷ 186 ∷ 220 ∷ 97 ∷ 98 ∷ 99 ∷ 100 ∷ 101 ∷ []) (Long 1) }
    ensures dirty { IsRefused (list_of_texts 1 3 3 1) (25 ∷ 186 ∷ 220 ∷ 97 ∷ 98 ∷ 99 ∷ 100 ∷ []) (Dirty 4) }
    ensures text { IsRefused (list_of_texts 1 3 3 1) (9 ∷ 186 ∷ 220 ∷ 255 ∷ 98 ∷ 99 ∷ 100 ∷ []) (BadText 3) }
{}

/// A list of 1000, 1001 and 1003 in 2 bits each from 1000, and one bit from 127 that leaves the range of an i8.
pub fn row_numbers_from_a_base()
    ensures packed { IsRow (list_of_i32 1 2 (FromBase (pos 1000) 2)) thousands (7 ∷ 52 ∷ []) }
    ensures measured { Measures 1 (list_of_i32 1 0 (FromBase (pos 1000) 0)) (list_of_i32 1 2 (FromBase (pos 1000) 2)) thousands }
    ensures range { IsRefused (list_of_i8 1 2 (FromBase (pos 127) 1)) (5 ∷ 2 ∷ []) (OutOfRange 9) }
{}
