//! The laws of passes over ranges.

ghost use Rattle.measure_pass.specs.Spots.{RunIsPass, DistancesSuffice, GatheredAlike};

/// Where all leaves but distances are wide enough, a pass over the ranges of a value is a pass over the
/// value. What is gathered of a value does not turn on widths.
pub fn ranges_suffice()
    ensures run { RunIsPass }
    ensures distances { DistancesSuffice }
    ensures gathered { GatheredAlike }
{}
