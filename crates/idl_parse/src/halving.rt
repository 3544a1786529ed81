//! Finding a field of a struct by its id.
ghost use Rattle.std.specs.Prelude.{◌≡◌, ◌<◌, ◌^◌, length, IfSome, position, true};
ghost use Rattle.std.specs.Ordering.{int_eq};
ghost use Rattle.idl_parse.specs.Drafts.{rising};

use idl_fields::draft::{DraftField, Id};

/// The place of the field with this id, by halving.
#[tactic(auto, using(crate::proofs::HalvingLaws::partitioned))]
pub fn place_in(fields: &[DraftField], id: Id) -> Option<u32>
    requires few { length fields.now < 2 ^ 32 }
    requires rising { rising fields.now ≡ true }
    ensures place { result ≡ position (λ f. int_eq f.id.id id.id) fields.now }
    ensures there { IfSome result (λ i. i < length fields.now) }
{
    let place = fields.partition_point(|field| field.id.id < id.id);
    let Some(field) = fields.get(place) else {
        return None;
    };
    if field.id.id == id.id {
        Some(place as u32)
    } else {
        None
    }
}
