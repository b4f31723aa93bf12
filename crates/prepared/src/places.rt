// Classes and tracked places, of the places that the run's own copy has.
ghost use Rattle.std.specs.Prelude.{◌≡◌};
ghost use Rattle.model.specs.Class.{class, tracked};
ghost use Rattle.prepared.specs.Own.{places_of};

use model::class_of;

// The class of v.
pub fn class_in(own: &[u32; 5256], v: u32) -> u32
    ensures { result ≡ class (places_of own.now) v }
{
    if own[131] == 1 {
        return class_of(own[129], own[130], v);
    }
    0
}

// Whether v is a tracked place.
pub fn is_tracked(own: &[u32; 5256], v: u32) -> bool
    ensures { result ≡ tracked (places_of own.now) v }
{
    own[131] == 1 && (own[129] == v || own[130] == v)
}
