// The type of a track, where it is set.
ghost use Rattle.std.specs.Prelude.{◌≡◌};
ghost use Rattle.media_rules.specs.Said.{said};
ghost use Rattle.tracks_rules.specs.Typed.{typed};
ghost use Rattle.tracks_rules.specs.Told.{typed_told};

use codes::Tracktype;

// What a number that may be unset says of the type.
pub fn typed_of(number: Option<u64>) -> Option<Tracktype>
    ensures { typed_told result ≡ said typed number }
{
    let number = number?;
    Some(Tracktype::new(number))
}
