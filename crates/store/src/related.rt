//! Which target zone belongs to a distribution zone.
ghost use Rattle.std.specs.Prelude.{◌≡◌, false, find, option_map};
ghost use Rattle.std.specs.Option.{option_map_or};
ghost use Rattle.std.specs.Str.{bytes_eq};

use fields::ZoneName;
use store_zones::ZoneHead;

/// The name of the first zone that names this one as its related zone, or `None` if no zone does.
pub fn target_name(heads: &[ZoneHead], name: ZoneName) -> Option<ZoneName>
    ensures { result ≡ option_map (λ head. head.name)
        (find (λ head. option_map_or (bytes_eq name) head.related false) heads.now) }
{
    heads
        .iter()
        .find(|head| head.related == Some(name))
        .map(|head| head.name)
}
