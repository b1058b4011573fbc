// The drive and the profile of an axis by small numbers.
ghost use Rattle.std.specs.Prelude.{◌≡◌, ◌<◌, ◌⊎◌, ◌↔◌, IsNone};
ghost use Rattle.coded.specs.Beds.{bed_by};

use bed::kind::{BaseProfile, BedKind, DriveKind, ProfileKind, Smoothings};

// Drives: 0 pulse, 1 phase. Profiles: 0 creep, 1 ramp, 2 and 3 the same smoothed over `outer`, 4 and 5 over `inner` and that over `outer`.
pub fn bed_of(drive: u8, profile: u8, outer: u32, inner: u32) -> Option<BedKind>
    ensures bed { result ≡ bed_by drive profile outer inner }
    ensures none { IsNone result ↔ ((1 < drive) ⊎ (5 < profile)) }
{
    let drive = match drive {
        0 => DriveKind::Pulse,
        1 => DriveKind::Phase,
        _ => return None,
    };
    let (base, smoothings) = match profile {
        0 => (BaseProfile::Creep, Smoothings::Unsmoothed),
        1 => (BaseProfile::Ramp, Smoothings::Unsmoothed),
        2 => (BaseProfile::Creep, Smoothings::Once(outer)),
        3 => (BaseProfile::Ramp, Smoothings::Once(outer)),
        4 => (BaseProfile::Creep, Smoothings::Twice(outer, inner)),
        5 => (BaseProfile::Ramp, Smoothings::Twice(outer, inner)),
        _ => return None,
    };
    let profile = ProfileKind { base, smoothings };
    Some(BedKind { drive, profile })
}
