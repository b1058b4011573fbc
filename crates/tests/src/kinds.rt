use bed::kind::{BaseProfile, BedKind, DriveKind, ProfileKind, Smoothings};
use beds::choice::{OnBed, on_bed};
use beds::motor::Motor;
use beds::shape::Shaped;
use profile::plan::Plan;
use profile::rates::Rates;
use profile::row::Row;
use profile::traits::Profile;

// The coil byte of the drive, and the third advance of two steps at 300 with S = A = D = 100.
#[derive(Drop)]
struct ThirdAdvance;

impl OnBed for ThirdAdvance {
    type Output = (Option<u8>, u32);

    ghost Comes = { λ _ _ _ _ _ _. Unit {0} };

    fn run<D: Motor + Drop, P: Shaped + Drop>(self, drive: D, mut profile: P) -> (Option<u8>, u32) {
        let rates = Rates {
            accel: 100,
            decel: 100,
        };
        let row = Row {
            steps: 2,
            speed: 300,
        };
        if let Ok(plan) = Plan::new(100, rates, &[row]) {
            profile.begin(plan);
        }
        profile.tick();
        profile.tick();
        (drive.coil_byte(), profile.tick())
    }
}

#[test]
fn kinds(rt: HostRuntime) {
    for (drive, profile, coils, advance) in [
        (
            DriveKind::Pulse,
            ProfileKind {
                base: BaseProfile::Creep,
                smoothings: Smoothings::Unsmoothed,
            },
            None,
            100u32,
        ),
        (
            DriveKind::Phase,
            ProfileKind {
                base: BaseProfile::Ramp,
                smoothings: Smoothings::Unsmoothed,
            },
            Some(1u8),
            300,
        ),
        (
            DriveKind::Pulse,
            ProfileKind {
                base: BaseProfile::Ramp,
                smoothings: Smoothings::Once(4),
            },
            None,
            150,
        ),
        (
            DriveKind::Phase,
            ProfileKind {
                base: BaseProfile::Creep,
                smoothings: Smoothings::Once(4),
            },
            Some(1),
            75,
        ),
        (
            DriveKind::Pulse,
            ProfileKind {
                base: BaseProfile::Ramp,
                smoothings: Smoothings::Twice(4, 3),
            },
            None,
            83,
        ),
    ] {
        let told = on_bed(BedKind { drive, profile }, ThirdAdvance);
        assert_eq!(rt; told, (coils, advance));
    }
}
