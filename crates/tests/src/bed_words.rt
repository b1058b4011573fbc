use bed::fault::LineFault;
use bed::kind::{BaseProfile, DriveKind, ProfileKind, Smoothings, bed_kind};
use bed::word::{FromWord, only};
use text::text::Words;

#[test]
fn beds(rt: HostRuntime) {
    let bed = bed_kind(Words::of(b"phase smooth 8 smooth 3 creep"));
    assert_eq!(rt; bed.map(|bed| bed.drive), Ok(DriveKind::Phase));
    assert_eq!(rt;
        bed.map(|bed| bed.profile),
        Ok(ProfileKind {
            base: BaseProfile::Creep,
            smoothings: Smoothings::Twice(8, 3),
        })
    );
    for (text, fault) in [
        (b"pulses ramp".as_slice(), LineFault::UnknownDrive),
        (b"pulse".as_slice(), LineFault::MissingWord),
        (b"pulse ram".as_slice(), LineFault::UnknownProfile),
        (b"pulse smooth x ramp".as_slice(), LineFault::NotANumber),
        (b"pulse smooth 1 ramp 2".as_slice(), LineFault::ExtraWord),
    ] {
        assert_eq!(rt; bed_kind(Words::of(text)), Err(fault));
    }
}

#[test]
fn words(rt: HostRuntime) {
    assert_eq!(rt; only::<i32>(Words::of(b"-5")), Ok(-5));
    assert_eq!(rt; only::<u32>(Words::of(b"-5")), Err(LineFault::NotANumber));
    assert_eq!(rt; only::<i16>(Words::of(b"0xffff")), Ok(-1));
}
