use bed::fault::LineFault;
use bed::kind::{BaseProfile, BedKind, DriveKind, ProfileKind, Smoothings};
use script::fault::ReadFault;
use script::line::Line;
use script::read::read_line;
use std::alloc::Global;
use std::test::Fail;

// The fault of a line that is not read.
fn fault(heap: Global, text: &[u8]) -> Option<ReadFault> {
    read_line(heap, text).err()
}

fn is_bed(heap: Global, text: &[u8], expected: BedKind) -> bool {
    match read_line(heap, text) {
        Ok(Line::Bed(bed)) => bed == expected,
        _ => false,
    }
}

fn bed(drive: DriveKind, base: BaseProfile, smoothings: Smoothings) -> BedKind {
    BedKind {
        drive,
        profile: ProfileKind { base, smoothings },
    }
}

#[test]
fn beds(rt: HostRuntime) {
    let heap = rt.alloc();
    let ramp = bed(DriveKind::Pulse, BaseProfile::Ramp, Smoothings::Unsmoothed);
    assert!(rt; is_bed(heap, b"\tbed\tpulse  ramp# the first\r", ramp));
    let smooth = bed(DriveKind::Phase, BaseProfile::Creep, Smoothings::Once(4));
    assert!(rt; is_bed(heap, b"bed phase smooth 4 creep", smooth));
    let twice = bed(
        DriveKind::Phase,
        BaseProfile::Creep,
        Smoothings::Twice(8, 3),
    );
    assert!(rt; is_bed(heap, b"bed phase smooth 8 smooth 3 creep", twice));
}

#[test]
fn calls(rt: HostRuntime) -> Result<(), Fail> {
    let heap = rt.alloc();
    assert!(rt; matches!(read_line(heap, b" \t\r# tick"), Ok(Line::Blank)));
    assert!(rt;
        matches!(
            read_line(heap, b"at -2147483648"),
            Ok(Line::At(-2147483648))
        )
    );
    assert!(rt; matches!(read_line(heap, b"tripped"), Ok(Line::Tripped)));
    assert!(rt; matches!(read_line(heap, b"setup 007"), Ok(Line::Setup(7))));
    assert!(rt; matches!(read_line(heap, b"event -5"), Ok(Line::Event(-5))));
    assert!(rt; matches!(read_line(heap, b"tick"), Ok(Line::Tick(1))));
    assert!(rt; matches!(read_line(heap, b"tick 0"), Ok(Line::Tick(0))));
    assert!(rt; matches!(read_line(heap, b"reading"), Ok(Line::Reading(10))));
    assert!(rt; matches!(read_line(heap, b"reading 0"), Ok(Line::Reading(0))));
    assert!(rt;
        matches!(
            read_line(heap, b"reading 12 # words"),
            Ok(Line::Reading(12))
        )
    );
    match read_line(heap, b"block 0x0200 -5 0xffff") {
        Ok(Line::Block(words)) => {
            assert_eq!(rt; words.as_slice(), [512i16, -5, -1].as_slice());
        }
        _ => return Err(Fail::new("no block")),
    }
    match read_line(heap, b"block") {
        Ok(Line::Block(words)) => {
            assert_eq!(rt; words.len(), 0);
            Ok(())
        },
        _ => Err(Fail::new("no block")),
    }
}

#[test]
fn faults(rt: HostRuntime) {
    let heap = rt.alloc();
    for (text, expected) in [
        (b"Tick".as_slice(), LineFault::UnknownCommand),
        (b"bed pulses creep".as_slice(), LineFault::UnknownDrive),
        (b"bed pulse cree".as_slice(), LineFault::UnknownProfile),
        (
            b"bed pulse smooth 4 smooth 8 smooth 2 ramp".as_slice(),
            LineFault::UnknownProfile,
        ),
        (b"bed pulse # creep".as_slice(), LineFault::MissingWord),
        (b"event".as_slice(), LineFault::MissingWord),
        (b"setup 1 x".as_slice(), LineFault::ExtraWord),
        (b"tripped now".as_slice(), LineFault::ExtraWord),
        (b"tick -1 2".as_slice(), LineFault::NotANumber),
        (b"tick 1 2".as_slice(), LineFault::ExtraWord),
        (b"block 1 0x 2".as_slice(), LineFault::NotANumber),
        (b"reading -1".as_slice(), LineFault::NotANumber),
        (b"reading 10 x".as_slice(), LineFault::ExtraWord),
        (b"readings".as_slice(), LineFault::UnknownCommand),
    ] {
        assert_eq!(rt; fault(heap, text), Some(ReadFault::Line(expected)));
    }
}
