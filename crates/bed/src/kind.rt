// The kinds of bed that a script can name, by their words.
ghost use Rattle.std.specs.Prelude.{◌≡◌, IfOk};
ghost use Rattle.bed.specs.Beds.{drive_word, base_word, bed_of, profile_of, part_of, after_part};
ghost use Rattle.text.specs.Texts.{words_left};

use crate::fault::LineFault;
use crate::word::{FromWord, complete, read_next};
use text::text::Words;

// The kinds of drive that a bed may have.
#[derive(Clone, Copy, PartialEq, Eq, Debug)]
pub enum DriveKind {
    Pulse,
    Phase,
}

// The profiles that stand on no other.
#[derive(Clone, Copy, PartialEq, Eq, Debug)]
pub enum BaseProfile {
    Creep,
    Ramp,
}

// How often a profile is smoothed, and with which lengths: as the line says them, the outermost first. They may be any numbers.
// An enum and no list: a third length cannot be written, so whoever chooses by it has no case that cannot be.
#[derive(Clone, Copy, PartialEq, Eq, Debug)]
pub enum Smoothings {
    Unsmoothed,
    Once(u32),
    Twice(u32, u32),
}

// The profiles that a bed may move by: one that stands on no other, and how it is smoothed.
#[derive(Clone, Copy, PartialEq, Eq, Debug)]
pub struct ProfileKind {
    pub base: BaseProfile,
    pub smoothings: Smoothings,
}

// A bed: the kind of its drive, and the profile that it moves by.
#[derive(Clone, Copy, PartialEq, Eq, Debug)]
pub struct BedKind {
    pub drive: DriveKind,
    pub profile: ProfileKind,
}

impl FromWord for DriveKind {
    ghost read = { drive_word };

    fn from_word(word: &[u8]) -> Result<DriveKind, LineFault> {
        match word {
            b"pulse" => Ok(DriveKind::Pulse),
            b"phase" => Ok(DriveKind::Phase),
            _ => Err(LineFault::UnknownDrive),
        }
    }
}

impl FromWord for BaseProfile {
    ghost read = { base_word };

    fn from_word(word: &[u8]) -> Result<BaseProfile, LineFault> {
        match word {
            b"creep" => Ok(BaseProfile::Creep),
            b"ramp" => Ok(BaseProfile::Ramp),
            _ => Err(LineFault::UnknownProfile),
        }
    }
}

// What the words of a profile begin with: the one that stands on no other, or the length of a smoothing.
enum Part {
    Base(BaseProfile),
    Smoothing(u32),
}

fn next_part(words: &mut Words) -> Result<Part, LineFault>
    ensures part { result ≡ part_of (words_left words.old) }
    ensures left { IfOk result (λ part. words_left words.new ≡ after_part part (words_left words.old)) }
{
    match words.next() {
        None => Err(LineFault::MissingWord),
        Some(b"smooth") => Ok(Part::Smoothing(read_next(words)?)),
        Some(word) => Ok(Part::Base(BaseProfile::from_word(word)?)),
    }
}

// The profile that words say. After two lengths only a profile that stands on no other may follow.
pub fn profile_kind(mut words: Words) -> Result<ProfileKind, LineFault>
    ensures { result ≡ profile_of (words_left words.entry) }
{
    let kind = match next_part(&mut words)? {
        Part::Base(base) => ProfileKind {
            base,
            smoothings: Smoothings::Unsmoothed,
        },
        Part::Smoothing(outer) => match next_part(&mut words)? {
            Part::Base(base) => ProfileKind {
                base,
                smoothings: Smoothings::Once(outer),
            },
            Part::Smoothing(inner) => ProfileKind {
                base: read_next(&mut words)?,
                smoothings: Smoothings::Twice(outer, inner),
            },
        },
    };
    complete(words, kind)
}

// The bed that words name: its drive, and then its profile.
pub fn bed_kind(mut words: Words) -> Result<BedKind, LineFault>
    ensures { result ≡ bed_of (words_left words.entry) }
{
    let drive = read_next(&mut words)?;
    let profile = profile_kind(words)?;
    Ok(BedKind { drive, profile })
}
