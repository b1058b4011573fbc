// Calls of an axis in operation.
ghost use Rattle.std.specs.Prelude.{◌≡◌, ◌++◌, ◌∷◌, [], Ok, Err, IfOk, IfErr};
ghost use Rattle.axis.specs.Axes.{meaning, powered_up};
ghost use Rattle.runs.specs.Journals.{call_means, answer_means, entry_means, Answered, Shown, CallMade};

use crate::call::{Answer, Call};
use crate::entry::Entry;
use crate::operation::Operation;
use axis::axis::Axis;
use drive::traits::Drive;
use profile::traits::Profile;
use std::alloc::{AllocError, Global};

// One call of an axis. Where there is no memory for the words of a reading, nothing is called.
fn call<D: Drive, P: Profile>(
    heap: Global,
    axis: &mut Axis<D, P>,
    call: Call,
) -> Result<Answer, AllocError>
    ensures made { IfOk result (λ a. Answered D.Drive.G (meaning D.Drive P.Profile axis.old) (call_means call.entry) (answer_means a) (meaning D.Drive P.Profile axis.new)) }
    ensures none { IfErr result (λ e. axis.new ≡ axis.old) }
{
    Ok(match call {
        Call::SetUp(speed) => Answer::Replied(axis.set_up(speed)),
        Call::Block(words) => Answer::Replied(axis.block(words)),
        Call::Event(code) => Answer::Replied(axis.event(code)),
        Call::Tick => Answer::Sent(axis.tick()),
        Call::Reading(words) => {
            let mut buffer = Vec::from_slice(heap, words)?;
            let answer = axis.reading(buffer.as_mut_slice());
            Answer::Read(answer, buffer)
        }
    })
}

// What is to be seen of an axis after a call that answered so.
fn entry<D: Drive, P: Profile>(axis: &Axis<D, P>, answer: Answer) -> Entry
    ensures { Shown (meaning D.Drive P.Profile axis.now) (answer_means answer) (entry_means result) }
{
    Entry {
        answer,
        words: axis.status_words(),
        place: axis.drive().place(),
        tripped: axis.drive().tripped(),
        gone: axis.profile().gone(),
        asked: axis.profile().asked(),
    }
}

impl<D: Drive, P: Profile> Operation<D, P> {
    // An axis empty of any past.
    pub fn power_up(heap: Global, drive: D, profile: P) -> Operation<D, P>
        ensures axis { meaning D.Drive P.Profile result.axis ≡ powered_up (D.Drive.means drive) (P.Profile.means profile) }
        ensures journal { result.journal.items ≡ [] }
    {
        Operation {
            axis: Axis::power_up(drive, profile),
            journal: Vec::new(heap),
        }
    }

    // Makes a call and notes it. Room for the note is made first, so that want of memory leaves the axis as it was, and loses nothing of
    // what it did before.
    pub fn make(&mut self, heap: Global, call: Call) -> Result<(), AllocError>
        ensures made { IfOk result (λ done. CallMade D.Drive.G (meaning D.Drive P.Profile self.old.axis) self.old.journal.items (call_means call.entry) (meaning D.Drive P.Profile self.new.axis) self.new.journal.items) }
        ensures none { IfErr result (λ e. (self.new.axis ≡ self.old.axis) × (self.new.journal.items ≡ self.old.journal.items)) }
    {
        self.journal.reserve(1)?;
        let answer = self::call(heap, &mut self.axis, call)?;
        let entry = entry(&self.axis, answer);
        self.journal.push(entry).unwrap();
        Ok(())
    }
}
