//! `survey`: what happened in some steps, bucket by bucket.

ghost use Rattle.std.specs.Prelude.{◌≡◌, ◌+◌, ◌-◌, ◌*◌, ◌<◌, ◌≤◌, true};
ghost use Rattle.words.specs.Devices.{Writes, failures_after};
ghost use Rattle.replay.specs.Retraced.{HasRetraced};
ghost use Rattle.debugger.specs.Executions.{HasLooked};
ghost use Rattle.debugger.specs.Surveys.{bucket, bucket_lines, survey_text, width_of};

use crate::bucket::Bucket;
use crate::texts::{number_line, text_line};
use commands::{Subjects, Surveyed};
use cpu::{Machine, Processor};
use replay::{Keeper, Session, Stepper};
use words::{Write, WriteFailed, write_all};

/// The lines of the buckets of some steps, and how many they are.
pub(crate) fn survey<K: Keeper, W: Write>(
    session: &mut Session<K>,
    asked: &Surveyed,
    out: &mut W,
) -> Result<(), WriteFailed>
    ensures writes { W.told ≡ true → Writes (W.written out.old) (W.written out.new)
        (survey_text session.old.scenario session.old.n asked.now) result }
    ensures looked { HasLooked session.old session.new (2 * session.old.n) }

    // The steps are made once, from the latest image up to the first of them on, or from the step that is shown.
    ensures once { asked.now.first ≤ asked.now.last → asked.now.last ≤ session.old.n
        → HasRetraced session.old (asked.now.first - 1) (asked.now.last - (asked.now.first - 1)) session.new }
    ensures late { session.old.n < asked.now.last → session.new ≡ session.old }
    ensures failures { W.failures out.new ≡ failures_after (W.failures out.old) result }
{
    if asked.last > session.steps() {
        return write_all(out, text_line(b"E41 NOT YET").as_slice());
    }
    write_buckets(session, asked, out)
}

/// The same, of steps that were made.
fn write_buckets<K: Keeper, W: Write>(
    session: &mut Session<K>,
    asked: &Surveyed,
    out: &mut W,
) -> Result<(), WriteFailed>
    requires { asked.now.last ≤ session.old.n }
    ensures writes { W.told ≡ true → Writes (W.written out.old) (W.written out.new)
        (bucket_lines session.old.scenario asked.now.subjects
        (width_of (asked.now.last - (asked.now.first - 1)) asked.now.buckets) asked.now.last asked.now.buckets 0
        (asked.now.first - 1)) result }
    ensures looked { HasLooked session.old session.new (2 * session.old.n) }
    ensures once { asked.now.first ≤ asked.now.last
        → HasRetraced session.old (asked.now.first - 1) (asked.now.last - (asked.now.first - 1)) session.new }
    ensures failures { W.failures out.new ≡ failures_after (W.failures out.old) result }
{
    let mut low = asked.first.saturating_sub(1);
    let mut left = asked.buckets;
    let mut done = 0;
    let width = width_of(asked.last.saturating_sub(low), asked.buckets);
    while left > 0 && low < asked.last {
        let more = width.min(asked.last - low - 1);
        let bucket = survey_bucket(session, low, more, &asked.subjects);
        low += more + 1;
        left -= 1;
        done += 1;
        write_all(out, bucket.line(low).as_slice())?;
    }
    write_all(out, number_line(b"COUNT ", done).as_slice())
}

/// How many steps a bucket has besides one.
fn width_of(steps: u64, buckets: u64) -> u64
    ensures { 0 < buckets → result ≡ width_of steps buckets }
{
    if buckets == 0 {
        return 0;
    }
    steps.saturating_sub(1) / buckets
}

/// What happened in a step after so many, and in so many more.
fn survey_bucket<K: Keeper>(
    session: &mut Session<K>,
    low: u64,
    more: u64,
    subjects: &Subjects,
) -> Bucket
    requires { low + more < session.old.n }
    ensures bucket { result ≡ bucket session.old.scenario subjects.now low more }
    ensures once { HasRetraced session.old low (more + 1) session.new }
    ensures shown { session.new.shown.0 ≡ low + more + 1 }
{
    let _limited = session.steps();
    let mut surveyor = Surveyor {
        is_first: true,
        bucket: Bucket::of(subjects),
    };
    let _end = session.retrace_by(low, more + 1, &mut surveyor);
    surveyor.bucket
}

/// What makes the steps of a bucket, and sees each.
#[derive(Drop)]
struct Surveyor {
    /// Whether no step was made.
    is_first: bool,
    bucket: Bucket,
}

impl Stepper for Surveyor {
    ghost use Rattle.std.specs.Prelude.{false};
    ghost use Rattle.debugger.specs.Surveying.{bucket_seen};

    ghost sees = { λ old scenario state ended new. (ended ≡ false) × (new.is_first ≡ false)
        × (new.bucket ≡ bucket_seen old.is_first scenario state old.bucket) };

    #[inline(always)]
    fn make_step(&mut self, processor: &mut Processor, machine: &mut Machine) -> bool {
        let account = processor.account(machine);
        let output = processor.step(machine);
        self.bucket
            .see(self.is_first, account, output.is_some(), machine);
        self.is_first = false;
        false
    }
}
