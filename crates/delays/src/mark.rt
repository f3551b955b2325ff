//! Moments of a run, and the stretches between two of them.

ghost use Rattle.std.specs.Prelude.{◌≡◌, ◌<◌, ◌≤◌, ◌^◌};
ghost use Rattle.delays.specs.Stretches.{better, cycles_of};
ghost use Rattle.delays.specs.DelayText.{share};
ghost use Rattle.delays.specs.Causes.{causes};

use crate::cause::CAUSES;

/// A moment: how many steps were made, the cycles, and how many of these are put down to each cause.
#[derive(Clone, Copy, Drop)]
pub(crate) struct Mark {
    pub(crate) step: u64,
    pub(crate) cycles: u64,
    pub(crate) spent: [u64; CAUSES],
}

/// A stretch: from one moment to another, the step that ends it, and this step's account.
#[derive(Clone, Copy, Drop)]
pub(crate) struct Stretch {
    pub(crate) from: Mark,
    pub(crate) to: Mark,
    pub(crate) step: u64,
    pub(crate) end: usize,
}

/// How many stretches there were, the sum of their cycles, the least, and the first of the longest.
#[derive(Clone, Copy, Drop)]
pub(crate) struct Best {
    pub(crate) count: u64,
    pub(crate) total: u64,
    pub(crate) least: u64,
    pub(crate) longest: Stretch,
}

/// A span that goes on: the row of its first step, and the moment before this step.
#[derive(Clone, Copy, Drop)]
pub(crate) struct Begun {
    pub(crate) by: usize,
    pub(crate) mark: Mark,
}

/// The moment before the first step.
pub(crate) const NO_MARK: Mark = Mark {
    step: 0,
    cycles: 0,
    spent: [0; CAUSES],
};

/// No stretch was.
pub(crate) const NO_BEST: Best = Best {
    count: 0,
    total: 0,
    least: 0,
    longest: Stretch {
        from: NO_MARK,
        to: NO_MARK,
        step: 0,
        end: 0,
    },
};

/// The cycles of a stretch.
pub(crate) fn cycles_of(stretch: &Stretch) -> u64
    ensures { result ≡ cycles_of stretch.now }
{
    stretch.to.cycles.saturating_sub(stretch.from.cycles)
}

/// How many of them are put down to a cause.
pub(crate) fn share(stretch: &Stretch, cause: usize) -> u64
    requires { cause < causes }
    ensures { result ≡ share stretch.now cause }
{
    stretch.to.spent[cause].saturating_sub(stretch.from.spent[cause])
}

/// With a stretch more.
pub(crate) fn better(best: &Best, stretch: &Stretch) -> Best
    requires { best.now.count ≤ 2 ^ 62 }
    ensures { result ≡ better best.now stretch.now }
{
    let cycles = cycles_of(stretch);
    let is_first = best.count == 0;
    Best {
        count: best.count + 1,
        total: best.total.saturating_add(cycles),
        least: if is_first || cycles < best.least {
            cycles
        } else {
            best.least
        },
        longest: if is_first || cycles_of(&best.longest) < cycles {
            *stretch
        } else {
            best.longest
        },
    }
}

/// The same in its place: the longest, two moments, is written where another comes.
pub(crate) fn improve(best: &mut Best, stretch: &Stretch)
    requires { best.old.count ≤ 2 ^ 62 }
    ensures { best.new ≡ better best.old stretch.now }
{
    let cycles = cycles_of(stretch);
    let is_first = best.count == 0;
    best.count += 1;
    best.total = best.total.saturating_add(cycles);
    if is_first || cycles < best.least {
        best.least = cycles;
    }
    if is_first || cycles_of(&best.longest) < cycles {
        best.longest = *stretch;
    }
}
