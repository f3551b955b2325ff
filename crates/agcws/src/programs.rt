//! The subcommands that run a program.

ghost use Rattle.std.specs.Prelude.{◌≤◌, ◌-◌, ◌^◌};

use crate::files::{
    OpenListed, OpenProgram, no_memory, opened, opened_listed, opened_program, taken_in,
    with_program, with_stdout,
};
use crate::hints::tell_reached;
use crate::joining::{SourceText, source_text};
use crate::located::write_behind;
use crate::progress::make_listener;
use crate::{DONE, NO_CELL, NO_ROUTINE, NO_SERIES, NOT_BOUND, STOPPED, refuse_arguments};
use agc_text::{next_field, next_line};
use plans::{
    Accesses, Pair, Profile, Program, Reachable, Reaching, Routine, Run, Timed, Tracing, Trials,
};
use words::{Buffer, ReadAhead, Std, Write, read_text, write_all};
use workshop::{
    Bounded, Counted, Language, LineForm, RunEnd, Side, Summary, WorkshopFault, access_program,
    bound_program, cover_program, debug_program, delays_program, differ_program, reach_program,
    reach_run, read_trials, run_program, run_to_hole, run_with_notes, tell_commands_end,
    trace_program, try_notes, try_program, write_end,
};

/// `agcws run [--end] [--progress] [--until-idle | --notes [--json]] .. SRC FEED N`. All files are opened before
/// anything is read.
pub fn run(rt: &HostRuntime, asked: &Run<'_>) -> Result<u8, WorkshopFault> {
    if asked.has_holes {
        return run_holed(rt, asked);
    }
    let summary = run_told(rt, asked)?;
    if asked.tells_end {
        write_end(&summary, &mut Std::new(rt.stderr()))?;
    } else {
        tell_reached(rt, &summary)?;
    }
    Ok(DONE)
}

/// `agcws run --flight --holes [--end] SRC FEED N`.
fn run_holed(rt: &HostRuntime, asked: &Run<'_>) -> Result<u8, WorkshopFault> {
    let source = source_text(rt, asked.program.path, Language::Flight)?;
    let mut feed = opened(rt, asked.program.feed)?;
    let mut told = Buffer::new(rt.alloc());
    let steps = asked.steps.count();
    let ended = with_stdout(
        rt,
        |out| run_to_hole(rt.alloc(), &source.text, &mut feed, steps, out, &mut told),
    )?;
    tell_hole(rt, &source, &ended.summary, told.as_slice())?;
    if asked.tells_end {
        write_end(&ended.summary, &mut Std::new(rt.stderr()))?;
    } else if !ended.has_stopped {
        tell_reached(rt, &ended.summary)?;
    }
    Ok(if ended.has_stopped { STOPPED } else { DONE })
}

/// Tells the line of a hole at which a run of a source has stopped, by the file that its row is of.
fn tell_hole(
    rt: &HostRuntime,
    source: &SourceText,
    summary: &Summary,
    line: &[u8],
) -> Result<(), WorkshopFault> {
    let mut stderr = Std::new(rt.stderr());
    let Some(joined) = &source.joined else {
        return Ok(write_all(&mut stderr, line)?);
    };
    let step = u128::from(summary.steps) + 1;
    let front = format!(in rt.alloc(); "agcws: HOLE AT STEP {step}: ").map_err(no_memory)?;
    write_behind(rt.alloc(), joined, front.as_bytes(), line, &mut stderr)
}

/// Runs a program, and tells on standard error what is to be told beside its lines.
fn run_told(rt: &HostRuntime, asked: &Run<'_>) -> Result<Summary, WorkshopFault> {
    let (alloc, notation, steps) = (rt.alloc(), asked.notation, asked.steps.count());
    let mut progress = make_listener(rt, asked.tells_progress);
    let end = if asked.until_idle {
        RunEnd::Idle
    } else {
        RunEnd::Steps
    };
    with_program(rt, &asked.program, |origin, file, feed, out| {
        let told = &mut progress;
        if asked.tells_notes {
            let notes = &mut Std::new(rt.stderr());
            run_with_notes(alloc, notation, origin, file, feed, steps, out, told, notes)
        } else {
            run_program(alloc, origin, file, feed, end, steps, out, told)
        }
    })
}

/// `agcws trace [--progress] [--reads | --say] .. SRC FEED N [--from T] [--to T]`. All files are opened before anything
/// is read.
pub fn trace(rt: &HostRuntime, asked: &Tracing<'_>) -> Result<u8, WorkshopFault> {
    let (first, last, form) = (asked.first, asked.last.count(), line_form(asked));
    let mut progress = make_listener(rt, asked.tells_progress);
    with_program(rt, &asked.program, |origin, file, feed, out| {
        let told = &mut progress;
        trace_program(rt.alloc(), origin, file, feed, form, first, last, out, told)
    })?;
    Ok(DONE)
}

/// In which form the steps of a trace are told.
fn line_form(asked: &Tracing<'_>) -> LineForm {
    if asked.says {
        LineForm::Sentences
    } else if asked.shows_reads {
        LineForm::StepsAndReads
    } else {
        LineForm::Steps
    }
}

/// `agcws cover [--progress] [--json] .. SRC FEED N`. All files are opened before anything is read.
pub fn cover(rt: &HostRuntime, asked: &Profile<'_>) -> Result<u8, WorkshopFault> {
    let (notation, steps) = (asked.notation, asked.steps.count());
    let mut progress = make_listener(rt, asked.tells_progress);
    with_program(rt, &asked.program, |origin, file, feed, out| {
        let told = &mut progress;
        cover_program(rt.alloc(), notation, origin, file, feed, steps, out, told)
    })?;
    Ok(DONE)
}

/// `agcws reach [--roots] .. SRC`. All files are opened before anything is read.
pub fn reach(rt: &HostRuntime, asked: &Reachable<'_>) -> Result<u8, WorkshopFault> {
    let OpenListed { origin, file, form } = opened_listed(rt, &asked.listed)?;
    let mut file = taken_in(file, form);
    let shows_roots = asked.shows_roots;
    with_stdout(
        rt,
        |out| reach_program(rt.alloc(), origin, &mut file, shows_roots, out),
    )?;
    Ok(DONE)
}

/// `agcws reach [--roots] .. SRC --feed FEED --steps N`. All files are opened before anything is read.
pub fn reach_beside_run(rt: &HostRuntime, asked: &Reaching<'_>) -> Result<u8, WorkshopFault> {
    let (steps, shows_roots) = (asked.steps.count(), asked.shows_roots);
    with_program(rt, &asked.program, |origin, file, feed, out| {
        reach_run(rt.alloc(), origin, file, feed, steps, shows_roots, out)
    })?;
    Ok(DONE)
}

/// `agcws bound .. SRC ROUTINE [--loops TEXT] [--kept TEXT]`.
pub fn bound(rt: &HostRuntime, asked: &Routine<'_>) -> Result<u8, WorkshopFault> {
    let OpenListed { origin, file, form } = opened_listed(rt, &asked.listed)?;
    let mut file = taken_in(file, form);
    let routine = asked.name.as_bytes();
    let loops = asked.loops.unwrap_or("").as_bytes();
    let kept = asked.kept.unwrap_or("").as_bytes();
    let bounded = with_stdout(
        rt,
        |out| bound_program(rt.alloc(), origin, &mut file, routine, loops, kept, out),
    )?;
    match bounded {
        Bounded::Told => Ok(DONE),
        Bounded::Refused => Ok(NOT_BOUND),
        Bounded::NotNamed => refuse_arguments(rt, NO_ROUTINE),
    }
}

/// `agcws access [--progress] .. SRC FEED N [PLACE]`. All files are opened before anything is read.
pub fn access(rt: &HostRuntime, asked: &Accesses<'_>) -> Result<u8, WorkshopFault> {
    let (place, steps) = (
        asked.place.map(|place| place.as_bytes()),
        asked.steps.count(),
    );
    let mut progress = make_listener(rt, asked.tells_progress);
    let is_found = with_program(rt, &asked.program, |origin, file, feed, out| {
        let told = &mut progress;
        access_program(rt.alloc(), origin, file, feed, place, steps, out, told)
    })?;
    if is_found {
        Ok(DONE)
    } else {
        refuse_cell(rt, place.unwrap_or(b""))
    }
}

/// Says that no cell is shown as the one that is asked for.
fn refuse_cell(rt: &HostRuntime, place: &[u8]) -> Result<u8, WorkshopFault> {
    let mut stderr = Std::new(rt.stderr());
    write_all(&mut stderr, b"error: ")?;
    write_all(&mut stderr, place)?;
    refuse_arguments(rt, NO_CELL)
}

/// `agcws delays [--progress] .. SRC FEED N`. All files are opened before anything is read.
pub fn delays(rt: &HostRuntime, asked: &Timed<'_>) -> Result<u8, WorkshopFault> {
    let steps = asked.steps.count();
    let mut progress = make_listener(rt, asked.tells_progress);
    with_program(rt, &asked.program, |origin, file, feed, out| {
        let told = &mut progress;
        delays_program(rt.alloc(), origin, file, feed, steps, out, told)
    })?;
    Ok(DONE)
}

/// `agcws differ [--why K] .. SRC FEED N --with SRC2 FEED2`. A fault of a file of the other run is told by the file's
/// name.
pub fn differ(rt: &HostRuntime, asked: &Pair<'_>) -> Result<u8, WorkshopFault> {
    let mut last = Side::One;
    match differ_runs(rt, asked, &mut last) {
        Ok(()) => Ok(DONE),
        Err(fault) => match last {
            Side::One => Err(fault),
            Side::Other => refuse_other(rt, &asked.other, fault),
        },
    }
}

/// Tells where two runs part. It is told of which the files were opened or read last. All files are opened before
/// anything is read, but the table of names.
fn differ_runs(rt: &HostRuntime, asked: &Pair<'_>, last: &mut Side) -> Result<(), WorkshopFault> {
    let OpenProgram {
        origin,
        file,
        form,
        mut feed,
    } = opened_program(rt, &asked.program)?;
    *last = Side::Other;
    let OpenProgram {
        origin: other_origin,
        file: other,
        form: other_form,
        feed: mut other_feed,
    } = opened_program(rt, &asked.other)?;
    let mut file = taken_in(file, form);
    let mut other = taken_in(other, other_form);
    with_stdout(rt, |out| {
        differ_program(
            rt.alloc(),
            origin,
            &mut file,
            &mut feed,
            other_origin,
            &mut other,
            &mut other_feed,
            asked.steps.count(),
            asked.why,
            last,
            out,
        )
    })
}

/// Tells a fault of the other run of two by the name of its file. Of one that can't be read, or is too long, both names
/// stand.
fn refuse_other(
    rt: &HostRuntime,
    other: &Program<'_>,
    fault: WorkshopFault,
) -> Result<u8, WorkshopFault> {
    let (path, feed) = (other.path, other.feed);
    let told = match fault {
        WorkshopFault::Source(_) | WorkshopFault::Rope(_) => {
            format!(in rt.alloc(); "{path}: {fault}\n")
        }
        WorkshopFault::Feed(_) => format!(in rt.alloc(); "{feed}: {fault}\n"),
        WorkshopFault::ReadFailed | WorkshopFault::TooLong => {
            format!(in rt.alloc(); "{path} or {feed}: {fault}\n")
        }
        fault => return Err(fault),
    };
    write_all(
        &mut Std::new(rt.stderr()),
        told.map_err(no_memory)?.as_bytes(),
    )?;
    Ok(fault.status())
}

/// The most bytes of a feed, and of trials.
const MOST_BYTES: usize = 8_388_608;

/// `agcws whatif .. SRC FEED N TRIALS`. All files are opened before anything is read; the trials are read first.
pub fn whatif(rt: &HostRuntime, asked: &Trials<'_>) -> Result<u8, WorkshopFault> {
    let OpenProgram {
        origin,
        file,
        form,
        feed,
    } = opened_program(rt, &asked.program)?;
    let mut file = taken_in(file, form);
    let mut trials = opened(rt, asked.path)?;
    let trials = read_text(rt.alloc(), &mut trials, MOST_BYTES)?;
    if has_series(&trials) {
        return refuse_arguments(rt, NO_SERIES);
    }
    let trials = match read_trials(rt.alloc(), &trials) {
        Ok(trials) => trials,
        Err(WorkshopFault::NoMemory) => return Err(WorkshopFault::NoMemory),
        Err(fault) => return refuse_trials(rt, asked.path, fault),
    };
    let feed = read_text(rt.alloc(), &mut ReadAhead::new(feed), MOST_BYTES)?;
    let steps = asked.steps.count();
    with_stdout(rt, |out| {
        let (alloc, trials) = (rt.alloc(), trials.plain());
        if asked.tells_notes {
            try_notes(alloc, origin, &mut file, &feed, trials, steps, out)
        } else {
            try_program(alloc, origin, &mut file, &feed, trials, steps, out)
        }
    })?;
    Ok(DONE)
}

/// Whether a line of a text begins with EVERY.
fn has_series(text: &[u8]) -> bool {
    let mut rest = text;
    // (each line has a byte at least)
    for _ in 0..text.len() {
        let Some((line, following)) = next_line(rest) else {
            return false;
        };
        rest = following;
        if next_field(line, 0).is_some_and(|field| field.text == b"EVERY".as_slice()) {
            return true;
        }
    }
    false
}

/// Tells that the trials are refused.
fn refuse_trials(rt: &HostRuntime, path: &str, fault: WorkshopFault) -> Result<u8, WorkshopFault> {
    let told = format!(in rt.alloc(); "{path}: {fault}\n").map_err(no_memory)?;
    write_all(&mut Std::new(rt.stderr()), told.as_bytes())?;
    Ok(fault.status())
}

/// `agcws debug .. SRC FEED`. All files are opened before anything is read; commands come from standard input.
pub fn debug(rt: &HostRuntime, program: &Program<'_>) -> Result<u8, WorkshopFault> {
    let mut commands = Counted::new(Std::new(rt.stdin()));
    with_program(rt, program, |origin, file, feed, out| {
        debug_program(rt.alloc(), origin, file, feed, &mut commands, out)
    })?;
    tell_commands_end(commands.bytes(), &mut Std::new(rt.stderr()))?;
    Ok(DONE)
}

/// `agcws debug --extended .. SRC FEED`: files as without `--extended`.
pub fn debug_extended(rt: &HostRuntime, program: &Program<'_>) -> Result<u8, WorkshopFault> {
    let mut commands = Std::new(rt.stdin());
    with_program(rt, program, |origin, file, feed, out| {
        workshop::debug_extended(rt.alloc(), origin, file, feed, &mut commands, out)
    })?;
    Ok(DONE)
}
