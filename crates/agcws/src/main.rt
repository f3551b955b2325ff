//! `agcws`: assembles, runs and debugs programs for the Apollo Guidance Computer, and shows rope images.
#![tactic(auto)]

mod assumptions;
mod dumps;
mod expectations;
mod files;
mod gathered;
mod hints;
mod joining;
mod located;
mod programs;
mod progress;
mod ropes;
mod sources;
mod target;
mod verdicts;

use command_line::{Parsed, parse};
use expectations::expect;
use files::{no_memory, with_stdout};
use hints::tell_more;
use joining::refuse_source;
use plans::{Plan, planned};
use programs::{
    access, bound, cover, debug, debug_extended, delays, differ, reach, reach_beside_run, run,
    trace, whatif,
};
use ropes::{
    align, carry, compare, compare_banks, compare_only, find, show_damages, show_mended,
    show_parity, show_sums, show_sums_of_both_forms, show_words, upgrade,
};
use sources::{assemble, assemble_filled_with_sums, assemble_holed, assemble_with_sums, check};
use std::alloc::AllocError;
use std::process::ExitCode;
use std::{env, fs, io};
use words::{Std, write_all};
use workshop::{
    Refusal, WorkshopFault, all_headings, explanation, note_explanation, note_kind, refusal_of,
    report, warning_explanation, warning_of,
};

const _: () = prove!(command_line::MOST_STEPS == workshop::MOST_STEPS);

/// The exit status where all is done.
const DONE: u8 = 0;

/// The exit status where two images differ, or an image has a wrong parity or a damage.
const DIFFERENT: u8 = 1;

/// The exit status where a run does not bear out what is claimed of it.
const FAILED: u8 = 1;

/// The exit status where a run has stopped at a hole.
const STOPPED: u8 = 1;

/// The exit status where no bound of a routine was found.
const NOT_BOUND: u8 = 1;

/// The exit status where a source has a fault.
const REFUSED: u8 = 1;

/// The exit status where the arguments are wrong.
const WRONG_ARGUMENTS: u8 = 2;

/// The null device.
const NULL: &str = "/dev/null";

/// What is said of what is no number of a refusal or a warning, and no kind of notes.
const NO_REFUSAL: &[u8] =
    b"error: no refusal, no warning and no note is called so; agcws explain lists them\n";

/// What is said of a trace whose first step is after its last.
const NO_STEPS: &[u8] =
    b"error: --to names an earlier step than --from, which is 1 where it is not given\n";

/// The exit status where not even a fault's line can be written.
const NOT_REPORTED: u8 = 3;

/// What is said of check words where nothing fills the holes.
const SUMS_OF_HOLES: &[u8] =
    b"error: a bank with a hole has no sum: --sums beside --holes needs --fill FILE, the image that fills it\n";

/// What is said where the routine, or a place or a cell, is none.
const NO_ROUTINE: &[u8] =
    b"error: ROUTINE or a place of --loops is no place of fixed memory, a number of --loops is missing, or a cell of \
        --kept is none\n";

/// What is said where no cell is shown as the one that is asked for, after what is asked for.
const NO_CELL: &[u8] =
    b" is no cell: PLACE is a symbol of an erasable place, also as 'VEL +1', a cell as E3,1401, Q or CH11, or the \
        octal number of an erasable place, as 104\n";

/// What is said where a line of trials is one of a series.
const NO_SERIES: &[u8] =
    b"error: a line of TRIALS begins with EVERY: each input that is tried has a line of its own\n";

fn main(rt: HostRuntime) -> ExitCode {
    // A file that is opened gets the lowest number that is free, and so that of a standard stream which was closed. The
    // null device takes its place: it has nothing to read, and opened so it can't be written.
    let _in_place_of_closed_streams = [
        fs::open(&rt, NULL),
        fs::open(&rt, NULL),
        fs::open(&rt, NULL),
    ];
    ExitCode::from(match perform(&rt) {
        Ok(status) => status,
        Err(fault) => match report(&fault, &mut Std::new(rt.stderr())) {
            Ok(status) => after_hint(&rt, &fault, status),
            Err(_) => NOT_REPORTED,
        },
    })
}

/// The exit status of a fault, once a person at a terminal was told what tells more of it.
fn after_hint(rt: &HostRuntime, fault: &WorkshopFault, status: u8) -> u8 {
    match tell_more(rt, fault) {
        Ok(()) => status,
        Err(_) => NOT_REPORTED,
    }
}

/// Does what the arguments ask for, and answers the exit status.
fn perform(rt: &HostRuntime) -> Result<u8, WorkshopFault> {
    let words: Vec<String> = match env::args(rt) {
        Ok(words) => words.collect(rt.alloc()).map_err(no_memory)?,
        Err(error) if error.kind() == io::ErrorKind::OutOfMemory => {
            return Err(WorkshopFault::NoMemory);
        }
        Err(_) => return refuse_arguments(rt, b"error: an argument is not valid UTF-8\n"),
    };
    match parse(rt.alloc(), words.as_slice()).map_err(no_memory)? {
        Parsed::Arguments(arguments) => follow_and_locate(rt, &planned(arguments)),
        Parsed::Help(text) => tell_help(rt, text.as_str().as_bytes()),
        Parsed::Wrong(text) => refuse_arguments(rt, text.as_str().as_bytes()),
    }
}

/// Does what is planned. A fault of a source that was joined of its files is told by its file.
fn follow_and_locate(rt: &HostRuntime, plan: &Plan<'_>) -> Result<u8, WorkshopFault> {
    let fault = match follow(rt, plan) {
        Ok(status) => return Ok(status),
        Err(fault) => fault,
    };
    match refuse_source(rt, plan, &fault)? {
        Some(status) => Ok(after_hint(rt, &fault, status)),
        None => Err(fault),
    }
}

/// Does what is planned.
fn follow(rt: &HostRuntime, plan: &Plan<'_>) -> Result<u8, WorkshopFault> {
    match plan {
        Plan::Assemble(assembly) => assemble(rt, assembly),
        Plan::AssembleWithSums(assembly) => assemble_with_sums(rt, assembly),
        Plan::AssembleWithHoles(assembly, filling) => assemble_holed(rt, assembly, *filling),
        Plan::AssembleFilledWithSums(assembly, filling) => {
            assemble_filled_with_sums(rt, assembly, *filling)
        }
        Plan::Run(it) => run(rt, it),
        Plan::Trace(tracing) => trace(rt, tracing),
        Plan::Cover(profile) => cover(rt, profile),
        Plan::Reach(listed) => reach(rt, listed),
        Plan::ReachRun(asked) => reach_beside_run(rt, asked),
        Plan::Bound(routine) => bound(rt, routine),
        Plan::Access(accesses) => access(rt, accesses),
        Plan::Delays(timed) => delays(rt, timed),
        Plan::Differ(pair) => differ(rt, pair),
        Plan::WhatIf(trials) => whatif(rt, trials),
        Plan::Debug(program) => debug(rt, program),
        Plan::DebugExtended(program) => debug_extended(rt, program),
        Plan::Check(it) => check(rt, it),
        Plan::Expect(it) => expect(rt, it.files.as_slice(), it.verdicts),
        Plan::Explain(number) => explain(rt, *number),
        Plan::Upgrade(old, new) => upgrade(rt, old, new),
        Plan::Show(words) => show_words(rt, words),
        Plan::Compare(old, new) => compare(rt, old, new),
        Plan::CompareOnly(source, image) => compare_only(rt, source, image),
        Plan::CompareBanks(source, image, holes) => compare_banks(rt, source, image, *holes),
        Plan::Align(old, new) => align(rt, old, new),
        Plan::Carry(table, old, new) => carry(rt, table, old, new),
        Plan::Find(passage, image) => find(rt, passage, image),
        Plan::Sum(image) => show_sums(rt, image),
        Plan::SumBothForms(image) => show_sums_of_both_forms(rt, image),
        Plan::ShowParity(image) => show_parity(rt, image),
        Plan::ShowDamages(image) => show_damages(rt, image),
        Plan::ShowMended(image) => show_mended(rt, image),
        Plan::NoSteps => refuse_arguments(rt, NO_STEPS),
        Plan::TooManySteps => Ok(WRONG_ARGUMENTS),
        Plan::SumsOfHoles => refuse_arguments(rt, SUMS_OF_HOLES),
    }
}

/// Writes help to standard output.
fn tell_help(rt: &HostRuntime, text: &[u8]) -> Result<u8, WorkshopFault> {
    write_all(&mut Std::new(rt.stdout()), text)?;
    Ok(DONE)
}

/// Says what is wrong with the arguments.
pub(crate) fn refuse_arguments(rt: &HostRuntime, text: &[u8]) -> Result<u8, WorkshopFault> {
    write_all(&mut Std::new(rt.stderr()), text)?;
    Ok(WRONG_ARGUMENTS)
}

/// `agcws explain [NUMBER]`, or a kind of notes.
fn explain(rt: &HostRuntime, number: Option<&str>) -> Result<u8, WorkshopFault> {
    let text = match number {
        None => all_headings(rt.alloc()),
        Some(name) => match explained(rt, name) {
            Some(text) => text,
            None => return refuse_arguments(rt, NO_REFUSAL),
        },
    };
    let text = text.map_err(no_memory)?;
    with_stdout(rt, |out| Ok(write_all(out, text.as_slice())?))?;
    Ok(DONE)
}

/// What is explained of a name, where a warning, a refusal or a kind of notes has it.
fn explained(rt: &HostRuntime, name: &str) -> Option<Result<Vec<u8>, AllocError>> {
    if let Some(warning) = warning_named(name) {
        return Some(warning_explanation(rt.alloc(), &warning));
    }
    if let Some(refusal) = refusal_named(name) {
        return Some(explanation(rt.alloc(), &refusal));
    }
    let kind = note_kind(name.as_bytes())?;
    Some(note_explanation(rt.alloc(), name.as_bytes(), &kind))
}

/// The refusal of a number as it is named: 17, or E17.
fn refusal_named(name: &str) -> Option<Refusal> {
    refusal_of(number_in(name.strip_prefix('E').unwrap_or(name))?)
}

/// The warning of a number as it is named: W4.
fn warning_named(name: &str) -> Option<Refusal> {
    warning_of(number_in(name.strip_prefix('W')?)?)
}

/// The number of some digits: `parse` takes a sign too.
fn number_in(digits: &str) -> Option<u8> {
    if digits.starts_with('+') {
        None
    } else {
        digits.parse::<u8>().ok()
    }
}
