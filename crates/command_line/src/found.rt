//! The values of the arguments that a call gives.

use crate::given::Values;
use crate::names::ACCESS;
use crate::names::ALIGN;
use crate::names::AS_OCTAL;
use crate::names::AS_SOURCE;
use crate::names::ASM;
use crate::names::ASSUMED;
use crate::names::BANK;
use crate::names::BANK_COUNT;
use crate::names::BANKS;
use crate::names::BOTH_FORMS;
use crate::names::BOUND;
use crate::names::CHECK;
use crate::names::COMPARE;
use crate::names::COVER;
use crate::names::DAMAGES;
use crate::names::DEBUG;
use crate::names::DELAYS;
use crate::names::DIFFER;
use crate::names::END;
use crate::names::EXPECT;
use crate::names::EXPLAIN;
use crate::names::EXTENDED;
use crate::names::FEED;
use crate::names::FEEDS;
use crate::names::FILES;
use crate::names::FILLING;
use crate::names::FIND;
use crate::names::FLIGHT;
use crate::names::FORM;
use crate::names::FORMS;
use crate::names::FROM;
use crate::names::IGNORED_PARITY;
use crate::names::IMAGE;
use crate::names::JSON;
use crate::names::JUNIT;
use crate::names::KEPT;
use crate::names::LOOPS;
use crate::names::NEW;
use crate::names::NEW_FORM;
use crate::names::NEW_VERSION;
use crate::names::NOTES;
use crate::names::NUMBER;
use crate::names::OLD;
use crate::names::OLD_FORM;
use crate::names::OLD_VERSION;
use crate::names::ONLY;
use crate::names::PARITY;
use crate::names::PASSAGE;
use crate::names::PLACE;
use crate::names::PROGRESS;
use crate::names::REACH;
use crate::names::READS;
use crate::names::ROOTS;
use crate::names::ROPE;
use crate::names::ROUTINE;
use crate::names::RUN;
use crate::names::RUN_FEED;
use crate::names::RUN_STEPS;
use crate::names::SAY;
use crate::names::SOURCE;
use crate::names::STEPS;
use crate::names::SUMS;
use crate::names::SYMBOLS;
use crate::names::TAP;
use crate::names::TO;
use crate::names::TRACE;
use crate::names::TRIALS;
use crate::names::UNTIL_IDLE;
use crate::names::UNUSED;
use crate::names::UPGRADE;
use crate::names::VERSION;
use crate::names::VERSION_ONE;
use crate::names::WHATIF;
use crate::names::WHERE;
use crate::names::WHY;
use crate::names::WITH;
use crate::names::WITH_BANKS;
use crate::names::WITH_HOLES;
use crate::names::WITH_SUMS;
use crate::names::WITH_XREF;
use crate::names::WORDS;
use arguments::AccessArguments;
use arguments::AlignArguments;
use arguments::Arguments;
use arguments::AsmArguments;
use arguments::BoundArguments;
use arguments::CheckArguments;
use arguments::CompareArguments;
use arguments::CoverArguments;
use arguments::DamagesArguments;
use arguments::DebugArguments;
use arguments::DelaysArguments;
use arguments::DifferArguments;
use arguments::FindArguments;
use arguments::ImageArguments;
use arguments::ImageLayout;
use arguments::ImageVersion;
use arguments::ProgramArguments;
use arguments::ReachArguments;
use arguments::ReachRun;
use arguments::RunArguments;
use arguments::SumsArguments;
use arguments::TraceArguments;
use arguments::UpgradeArguments;
use arguments::VerdictArguments;
use arguments::WhatIfArguments;
use arguments::WordsArguments;
use std::alloc::AllocError;
use std::alloc::Global;

/// The arguments of a subcommand; `None` where one is missing that the reader has seen to be there.
pub(crate) fn arguments<'a>(
    alloc: Global,
    name: &str,
    values: &Values<'_, 'a>,
) -> Result<Option<Arguments<'a>>, AllocError> {
    Ok(match name {
        ASM => asm(values).map(Arguments::Asm),
        RUN => run(values).map(Arguments::Run),
        TRACE => trace(values).map(Arguments::Trace),
        COVER => cover(values).map(Arguments::Cover),
        REACH => reach(values).map(Arguments::Reach),
        BOUND => bound(values).map(Arguments::Bound),
        ACCESS => access(values).map(Arguments::Access),
        DELAYS => delays(values).map(Arguments::Delays),
        WHATIF => whatif(values).map(Arguments::WhatIf),
        DIFFER => differ(values).map(Arguments::Differ),
        DEBUG => debug(values).map(Arguments::Debug),
        CHECK => check(alloc, values)?.map(Arguments::Check),
        EXPECT => Some(Arguments::Expect(all(alloc, values, FILES)?, verdicts(values))),
        EXPLAIN => Some(Arguments::Explain(values.text(NUMBER))),
        UPGRADE => upgrade(values).map(Arguments::Upgrade),
        WORDS => words(values).map(Arguments::Words),
        COMPARE => compare(values).map(Arguments::Compare),
        ALIGN => align(values).map(Arguments::Align),
        FIND => find(values).map(Arguments::Find),
        SUMS => sums(values).map(Arguments::Sums),
        PARITY => parity(values).map(Arguments::Parity),
        DAMAGES => damages(values).map(Arguments::Damages),
        _ => None,
    })
}

fn asm<'a>(values: &Values<'_, 'a>) -> Option<AsmArguments<'a>> {
    Some(AsmArguments {
        source: values.text(SOURCE)?,
        rope: values.text(ROPE)?,
        version: version(values, VERSION),
        is_flight: values.has(FLIGHT),
        has_sums: values.has(WITH_SUMS),
        has_xref: values.has(WITH_XREF),
        has_holes: values.has(WITH_HOLES),
        filling: values.text(FILLING),
        assumed: values.text(ASSUMED),
    })
}

fn run<'a>(values: &Values<'_, 'a>) -> Option<RunArguments<'a>> {
    Some(RunArguments {
        program: program(values)?,
        steps: values.number(STEPS)?,
        until_idle: values.has(UNTIL_IDLE),
        has_holes: values.has(WITH_HOLES),
        tells_end: values.has(END),
        tells_progress: values.has(PROGRESS),
        tells_notes: values.has(NOTES),
        is_json: values.has(JSON),
    })
}

fn trace<'a>(values: &Values<'_, 'a>) -> Option<TraceArguments<'a>> {
    Some(TraceArguments {
        program: program(values)?,
        steps: values.number(STEPS)?,
        first: values.number(FROM),
        last: values.number(TO),
        shows_reads: values.has(READS),
        says: values.has(SAY),
        tells_progress: values.has(PROGRESS),
    })
}

fn cover<'a>(values: &Values<'_, 'a>) -> Option<CoverArguments<'a>> {
    Some(CoverArguments {
        program: program(values)?,
        steps: values.number(STEPS)?,
        tells_progress: values.has(PROGRESS),
        is_json: values.has(JSON),
    })
}

fn reach<'a>(values: &Values<'_, 'a>) -> Option<ReachArguments<'a>> {
    Some(ReachArguments {
        shows_roots: values.has(ROOTS),
        ..listed(values, reach_run(values))?
    })
}

/// A program that is shown, beside a run or not.
fn listed<'a>(values: &Values<'_, 'a>, run: Option<ReachRun<'a>>) -> Option<ReachArguments<'a>> {
    Some(ReachArguments {
        file: image(values, SOURCE, VERSION, FORM)?,
        is_image: values.has(IMAGE),
        is_flight: values.has(FLIGHT),
        symbols: values.text(SYMBOLS),
        run,
        shows_roots: false,
    })
}

/// The run that is made beside what is reached; each of its options needs the other.
fn reach_run<'a>(values: &Values<'_, 'a>) -> Option<ReachRun<'a>> {
    Some(ReachRun {
        feed: values.text(RUN_FEED)?,
        steps: values.number(RUN_STEPS)?,
    })
}

fn bound<'a>(values: &Values<'_, 'a>) -> Option<BoundArguments<'a>> {
    Some(BoundArguments {
        listed: listed(values, None)?,
        routine: values.text(ROUTINE)?,
        loops: values.text(LOOPS),
        kept: values.text(KEPT),
    })
}

fn access<'a>(values: &Values<'_, 'a>) -> Option<AccessArguments<'a>> {
    Some(AccessArguments {
        program: program(values)?,
        steps: values.number(STEPS)?,
        place: values.text(PLACE),
        tells_progress: values.has(PROGRESS),
    })
}

fn delays<'a>(values: &Values<'_, 'a>) -> Option<DelaysArguments<'a>> {
    Some(DelaysArguments {
        program: program(values)?,
        steps: values.number(STEPS)?,
        tells_progress: values.has(PROGRESS),
    })
}

fn whatif<'a>(values: &Values<'_, 'a>) -> Option<WhatIfArguments<'a>> {
    Some(WhatIfArguments {
        program: program(values)?,
        steps: values.number(STEPS)?,
        trials: values.text(TRIALS)?,
        tells_notes: values.has(NOTES),
    })
}

fn differ<'a>(values: &Values<'_, 'a>) -> Option<DifferArguments<'a>> {
    let program = program(values)?;
    Some(DifferArguments {
        program,
        other: ProgramArguments {
            file: ImageArguments {
                path: values.nth(WITH, 0)?,
                ..program.file
            },
            feed: values.nth(WITH, 1)?,
            ..program
        },
        steps: values.number(STEPS)?,
        why: values.number(WHY),
    })
}

fn debug<'a>(values: &Values<'_, 'a>) -> Option<DebugArguments<'a>> {
    Some(DebugArguments {
        program: program(values)?,
        is_extended: values.has(EXTENDED),
    })
}

fn check<'a>(
    alloc: Global,
    values: &Values<'_, 'a>,
) -> Result<Option<CheckArguments<'a>>, AllocError> {
    let Some(source) = values.text(SOURCE) else {
        return Ok(None);
    };
    Ok(Some(CheckArguments {
        source,
        feeds: all(alloc, values, FEEDS)?,
        is_flight: values.has(FLIGHT),
        tells_unused: values.has(UNUSED),
        is_json: values.has(JSON),
        assumed: values.text(ASSUMED),
    }))
}

/// All values of an argument.
fn all<'a>(alloc: Global, values: &Values<'_, 'a>, name: &str) -> Result<Vec<&'a str>, AllocError> {
    let mut texts = Vec::new(alloc);
    for it in values.given {
        if it.row.name == name {
            texts.push(it.value)?;
        }
    }
    Ok(texts)
}

fn verdicts(values: &Values<'_, '_>) -> VerdictArguments {
    VerdictArguments {
        is_tap: values.has(TAP),
        is_junit: values.has(JUNIT),
    }
}

fn upgrade<'a>(values: &Values<'_, 'a>) -> Option<UpgradeArguments<'a>> {
    Some(UpgradeArguments {
        old: values.text(OLD)?,
        new: values.text(NEW)?,
    })
}

fn words<'a>(values: &Values<'_, 'a>) -> Option<WordsArguments<'a>> {
    Some(WordsArguments {
        image: image(values, ROPE, VERSION, FORM)?,
        bank: values.text(BANK).and_then(bank_named),
        is_source: values.has(AS_SOURCE),
        is_octal: values.has(AS_OCTAL),
        symbols: values.text(SYMBOLS),
        has_xref: values.has(WITH_XREF),
        has_holes: values.has(WITH_HOLES),
        tells_where: values.has(WHERE),
    })
}

fn compare<'a>(values: &Values<'_, 'a>) -> Option<CompareArguments<'a>> {
    Some(CompareArguments {
        old: image(values, OLD, OLD_VERSION, OLD_FORM)?,
        new: image(values, NEW, NEW_VERSION, NEW_FORM)?,
        is_source: values.has(ONLY),
        is_flight: values.has(FLIGHT),
        has_holes: values.has(WITH_HOLES),
        has_banks: values.has(WITH_BANKS),
        assumed: values.text(ASSUMED),
    })
}

fn align<'a>(values: &Values<'_, 'a>) -> Option<AlignArguments<'a>> {
    Some(AlignArguments {
        old: image(values, OLD, OLD_VERSION, OLD_FORM)?,
        new: image(values, NEW, NEW_VERSION, NEW_FORM)?,
        symbols: values.text(SYMBOLS),
    })
}

fn find<'a>(values: &Values<'_, 'a>) -> Option<FindArguments<'a>> {
    Some(FindArguments {
        passage: values.text(PASSAGE)?,
        is_flight: values.has(FLIGHT),
        image: image(values, ROPE, VERSION, FORM)?,
    })
}

fn sums<'a>(values: &Values<'_, 'a>) -> Option<SumsArguments<'a>> {
    Some(SumsArguments {
        image: image(values, ROPE, VERSION, FORM)?,
        has_both_forms: values.has(BOTH_FORMS),
    })
}

fn parity<'a>(values: &Values<'_, 'a>) -> Option<ImageArguments<'a>> {
    image(values, ROPE, VERSION, FORM)
}

fn damages<'a>(values: &Values<'_, 'a>) -> Option<DamagesArguments<'a>> {
    Some(DamagesArguments {
        image: image(values, ROPE, VERSION, FORM)?,
        is_source: values.has(AS_SOURCE),
    })
}

/// A program with its feed.
fn program<'a>(values: &Values<'_, 'a>) -> Option<ProgramArguments<'a>> {
    Some(ProgramArguments {
        file: image(values, SOURCE, VERSION, FORM)?,
        is_image: values.has(IMAGE),
        is_flight: values.has(FLIGHT),
        symbols: values.text(SYMBOLS),
        feed: values.text(FEED)?,
    })
}

/// A file that is an image, or may be one: by the names of its argument, and of the options of its version and form.
fn image<'a>(
    values: &Values<'_, 'a>,
    file: &str,
    version_option: &str,
    form_option: &str,
) -> Option<ImageArguments<'a>> {
    let form = values.text(form_option).map_or(0, form_named);
    Some(ImageArguments {
        path: values.text(file)?,
        version: version(values, version_option),
        is_parity_ignored: values.text(IGNORED_PARITY).is_some(),
        is_hardware: form % 2 == 1,
        layout: ImageLayout {
            is_swapped: form / 2 % 2 == 1,
            is_complemented: form / 4 % 2 == 1,
            is_numbered: form / 8 == 1,
            one_module: (form / 8).saturating_sub(1),
        },
    })
}

/// The number of a form by its name; 0 where it has none.
fn form_named(name: &str) -> usize {
    for (number, form) in FORMS.iter().enumerate() {
        if *form == name {
            return number.saturating_add(1);
        }
    }
    0
}

/// The version of an image that an option names.
fn version(values: &Values<'_, '_>, option: &str) -> ImageVersion {
    match values.text(option) {
        Some(VERSION_ONE) => ImageVersion::One,
        _ => ImageVersion::Two,
    }
}

/// The number of the bank of a name.
fn bank_named(name: &str) -> Option<u16> {
    for (number, bank) in BANKS.iter().enumerate() {
        if *bank == name {
            return Some((number % BANK_COUNT) as u16);
        }
    }
    None
}
