//! From what is asked for to what is to be done.

ghost use Rattle.std.specs.Prelude.{◌≡◌, if◌then◌else◌};
ghost use Rattle.std.specs.Option.{option_map};
ghost use Rattle.plans.specs.declared.plan.Plan.TheVariants.{AssembleWithHoles};
ghost use Rattle.plans.specs.Plans.{
  access_of,
  align_of,
  asm_of,
  bank_of,
  bound_of,
  compare_of,
  cover_of,
  damages_of,
  debug_of,
  delays_of,
  differ_of,
  find_of,
  form_of,
  image_of,
  kind_of,
  language_of,
  notation_of,
  plan_of,
  program_of,
  listed_of,
  reach_of,
  run_of_listed,
  run_of,
  shown_of,
  summed_of,
  sums_of,
  trace_of,
  verdicts_of,
  version_named,
  version_of,
  whatif_of,
  words_of,
};

use crate::plan::{
    Accesses, Assembly, Check, Image, Kind, Listed, Original, Pair, Plan, Profile, Program,
    Reachable, Reaching, Routine, Run, Shown, Tests, Timed, Tracing, Trials, Verdicts, Words,
};
use crate::steps::Steps;
use arguments::{
    AccessArguments, AlignArguments, Arguments, AsmArguments, BoundArguments, CompareArguments,
    CoverArguments, DamagesArguments, DebugArguments, DelaysArguments, DifferArguments,
    FindArguments, ImageArguments, ImageVersion, ProgramArguments, ReachArguments, RunArguments,
    SumsArguments, TraceArguments, WhatIfArguments, WordsArguments,
};
use json_text::Notation;
use rope::{Form, Version};
use space::Bank;
use yayul::Language;

/// What is to be done where some arguments are given.
pub fn planned<'a>(arguments: Arguments<'a>) -> Plan<'a>
    ensures { result ≡ plan_of arguments.entry }
{
    match arguments {
        Arguments::Asm(asked) => asm(asked),
        Arguments::Run(asked) => run(asked),
        Arguments::Trace(asked) => trace(asked),
        Arguments::Cover(asked) => cover(asked),
        Arguments::Reach(asked) => reach(asked),
        Arguments::Bound(asked) => bound(asked),
        Arguments::Access(asked) => access(asked),
        Arguments::Delays(asked) => delays(asked),
        Arguments::WhatIf(asked) => whatif(asked),
        Arguments::Differ(asked) => differ(asked),
        Arguments::Debug(asked) => debug(asked),
        Arguments::Check(asked) => Plan::Check(Check {
            source: Original {
                path: asked.source,
                language: language(asked.is_flight),
                assumed: asked.assumed,
            },
            feeds: asked.feeds,
            tells_unused: asked.tells_unused,
            notation: notation(asked.is_json),
        }),
        Arguments::Expect(files, told) => Plan::Expect(Tests {
            files,
            verdicts: verdicts(told.is_tap, told.is_junit),
        }),
        Arguments::Explain(number) => Plan::Explain(number),
        Arguments::Upgrade(asked) => Plan::Upgrade(asked.old, asked.new),
        Arguments::Words(asked) => Plan::Show(words(asked)),
        Arguments::Compare(asked) => compare(asked),
        Arguments::Align(asked) => align(asked),
        Arguments::Find(asked) => find(asked),
        Arguments::Sums(asked) => sums(asked),
        Arguments::Parity(asked) => Plan::ShowParity(image(asked)),
        Arguments::Damages(asked) => damages(asked),
    }
}

/// Tells what is damaged in an image, or mends it.
fn damages<'a>(asked: DamagesArguments<'a>) -> Plan<'a>
    ensures { result ≡ damages_of asked.entry }
{
    if asked.is_source {
        Plan::ShowMended(image(asked.image))
    } else {
        Plan::ShowDamages(image(asked.image))
    }
}

/// Assembles a source.
fn asm<'a>(asked: AsmArguments<'a>) -> Plan<'a>
    ensures { result ≡ asm_of asked.entry }
{
    let assembly = Assembly {
        source: Original {
            path: asked.source,
            language: language(asked.is_flight),
            assumed: asked.assumed,
        },
        rope: asked.rope,
        version: version_named(asked.version),
        tells_uses: asked.has_xref,
    };
    if asked.has_holes {
        holed(assembly, asked.has_sums, asked.filling)
    } else if asked.has_sums {
        Plan::AssembleWithSums(assembly)
    } else {
        Plan::Assemble(assembly)
    }
}

/// Assembles a source with holes: with check words where an image fills them.
fn holed<'a>(assembly: Assembly<'a>, has_sums: bool, filling: Option<&'a str>) -> Plan<'a>
    ensures { result ≡ (if has_sums then summed_of assembly.entry filling.entry
        else AssembleWithHoles assembly.entry filling.entry) }
{
    match filling {
        Some(file) if has_sums => Plan::AssembleFilledWithSums(assembly, file),
        None if has_sums => Plan::SumsOfHoles,
        _ => Plan::AssembleWithHoles(assembly, filling),
    }
}

/// Runs a program.
fn run<'a>(asked: RunArguments<'a>) -> Plan<'a>
    ensures { result ≡ run_of asked.entry }
{
    match Steps::try_new(asked.steps) {
        Some(steps) => Plan::Run(Run {
            program: program(asked.program),
            steps,
            until_idle: asked.until_idle,
            has_holes: asked.has_holes,
            tells_progress: asked.tells_progress,
            tells_notes: asked.tells_notes,
            notation: notation(asked.is_json),
            tells_end: asked.tells_end,
        }),
        None => Plan::TooManySteps,
    }
}

/// Traces a run.
fn trace<'a>(asked: TraceArguments<'a>) -> Plan<'a>
    ensures { result ≡ trace_of asked.entry }
{
    let first = asked.first.unwrap_or(1);
    let end = asked.last.unwrap_or(asked.steps);
    if asked.last.is_some() && end < first {
        return Plan::NoSteps;
    }
    match Steps::try_new(end.min(asked.steps)) {
        Some(last) => Plan::Trace(Tracing {
            program: program(asked.program),
            first,
            last,
            shows_reads: asked.shows_reads,
            says: asked.says,
            tells_progress: asked.tells_progress,
        }),
        None => Plan::TooManySteps,
    }
}

/// Profiles a run.
fn cover<'a>(asked: CoverArguments<'a>) -> Plan<'a>
    ensures { result ≡ cover_of asked.entry }
{
    match Steps::try_new(asked.steps) {
        Some(steps) => Plan::Cover(Profile {
            program: program(asked.program),
            steps,
            tells_progress: asked.tells_progress,
            notation: notation(asked.is_json),
        }),
        None => Plan::TooManySteps,
    }
}

/// Shows what is reached, beside a run or not.
fn reach<'a>(asked: ReachArguments<'a>) -> Plan<'a>
    ensures { result ≡ reach_of asked.entry }
{
    let listed = listed(asked);
    match asked.run {
        None => Plan::Reach(Reachable {
            listed,
            shows_roots: asked.shows_roots,
        }),
        Some(run) => match Steps::try_new(run.steps) {
            Some(steps) => Plan::ReachRun(Reaching {
                program: run_of_listed(listed, run.feed),
                steps,
                shows_roots: asked.shows_roots,
            }),
            None => Plan::TooManySteps,
        },
    }
}

/// A program that is shown, with a feed.
fn run_of_listed<'a>(listed: Listed<'a>, feed: &'a str) -> Program<'a>
    ensures { result ≡ run_of_listed listed.entry feed.entry }
{
    Program {
        path: listed.path,
        form: listed.form,
        kind: listed.kind,
        symbols: listed.symbols,
        feed,
    }
}

/// A program that is shown.
fn listed<'a>(asked: ReachArguments<'a>) -> Listed<'a>
    ensures { result ≡ listed_of asked.entry }
{
    let code = asked.file;
    Listed {
        path: code.path,
        form: form(code.is_hardware, code.is_parity_ignored),
        kind: kind(asked.is_image, asked.is_flight, code),
        symbols: asked.symbols,
    }
}

/// Tells the most cycles of a routine.
fn bound<'a>(asked: BoundArguments<'a>) -> Plan<'a>
    ensures { result ≡ bound_of asked.entry }
{
    Plan::Bound(Routine {
        listed: listed(asked.listed),
        name: asked.routine,
        loops: asked.loops,
        kept: asked.kept,
    })
}

/// Counts the reads and writes of a run.
fn access<'a>(asked: AccessArguments<'a>) -> Plan<'a>
    ensures { result ≡ access_of asked.entry }
{
    match Steps::try_new(asked.steps) {
        Some(steps) => Plan::Access(Accesses {
            program: program(asked.program),
            steps,
            place: asked.place,
            tells_progress: asked.tells_progress,
        }),
        None => Plan::TooManySteps,
    }
}

/// Tells how long the interrupts of a run waited.
fn delays<'a>(asked: DelaysArguments<'a>) -> Plan<'a>
    ensures { result ≡ delays_of asked.entry }
{
    match Steps::try_new(asked.steps) {
        Some(steps) => Plan::Delays(Timed {
            program: program(asked.program),
            steps,
            tells_progress: asked.tells_progress,
        }),
        None => Plan::TooManySteps,
    }
}

/// Tries inputs.
fn whatif<'a>(asked: WhatIfArguments<'a>) -> Plan<'a>
    ensures { result ≡ whatif_of asked.entry }
{
    match Steps::try_new(asked.steps) {
        Some(steps) => Plan::WhatIf(Trials {
            program: program(asked.program),
            steps,
            path: asked.trials,
            tells_notes: asked.tells_notes,
        }),
        None => Plan::TooManySteps,
    }
}

/// Tells where two runs part.
fn differ<'a>(asked: DifferArguments<'a>) -> Plan<'a>
    ensures { result ≡ differ_of asked.entry }
{
    match Steps::try_new(asked.steps) {
        Some(steps) => Plan::Differ(Pair {
            program: program(asked.program),
            other: program(asked.other),
            steps,
            why: asked.why,
        }),
        None => Plan::TooManySteps,
    }
}

/// Debugs a program.
fn debug<'a>(asked: DebugArguments<'a>) -> Plan<'a>
    ensures { result ≡ debug_of asked.entry }
{
    let program = program(asked.program);
    if asked.is_extended {
        Plan::DebugExtended(program)
    } else {
        Plan::Debug(program)
    }
}

/// Shows the words of an image.
fn words<'a>(asked: WordsArguments<'a>) -> Words<'a>
    ensures { result ≡ words_of asked.entry }
{
    Words {
        image: image(asked.image),
        bank: asked.bank.and_then(Bank::try_new),
        shown: shown(
            asked.symbols,
            asked.is_source,
            asked.is_octal,
            asked.has_xref,
            asked.has_holes,
        ),
        tells_where: asked.tells_where,
    }
}

/// How the words of an image are shown.
fn shown<'a>(
    symbols: Option<&'a str>,
    is_source: bool,
    is_octal: bool,
    has_xref: bool,
    has_holes: bool,
) -> Shown<'a>
    ensures { result ≡ shown_of symbols.entry is_source is_octal has_xref has_holes }
{
    match symbols {
        Some(table) if is_source => Shown::NamedSource(table),
        Some(table) if has_xref => Shown::Crossed(table),
        Some(source) if has_holes => Shown::Holed(source),
        Some(table) => Shown::Named(table),
        None if is_source => Shown::Source,
        None if is_octal => Shown::Octals,
        None => Shown::Instructions,
    }
}

/// Compares two images, or a source with an image.
fn compare<'a>(asked: CompareArguments<'a>) -> Plan<'a>
    ensures { result ≡ compare_of asked.entry }
{
    let new = image(asked.new);
    if asked.is_source {
        let source = Original {
            path: asked.old.path,
            language: language(asked.is_flight),
            assumed: asked.assumed,
        };
        if asked.has_holes || asked.has_banks || asked.assumed.is_some() {
            Plan::CompareBanks(source, new, asked.has_holes)
        } else {
            Plan::CompareOnly(source, new)
        }
    } else {
        Plan::Compare(image(asked.old), new)
    }
}

/// Aligns two images, or carries the names of the first to the second.
fn align<'a>(asked: AlignArguments<'a>) -> Plan<'a>
    ensures { result ≡ align_of asked.entry }
{
    let (old, new) = (image(asked.old), image(asked.new));
    match asked.symbols {
        Some(table) => Plan::Carry(table, old, new),
        None => Plan::Align(old, new),
    }
}

/// Finds a passage of a source in an image.
fn find<'a>(asked: FindArguments<'a>) -> Plan<'a>
    ensures { result ≡ find_of asked.entry }
{
    let passage = Original {
        path: asked.passage,
        language: language(asked.is_flight),
        assumed: None,
    };
    Plan::Find(passage, image(asked.image))
}

/// Sums the banks of an image.
fn sums<'a>(asked: SumsArguments<'a>) -> Plan<'a>
    ensures { result ≡ sums_of asked.entry }
{
    let image = image(asked.image);
    if asked.has_both_forms {
        Plan::SumBothForms(image)
    } else {
        Plan::Sum(image)
    }
}

/// An image that is read.
fn image<'a>(asked: ImageArguments<'a>) -> Image<'a>
    ensures { result ≡ image_of asked.entry }
{
    Image {
        path: asked.path,
        form: form(asked.is_hardware, asked.is_parity_ignored),
        layout: asked.layout,
        version: version(asked.is_parity_ignored, asked.version),
    }
}

/// A program that is run.
fn program<'a>(asked: ProgramArguments<'a>) -> Program<'a>
    ensures { result ≡ program_of asked.entry }
{
    let file = asked.file;
    Program {
        path: file.path,
        form: form(file.is_hardware, file.is_parity_ignored),
        kind: kind(asked.is_image, asked.is_flight, file),
        symbols: asked.symbols,
        feed: asked.feed,
    }
}

/// What the file of a program is.
fn kind<'a>(is_image: bool, is_flight: bool, file: ImageArguments<'a>) -> Kind
    ensures { result ≡ kind_of is_image is_flight file.entry }
{
    if is_image {
        Kind::Image(version(file.is_parity_ignored, file.version))
    } else {
        Kind::Source(language(is_flight))
    }
}

/// How the bytes of an image are taken.
fn form(is_hardware: bool, is_parity_ignored: bool) -> Form
    ensures { result ≡ form_of is_hardware is_parity_ignored }
{
    match (is_hardware, is_parity_ignored) {
        (false, false) => Form::AsWritten,
        (false, true) => Form::ParityIgnored,
        (true, false) => Form::Hardware,
        (true, true) => Form::HardwareParityIgnored,
    }
}

/// The version in which an image is read.
fn version(is_parity_ignored: bool, named: ImageVersion) -> Version
    ensures { result ≡ version_of is_parity_ignored named }
{
    if is_parity_ignored {
        Version::One
    } else {
        version_named(named)
    }
}

/// A version, by its name.
fn version_named(named: ImageVersion) -> Version
    ensures { result ≡ version_named named }
{
    match named {
        ImageVersion::One => Version::One,
        ImageVersion::Two => Version::Two,
    }
}

/// The language of a source.
fn language(is_flight: bool) -> Language
    ensures { result ≡ language_of is_flight }
{
    if is_flight {
        Language::Flight
    } else {
        Language::Standard
    }
}

/// In which form verdicts are told.
fn verdicts(is_tap: bool, is_junit: bool) -> Verdicts
    ensures { result ≡ verdicts_of is_tap is_junit }
{
    if is_tap {
        Verdicts::Tap
    } else if is_junit {
        Verdicts::Junit
    } else {
        Verdicts::Lines
    }
}

/// In which notation rows are written.
fn notation(is_json: bool) -> Notation
    ensures { result ≡ notation_of is_json }
{
    if is_json {
        Notation::Json
    } else {
        Notation::Text
    }
}
