//! All faults of a source at once.

ghost use Rattle.std.specs.Prelude.{◌≡◌, ◌<◌, ◌≤◌, ◌+◌, ◌++◌, ◌&&◌, ◌||◌, [], not, ℕ, false, true, length, map, filter};
ghost use Rattle.std.specs.Prelude.{flat_map, nat_lt, IfErr, IfOk, IfSome, OnOk, ◌∷◌, if◌then◌else◌};
ghost use Rattle.agc_text.specs.Bytes.{line_length};
ghost use Rattle.arrayvec.specs.ArrayVec.{array_vec_len};
ghost use Rattle.std.specs.List.{list_any, list_all};
ghost use Rattle.std.specs.Option.{option_map_or};
ghost use Rattle.yayul.specs.Layout.{standing, fault_number, statement_on};
ghost use Rattle.yayul.specs.Inside.Answers.{layout_of};
ghost use Rattle.yayul.specs.Program.{no_memory};
ghost use Rattle.yayul.specs.Mended.{lacks_form};
ghost use Rattle.yayul.specs.Language.{Missing};
ghost use Rattle.yayul.specs.Survey.{Survey as Surveyed, unmarked, noted, operation_on, is_of_label, is_done, is_kept};
ghost use Rattle.yayul.specs.Survey.{names_one, waits_in_vain, label_lost, laid, passed_over};
ghost use Rattle.yayul.specs.Survey.{done_line, with_known, some_stands, passed_line, passed_lines, settled_survey};
ghost use Rattle.yayul.specs.Survey.{follows, named_line, finding, taken_by, told_of, told_line, told_lines, looked_at};
ghost use Rattle.yayul.specs.Survey.{kinds_in_order, kinds_on, known_symbols, layout_kinds, told};
ghost use Rattle.yayul.specs.ReadLines.{passed};
ghost use Rattle.yayul.specs.Inside.Surveys.{Surveys, has_number, number_in, kinds_of, stands_beyond, doubt_of};
ghost use Rattle.yayul.specs.Inside.Surveys.{are_absent, is_absent, vain_of};

use crate::assembly::NO_MEMORY;
use crate::conditions::Conditions;
use crate::doubt::{Doubt, Known, is_same_byte};
use crate::faults::{Fault, FaultKind, least_fault};
use crate::finding::{Finding, Span};
use crate::language::{Label, Language, Location, Operation, Statement};
use crate::later::settle;
use crate::layout::{Layout, Placing};
use crate::read_line::ReadLine;
use crate::source_lines::SourceLines;
use crate::word_lines::WordLines;
use agc_text::LINE_LENGTH;
use arrayvec::ArrayVec;
use std::alloc::{AllocError, Global};
use symbols::{FixedBank, Symbols, Value};
use words::Word;

/// What a line says.
#[derive(Drop)]
struct Said {
    label: Label,
    /// Where the operand of an operator that gives words has no form, with one of no account.
    operation: Operation,
    /// Whether it is such an operand.
    formless: bool,
    /// The layout faults of the fields.
    conditions: Conditions,
}

/// What stands before a line. Of a line with a fault what is sure is done.
#[derive(Drop)]
pub(crate) struct Survey {
    layout: Layout,
    placing: Placing,
    /// The lines whose words stand.
    lines: WordLines,
    /// The labels of lines with faults, where these have no value.
    lost: Symbols,
    known: Known,
}

impl Survey {
    fn start(alloc: Global, language: Language) -> Result<Survey, Fault>
        ensures start { IfOk result (λ survey. Surveys 1 (unmarked language) survey) }
        ensures err { IfErr result (λ fault. fault ≡ no_memory) }
    {
        let Ok(placing) = Placing::start(alloc) else {
            return Err(NO_MEMORY);
        };
        let Ok(lines) = WordLines::nothing(alloc) else {
            return Err(NO_MEMORY);
        };
        Ok(Survey {
            layout: Layout::start(alloc, language),
            placing,
            lines,
            lost: Symbols::new(alloc),
            known: Known {
                location: true,
                banks: true,
                extracode: true,
                wrong: None,
            },
        })
    }

    // What a line says.
    fn said_on(&self, text: &ReadLine<'_>) -> Said
        requires { text.now.language ≡ self.now.layout.language }
        ensures label { result.label ≡ (statement_on (layout_of self.now.layout) text.now.text).label }
        ensures operation { result.operation ≡ operation_on (layout_of self.now.layout) text.now.text }
        ensures formless { result.formless
            ≡ lacks_form (statement_on (layout_of self.now.layout) text.now.text).operation }
        ensures conditions { (line : ℕ) (s : Surveyed) → Surveys line s self.now
            → standing result.conditions ≡ layout_kinds line s.layout result.label result.operation }
    {
        let Statement { label, operation } = text.statement(self.layout.location);
        let formless = operation.lacks_form();
        let operation = text.mended(operation);
        Said {
            conditions: self.layout.conditions(&self.placing, &label, &operation),
            label,
            formless,
            operation,
        }
    }

    // Passes a line that says this.
    fn pass(&mut self, line: u32, text: &ReadLine<'_>, said: Said) -> Result<(), Fault>
        requires language { text.now.language ≡ self.old.layout.language }
        requires label { said.label ≡ (statement_on (layout_of self.old.layout) text.now.text).label }
        requires operation { said.operation ≡ operation_on (layout_of self.old.layout) text.now.text }
        requires conditions { (line : ℕ) (s : Surveyed) → Surveys line s self.old
            → standing said.conditions ≡ layout_kinds line s.layout said.label said.operation }
        ensures leads { (s : Surveyed) → Surveys line s self.old
            → OnOk result (Surveys (line + 1) (passed_line line s text.now.text) self.new) }
        ensures err { IfErr result (λ fault. fault ≡ no_memory) }
    {
        let Said {
            label,
            operation,
            conditions,
            ..
        } = said;
        let alone = text.lacks_operand();
        let done = is_done(&conditions, self.known, alone, &operation);
        let kept = is_kept(&conditions, done);
        let known = self.known.after(text, &operation, done);
        self.pass_said(line, text, label, operation, done, kept)?;
        self.know(known);
        Ok(())
    }

    // Passes a line that is done, or is not, and whose label is kept or not: as that of a line without a fault.
    fn pass_said(
        &mut self,
        line: u32,
        text: &ReadLine<'_>,
        label: Label,
        operation: Operation,
        done: bool,
        kept: bool,
    ) -> Result<(), Fault>
        requires language { text.now.language ≡ self.old.layout.language }
        requires label { label ≡ (statement_on (layout_of self.old.layout) text.now.text).label }
        requires done { kept ≡ true → done ≡ true }
        requires faultless { kept ≡ true → (line : ℕ) (s : Surveyed) → Surveys line s self.old
            → layout_kinds line s.layout label operation ≡ [] }
        ensures leads { (s : Surveyed) → Surveys line s self.old
            → OnOk result (Surveys (line + 1) (done_line line s label operation done kept) self.new) }
        ensures known { self.new.known ≡ self.old.known }
        ensures err { IfErr result (λ fault. fault ≡ no_memory) }
    {
        if kept {
            return self.lay(line, label, operation);
        }
        self.lose(text, label, &operation)?;
        if done {
            self.lay_unlabelled(line, operation)
        } else {
            self.pass_over(&operation);
            Ok(())
        }
    }

    // The label of a line has no value; where its operator takes one, it may not stand again.
    fn lose(
        &mut self,
        text: &ReadLine<'_>,
        label: Label,
        operation: &Operation,
    ) -> Result<(), Fault>
        requires language { text.now.language ≡ self.old.layout.language }
        requires label { label ≡ (statement_on (layout_of self.old.layout) text.now.text).label }
        ensures leads { (line : ℕ) (s : Surveyed) → Surveys line s self.old
            → OnOk result (Surveys line (label_lost s label operation.now) self.new) }
        ensures known { self.new.known ≡ self.old.known }
        ensures err { IfErr result (λ fault. fault ≡ no_memory) }
    {
        if !operation.is_bare() {
            note(&mut self.layout.promised, text.label())?;
        }
        note(&mut self.lost, label)
    }

    // Does what a line without a label says, where it has no fault.
    fn lay_unlabelled(&mut self, line: u32, operation: Operation) -> Result<(), Fault>
        ensures leads { (s : Surveyed) → Surveys line s self.old
            → OnOk result (Surveys (line + 1) (laid line s Missing operation) self.new) }
        ensures known { self.new.known ≡ self.old.known }
        ensures err { IfErr result (λ fault. fault ≡ no_memory) }
    {
        let label = Label::Missing;
        if is_any(&self.layout.conditions(&self.placing, &label, &operation)) {
            return Ok(());
        }
        self.lay(line, label, operation)
    }

    // Does what a line without a fault says.
    fn lay(&mut self, line: u32, label: Label, operation: Operation) -> Result<(), Fault>
        requires { (line : ℕ) (s : Surveyed) → Surveys line s self.old
            → layout_kinds line s.layout label operation ≡ [] }
        ensures leads { (s : Surveyed) → Surveys line s self.old
            → OnOk result (Surveys (line + 1) (laid line s label operation) self.new) }
        ensures known { self.new.known ≡ self.old.known }
        ensures err { IfErr result (λ fault. fault ≡ no_memory) }
    {
        self.lines.hold(line, &self.layout, operation.width());
        match self
            .layout
            .operation(&mut self.placing, line, label, operation)
        {
            Ok(()) => Ok(()),
            Err(_) => Err(NO_MEMORY),
        }
    }

    // Passes over what a line says, but that extracode is in force after its words or is not.
    fn pass_over(&mut self, operation: &Operation)
        ensures leads { (line : ℕ) (s : Surveyed) → Surveys line s self.old
            → Surveys (line + 1) (passed_over s operation.now) self.new }
        ensures known { self.new.known ≡ self.old.known }
    {
        self.layout.extracode = operation.extracode_after(self.layout.extracode);
    }

    // So much is known, and where the location is not, it is a place of no account.
    fn know(&mut self, known: Known)
        ensures { (line : ℕ) (s : Surveyed) → Surveys line s self.old → Surveys line (with_known s known) self.new }
    {
        if !known.location {
            self.layout.location = Location::Fixed(FixedBank::two(), 0);
        }
        self.known = known;
    }

    // Gives the names that wait their values.
    fn settle(&mut self) -> Result<(), Fault>
        ensures settled { (line : ℕ) (s : Surveyed) → Surveys line s self.old
            → OnOk result (Surveys line (settled_survey s) self.new) }
        ensures err { IfErr result (λ fault. fault ≡ no_memory) }
    {
        match settle(&mut self.layout.symbols, &self.layout.promises) {
            Ok(()) => Ok(()),
            Err(_) => Err(NO_MEMORY),
        }
    }
}

// A label that has no value.
fn note(symbols: &mut Symbols, label: Label) -> Result<(), Fault>
    ensures noted { OnOk result (symbols.new ≡ noted symbols.old label) }
    ensures err { IfErr result (λ fault. fault ≡ no_memory) }
{
    match label {
        Label::Named(name) => match symbols.define(name, Value::Num(Word::ZERO)) {
            Ok(_) => Ok(()),
            Err(_) => Err(NO_MEMORY),
        },
        Label::Missing | Label::Malformed => Ok(()),
    }
}

// Whether some fault stands.
fn is_any(conditions: &[Option<FaultKind>]) -> bool
    ensures { result ≡ some_stands (standing conditions.now) }
{
    least_fault(conditions).is_some()
}

// Whether a line with these faults does what it says.
#[tactic(auto, using(crate::proofs::FaultOrder::of_label_all))]
fn is_done(
    conditions: &[Option<FaultKind>],
    known: Known,
    alone: bool,
    operation: &Operation,
) -> bool
    ensures { result ≡ is_done known alone operation.now (standing conditions.now) }
{
    are_of_label(conditions) && known.is_enough(alone, operation)
}

// Whether the label of a line with these faults is kept.
#[tactic(auto, using(crate::proofs::FaultOrder::of_label_any))]
fn is_kept(conditions: &[Option<FaultKind>], done: bool) -> bool
    ensures { result ≡ is_kept done (standing conditions.now) }
{
    done && !has_of_label(conditions)
}

// Whether all faults that stand are those of a label.
fn are_of_label(conditions: &[Option<FaultKind>]) -> bool
    ensures { result ≡ list_all (λ c. option_map_or is_of_label c true) conditions.now }
{
    conditions
        .iter()
        .all(|condition| condition.is_none() || is_of_label(*condition))
}

// Whether a fault of a label stands.
fn has_of_label(conditions: &[Option<FaultKind>]) -> bool
    ensures { result ≡ list_any (λ c. option_map_or is_of_label c false) conditions.now }
{
    conditions.iter().any(|condition| is_of_label(*condition))
}

fn is_of_label(condition: Option<FaultKind>) -> bool
    ensures { result ≡ option_map_or is_of_label condition false }
{
    matches!(
        condition,
        Some(FaultKind::BadLabel | FaultKind::TwiceDefined)
    )
}

/// What is found in a source, whether it has faults or not.
#[derive(Drop)]
pub struct SourceFindings {
    /// All faults that do not follow from others, in the order of lines and columns.
    pub faults: Vec<Finding>,
    /// The symbols of lines without a fault, with their values.
    pub symbols: Symbols,
}

/// All faults of a source that do not follow from others, and the values of its symbols.
#[tactic(auto, unfolding(crate::specs::Survey::told, crate::specs::Survey::known_symbols))]
pub fn findings(alloc: Global, source: &SourceLines<'_>) -> Result<SourceFindings, Fault>
    ensures told { IfOk result (λ found. found.faults.items ≡ told source.now.language source.now.text) }
    ensures symbols { IfOk result (λ found. found.symbols ≡ known_symbols source.now.language source.now.text) }
    ensures err { IfErr result (λ fault. fault ≡ no_memory) }
{
    let mut whole = passed_lines(alloc, source)?;
    whole.settle()?;
    let faults = told_lines(alloc, source, &whole)?;
    Ok(SourceFindings {
        faults,
        symbols: whole.layout.symbols,
    })
}

// What stands after the lines of a source.
fn passed_lines(alloc: Global, source: &SourceLines<'_>) -> Result<Survey, Fault>
    ensures passed { IfOk result (λ survey. (line : ℕ)
        × Surveys line (passed source.now) survey) }
    ensures err { IfErr result (λ fault. fault ≡ no_memory) }
{
    let mut survey = Survey::start(alloc, source.language())?;
    let lines = source.lines();
    let mut line = 1;
    for text in lines {
        let said = survey.said_on(text);
        survey.pass(line, text, said)?;
        line += 1;
    }
    Ok(survey)
}

// What is told of the lines of a source, where this stands after all of them.
fn told_lines(
    alloc: Global,
    source: &SourceLines<'_>,
    whole: &Survey,
) -> Result<Vec<Finding>, Fault>
    requires { (line : ℕ) × Surveys line (settled_survey (passed source.now)) whole.now }
    ensures told { IfOk result (λ findings. findings.items
        ≡ told_lines (settled_survey (passed source.now)) 1 (unmarked source.now.language)
        (looked_at source.now.language source.now.text)) }
    ensures err { IfErr result (λ fault. fault ≡ no_memory) }
{
    let mut survey = Survey::start(alloc, source.language())?;
    let mut told = Vec::new(alloc);
    let lines = source.lines();
    let mut line = 1;
    for text in lines {
        let said = survey.said_on(text);
        match survey.tell(whole, line, text, &said, &mut told) {
            Ok(()) => survey.pass(line, text, said)?,
            Err(_) => return Err(NO_MEMORY),
        }
        line += 1;
    }
    Ok(told)
}

/// The kinds of faults in the order in which those of a line are told: at the label, the operator and the operand, and
/// beyond them.
const KINDS_IN_ORDER: [FaultKind; 18] = [
    FaultKind::BadLabel,
    FaultKind::TwiceDefined,
    FaultKind::NotAscii,
    FaultKind::TooManyLines,
    FaultKind::UnknownOperator,
    FaultKind::BankFull,
    FaultKind::PlaceTaken,
    FaultKind::CodeInErasable,
    FaultKind::NeedsExtend,
    FaultKind::NotExtracode,
    FaultKind::BadOperand,
    FaultKind::Undefined,
    FaultKind::UsedTooEarly,
    FaultKind::BadBank,
    FaultKind::WrongKindOfAddress,
    FaultKind::OutOfRange,
    FaultKind::LongLine,
    FaultKind::NoMemory,
];

/// How many kinds of faults may stand on a line at once.
const MOST_KINDS: usize = 12;

// The faults of a line, each where its condition holds.
#[derive(Drop)]
struct LineFaults {
    of_text: [Option<FaultKind>; 3],
    of_form: Option<FaultKind>,
    of_layout: Conditions,
    of_promise: Option<FaultKind>,
    of_words: [Option<FaultKind>; 2],
}

// A line of which faults are told.
#[derive(Clone, Copy, Drop)]
struct Telling<'a> {
    line: u32,
    text: &'a ReadLine<'a>,
    doubt: Doubt,
    taken_by: Option<u32>,
}

impl Survey {
    // The line whose word stands already where those of a line would.
    fn taken_by(&self, operation: &Operation) -> Option<u32>
        ensures { (line : ℕ) (s : Surveyed) → Surveys line s self.now → result ≡ taken_by s.layout operation.now }
    {
        match operation {
            Operation::Gives(Some(content)) => self.lines.from(&self.layout, content.width()),
            _ => None,
        }
    }

    // Whether the operand of a line names a symbol that has no value for another fault, where this stands after the
    // last line.
    fn loses(&self, operation: &Operation) -> bool
        ensures { result ≡ (names_one self.now.lost operation.now
            || waits_in_vain self.now.layout.promised self.now.layout.symbols operation.now) }
    {
        operation.names_one(&self.lost)
            || operation.waits_in_vain(&self.layout.promised, &self.layout.symbols)
    }

    // What follows on a line from other faults, where `whole` stands after the last line.
    fn doubt(&self, whole: &Survey, text: &ReadLine<'_>, operation: &Operation) -> Doubt
        ensures { result ≡ doubt_of whole.now self.now text.now.text operation.now }
    {
        let elsewhere = !self.known.location;
        Doubt {
            bytes: !text.is_text(),
            repeated: is_same_byte(text.wrong_byte(), self.known.wrong),
            location: elsewhere,
            erased: operation.erases() && elsewhere,
            counted: operation.counts_from_here() && elsewhere,
            symbol: whole.loses(operation),
            early: operation.names_one(&self.lost),
            extracode: !self.known.extracode,
        }
    }

    // What is wrong with a name that a line lets wait, unless that follows from another fault.
    fn vain_condition(
        &self,
        whole: &Survey,
        label: &Label,
        operation: &Operation,
    ) -> Option<FaultKind>
        ensures { result ≡ vain_of whole.now self.now label.now operation.now }
    {
        let symbols = &whole.layout.symbols;
        let kind = self.layout.waiting_condition(symbols, label, operation)?;
        if operation.names_one(&whole.lost)
            || operation.waits_in_vain(&self.layout.promised, symbols)
        {
            return None;
        }
        Some(kind)
    }

    // Appends what is told of a line that says this, where `whole` stands after the last line.
    fn tell(
        &self,
        whole: &Survey,
        line: u32,
        text: &ReadLine<'_>,
        said: &Said,
        told: &mut Vec<Finding>,
    ) -> Result<(), AllocError>
        requires language { text.now.language ≡ self.now.layout.language }
        requires label { said.now.label ≡ (statement_on (layout_of self.now.layout) text.now.text).label }
        requires operation { said.now.operation ≡ operation_on (layout_of self.now.layout) text.now.text }
        requires formless { said.now.formless
            ≡ lacks_form (statement_on (layout_of self.now.layout) text.now.text).operation }
        requires conditions { (line : ℕ) (s : Surveyed) → Surveys line s self.now
            → standing said.now.conditions ≡ layout_kinds line s.layout said.now.label said.now.operation }
        ensures { (s w : Surveyed) (last : ℕ) → Surveys line s self.now → Surveys last w whole.now
            → OnOk result (told.new.items ≡ told.old.items ++ told_line w line s text.now.text) }
    {
        let Said {
            label,
            operation,
            formless,
            conditions,
        } = said;
        let faults = LineFaults {
            of_text: text.text_conditions(line),
            of_form: FaultKind::BadOperand.when(*formless),
            of_layout: *conditions,
            of_promise: self.vain_condition(whole, label, operation),
            of_words: self
                .layout
                .word_conditions(&whole.layout.symbols, *formless, operation),
        };
        if faults.are_none() {
            return Ok(());
        }
        let telling = Telling {
            line,
            text,
            doubt: self.doubt(whole, text, operation),
            taken_by: self.taken_by(operation),
        };
        telling.tell(&faults, told)
    }
}

impl Telling<'_> {
    // Appends what is told of the faults of the line.
    fn tell(self, faults: &LineFaults, told: &mut Vec<Finding>) -> Result<(), AllocError>
        ensures { OnOk result (told.new.items
            ≡ told.old.items ++ told_of self.entry.text.now.language self.entry.doubt self.entry.line
            self.entry.text.now.text self.entry.taken_by (kinds_of faults.now)) }
    {
        let numbers = faults.numbers();
        let numbers = numbers.as_slice();
        match alone_in(numbers) {
            Some(kind) => self.tell_alone(kind, told),
            None => self.tell_all(numbers, told),
        }
    }

    // Appends what is told of a fault that stands alone.
    fn tell_alone(self, kind: FaultKind, told: &mut Vec<Finding>) -> Result<(), AllocError>
        ensures { OnOk result (told.new.items
            ≡ told.old.items ++ told_of self.entry.text.now.language self.entry.doubt self.entry.line
            self.entry.text.now.text self.entry.taken_by (kind ∷ [])) }
    {
        if self.doubt.follows(kind) {
            return Ok(());
        }
        told.push(self.finding(kind))?;
        Ok(())
    }

    // Appends what is told of the faults that have these numbers.
    fn tell_all(self, numbers: &[u8], told: &mut Vec<Finding>) -> Result<(), AllocError>
        ensures { OnOk result (told.new.items
            ≡ told.old.items ++ map (finding self.entry.text.now.language self.entry.line self.entry.text.now.text
            self.entry.taken_by) (filter (λ kind. has_number numbers.now kind && not (follows self.entry.doubt kind))
            (kinds_on self.entry.text.now.language self.entry.text.now.text))) }
    {
        let past_end = self.tell_each(numbers, &KINDS_IN_ORDER, false, told)?;
        if past_end {
            self.tell_each(numbers, &KINDS_IN_ORDER, true, told)?;
        }
        Ok(())
    }

    // Appends those of some kinds of faults that have one of some numbers, do not follow from others, and stand past
    // the longest line or do not. Answers whether others do not follow and are left out.
    fn tell_each(
        self,
        numbers: &[u8],
        kinds: &[FaultKind],
        beyond: bool,
        told: &mut Vec<Finding>,
    ) -> Result<bool, AllocError>
        ensures told { OnOk result (told.new.items
            ≡ told.old.items ++ map (finding self.entry.text.now.language self.entry.line self.entry.text.now.text
            self.entry.taken_by) (filter (λ kind. (has_number numbers.now kind && not (follows self.entry.doubt kind))
            && stands_beyond self.entry.text.now.language self.entry.text.now.text beyond kind) kinds.now)) }
        ensures others { IfOk result (λ others. others ≡ false
            → filter (λ kind. (has_number numbers.now kind && not (follows self.entry.doubt kind))
            && not (stands_beyond self.entry.text.now.language self.entry.text.now.text beyond kind)) kinds.now ≡ []) }
    {
        let mut others = false;
        for kind in kinds {
            if has_number(numbers, *kind) && !self.doubt.follows(*kind) {
                let finding = self.finding(*kind);
                if stands_beyond(finding.span, beyond) {
                    told.push(finding)?;
                } else {
                    others = true;
                }
            }
        }
        Ok(others)
    }

    fn finding(self, kind: FaultKind) -> Finding
        ensures { result ≡ finding self.entry.text.now.language self.entry.line self.entry.text.now.text
            self.entry.taken_by kind }
    {
        Finding {
            line: self.line,
            kind,
            span: self.text.span(kind),
            taken_by: self.named_line(kind),
        }
    }

    // The line that a fault names.
    fn named_line(self, kind: FaultKind) -> Option<u32>
        ensures { result ≡ named_line self.entry.taken_by kind }
    {
        match kind {
            FaultKind::PlaceTaken => self.taken_by,
            _ => None,
        }
    }
}

// The kind of fault that has the number that stands alone.
fn alone_in(numbers: &[u8]) -> Option<FaultKind>
    ensures { IfSome result (λ kind. numbers.now ≡ fault_number kind ∷ []) }
{
    match numbers {
        [number] => kind_of(*number),
        _ => None,
    }
}

// The kind of fault that has this number.
fn kind_of(number: u8) -> Option<FaultKind>
    ensures { IfSome result (λ kind. fault_number kind ≡ number) }
{
    for kind in &KINDS_IN_ORDER {
        if kind.number() == number {
            return Some(*kind);
        }
    }
    None
}

// Whether some bytes of a line stand past the longest line, or do not.
fn stands_beyond(span: Span, beyond: bool) -> bool
    ensures { result ≡ (if beyond then nat_lt line_length span.start else not (nat_lt line_length span.start)) }
{
    let is_beyond = span.start > LINE_LENGTH;
    if beyond { is_beyond } else { !is_beyond }
}

impl LineFaults {
    // Whether no fault stands on the line.
    fn are_none(&self) -> bool
        ensures { result ≡ are_absent self.now }
    {
        are_none(&self.of_text)
            && is_none(self.of_form)
            && are_none(&self.of_layout)
            && is_none(self.of_promise)
            && are_none(&self.of_words)
    }

    // The numbers of the faults that stand on the line.
    fn numbers(&self) -> ArrayVec<u8, MOST_KINDS>
        ensures { result.items ≡ map fault_number (kinds_of self.now) }
    {
        let mut numbers = ArrayVec::new();
        push_numbers(&mut numbers, &self.of_text);
        push_numbers(&mut numbers, &[self.of_form]);
        push_numbers(&mut numbers, &self.of_layout);
        push_numbers(&mut numbers, &[self.of_promise]);
        push_numbers(&mut numbers, &self.of_words);
        numbers
    }
}

// Whether no fault stands.
fn are_none(conditions: &[Option<FaultKind>]) -> bool
    ensures { result ≡ list_all is_absent conditions.now }
{
    conditions.iter().all(|condition| is_none(*condition))
}

fn is_none(condition: Option<FaultKind>) -> bool
    ensures { result ≡ is_absent condition }
{
    condition.is_none()
}

// Appends the numbers of the faults that stand.
fn push_numbers(numbers: &mut ArrayVec<u8, MOST_KINDS>, conditions: &[Option<FaultKind>])
    requires { array_vec_len numbers.old + length conditions.now ≤ MOST_KINDS }
    ensures items { numbers.new.items ≡ numbers.old.items ++ flat_map number_in conditions.now }
    ensures len { array_vec_len numbers.new ≤ array_vec_len numbers.old + length conditions.now }
{
    for condition in conditions {
        push_number(numbers, *condition);
    }
}

fn push_number(numbers: &mut ArrayVec<u8, MOST_KINDS>, condition: Option<FaultKind>)
    requires { array_vec_len numbers.old < MOST_KINDS }
    ensures items { numbers.new.items ≡ numbers.old.items ++ number_in condition }
    ensures len { array_vec_len numbers.new ≤ array_vec_len numbers.old + 1 }
{
    if let Some(kind) = condition {
        numbers.push(kind.number());
    }
}

fn has_number(numbers: &[u8], kind: FaultKind) -> bool
    ensures { result ≡ has_number numbers.now kind }
{
    let number = kind.number();
    match numbers {
        // Where a line has faults that are told by all kinds, it mostly has two.
        [one, other] => *one == number || *other == number,
        _ => numbers.iter().any(|other| *other == number),
    }
}
