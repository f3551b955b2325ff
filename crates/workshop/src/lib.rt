//! The engines of the programs: from the bytes of sources and feeds to the bytes that go out.
#![tactic(auto)]

mod accessing;
mod addressing;
mod aligning;
mod assembly;
mod banks;
mod bounding;
mod checking;
mod commands_end;
mod covering;
mod crossing;
mod debugging;
mod delaying;
mod differing;
mod ending;
mod engine;
mod executed;
mod expecting;
mod fault;
mod holed;
mod holed_run;
pub mod holed_words;
mod inputs;
pub mod laws;
mod naming;
mod noting;
mod origin;
mod progress;
mod reaching;
mod refused;
mod ropes;
mod run_reaching;
mod stepper;
mod tracing;
mod trying;
mod trying_notes;

pub use accessing::access_program;
pub use aligning::{align_engine, carry_engine, find_engine};
pub use assembly::{asm_engine, asm_with_check_words, report_no_room};
pub use audit::{Layout, arranged, module_image};
pub use banks::compare_banks_engine;
pub use bounding::{Bounded, bound_program};
pub use checking::{Tally, check_feed, check_source, unread_text, write_tally};
pub use commands_end::{Counted, tell_commands_end};
pub use covering::cover_program;
pub use crossing::xref_engine;
pub use debugger::{debug_session, extended_session};
pub use debugging::{
    Opened, debug_engine, debug_extended, debug_program, follow_source, open_program, open_session,
};
pub use delaying::delays_program;
pub use differing::{Side, differ_program};
pub use ending::write_end;
pub use engine::{MOST_STEPS, RunEnd, Summary, may_run, run_engine, run_program};
pub use expect::{Asked, Expectation, Refusal as TextRefusal, expectation_in};
pub use expecting::{Judged, judge_program};
pub use explain::{
    NoteKind, Refusal, all_headings, explanation, note_explanation, note_kind, refusal_of,
    warning_explanation, warning_of,
};
pub use fault::{WorkshopFault, report};
pub use holed::{asm_filled_with_check_words, asm_with_holes};
pub use holed_run::{HoledSummary, run_to_hole};
pub use naming::{NamedText, named_text_engine, read_names};
pub use near_names::near_in;
pub use noting::run_with_notes;
pub use origin::Origin;
pub use progress::Unheard;
pub use reaching::reach_program;
pub use refused::report_where;
pub use rope::{Form, InForm, Rope, Version};
pub use ropes::{
    Compared, DumpText, RopeText, compare_engine, compare_only_engine, dump_engine, mended_engine,
    named_words_engine, show_engine, upgrade_engine,
};
pub use run_reaching::reach_run;
pub use say::LineForm;
pub use space::Bank;
pub use tracing::trace_program;
pub use trying::{read_trials, try_program};
pub use trying_notes::try_notes;
pub use yayul::{Language, Symbols};
