//! Sources whose lines may stand for files: `$` and a name. Their text is joined before it is assembled, without
//! carriage returns before line feeds; and what is told of them then names the files.
#![tactic(auto)]

mod joined;
pub mod laws;
mod listings;
mod mentions;
mod names;
mod numbers;
mod paths;
mod place;
mod refusal;
mod reports;
mod texts;

pub use joined::{Joined, join};
pub use listings::{located_listing, located_row};
pub use names::is_inside;
pub use paths::{line_path, path_beside};
pub use place::Place;
pub use refusal::{Refusal, Unjoined, Why};
pub use reports::located_report;
pub use texts::{NoText, Texts};
