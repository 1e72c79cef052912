#![tactic(auto)]

mod entries;
mod fields;
mod kept;
mod letters;
mod numbers;
mod pending;
mod refusal;
mod tally;
mod texts;
mod words;

pub use entries::{Entry, ResultField, enter_line, read_entry};
pub use fields::first_field;
pub use letters::read_letter;
pub use numbers::{read_natural, read_number};
pub use pending::Pending;
pub use refusal::Refusal;
pub use tally::Tally;
pub use texts::{answer_text, number_text, scores_text};
pub use words::{Kind, read_kind};
