//! What every other crate speaks of: names, digits, whole numbers, times, and being out of memory.
//!
//! - `limits`: the limits of models and runs, by name.
//! - `codes`, `faults`: what may be wrong with a model, where, and how that is printed.
//! - `memory`: out of memory.
//! - `names`: names, and numbers as they are written.
//! - `numerals`: the forms of numbers, and the reader of whole numbers.
//! - `resolution`: the unit of time of a model.
//! - `version`: the version of the language.
//! - `texts`: words and numbers of a line, and numbers of rows.
//! - `times`: the readers of times.
//! - `first`: a fault of a line, the order of faults, and the first so far.
//! - `refusal`: the answer of a check that goes by line.
//! - `laws`: what holds of the definitions.
#![tactic(auto)]

mod codes;
mod faults;
mod first;
mod laws;
mod limits;
mod memory;
mod names;
mod numerals;
mod refusal;
mod resolution;
mod texts;
mod times;
mod version;

pub use codes::Code;
pub use faults::{Fault, Path, Place, push_fault};
pub use first::{LineFault, noted};
pub use laws::{law_first, law_names, law_spelling};
pub use limits::{
    DEEPEST_NESTING, GREATEST_DELAY, GREATEST_RATE, HEAVIEST_BODY, LONGEST_LINE, LONGEST_NAME,
    LONGEST_TEXT, MOST_CELLS, MOST_CLUSTERS, MOST_DIGITS, MOST_EVENTS, MOST_FIRINGS,
    MOST_INSTANCES, MOST_PORTS, MOST_PROCESSES, MOST_SAMPLES, MOST_SIGNALS, MOST_TRACES, TIME_END,
    all_limits,
};
pub use memory::Memory;
pub use names::{Digits, Name};
pub use numerals::{
    Numeral, are_digits, is_number, is_short, power_of_ten, read_int, split, value,
};
pub use refusal::{TypeErr, verdict};
pub use resolution::Resolution;
pub use texts::{cluster_number, push_number, push_word, row_number};
pub use times::{TimeErr, femtoseconds_of_count, read_time, read_time_at};
pub use version::Version;
