//! The program as one call: words and files in, texts and a status out.
#![tactic(auto)]

mod change_texts;
mod command;
mod commands;
mod drain_texts;
mod engine_words;
mod engines;
mod export_texts;
mod fault_texts;
mod files;
mod group_texts;
mod guid_list;
mod laned;
mod laws;
mod outcome;
mod outputs;
mod reply_texts;
mod report_texts;
mod routing;
mod sweep_texts;
mod texts;
mod top_call;
mod up_down;
mod words;

pub use command::{Command, Engine};
pub use guid_list::GuidList;
pub use laws::{
    answer_exists, answers_keep_headline, headline, layered_replies_are_numbered,
    nue_replies_are_numbered, one_answer, status_is_small, up_down_replies_are_numbered,
};
pub use top_call::run;
pub use words::{WordsFault, read_words};
