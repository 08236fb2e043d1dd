// A record of an answer, field by field, of either kind.
#![tactic(auto)]

pub mod body;
mod by_number;
mod kind;

pub use by_number::{
    ANSWER_KIND, NAMED_KIND, answer_in, following_of, is_kind, put_answer, size_of, tells_winner,
};
pub use kind::Kind;
