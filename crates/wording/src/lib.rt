// Words put into a lent buffer, as far as there is room: texts and numbers, and what each number of a refusal means.
// Only safety is promised here.
#![tactic(auto)]

pub mod page;
pub mod words;
