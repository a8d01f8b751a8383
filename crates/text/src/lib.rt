// A text as lines. Document 01, "Lines": where lines end, what each says, and its token. Nothing is copied: every part is a start and
// an end in the whole text.
#![tactic(auto)]

pub mod line;
pub mod lines;
