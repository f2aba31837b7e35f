// answers: the answer for an image and a lent table, as definitions, and what is proved of it; no code but the figures' type. Where there are
// none the answer is the refusal and its place (`Refused` of crate refusals).
//
// specs/: Answers (the answer and the table at exit, over the image's bytes and the table at entry), WholeRuns (demand 3, one statement about all whole
// runs), Accesses and Promise (demand 2; the three parts of what `figures` of crate figures promises), EitherWay (equal slots written with tag 1 or 9),
// EqualAnswers (two images that say one task).
// proofs/: both demands follow from the equality alone (`demand3`, `demand2` of Promises); `equal_answers` of EitherWay (tag 9 for tag 1) and
// `closed_answers` of Closing (tag 8 naming the last node, or none).
#![tactic(auto)]

// Both figures and the count of exit offsets.
#[derive(Clone, Copy)]
pub struct Totals {
    pub tight: u64,
    pub published: u64,
    pub exits: u64,
}
