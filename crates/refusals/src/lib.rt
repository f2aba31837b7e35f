// refusals: why there is no answer, in one list: the words of the papers' tables but 21.
//
// The number of a refusal r is `u64::from(r)`, which promises that it equals `number_of` of specs/Refusals.antt, the number that the tables give; `word_of`
// has the word, and `refused_at` puts a refusal and its place together.
#![tactic(auto)]

ghost use Rattle.std.specs.Prelude.{◌≡◌};
ghost use Rattle.refusals.specs.Refusals.{number_of};

// Why there is no answer. Judging answers the first nine, `Entry` (11) and `Lines` (18); `Table` is for what lends a table,
// `Register`, `Busy` and `Forbidden` are for calls to the arbiter (15 to 17), `Block` is for one that edits a block (19).
#[derive(Clone, Copy)]
pub enum Refusal {
    Cut,
    Tag,
    Full,
    Length,
    Value,
    Forward,
    Unfinished,
    Deep,
    Long,
    Table,
    Entry,
    Register,
    Busy,
    Forbidden,
    Lines,
    Block,
}

// A refusal, and the place at which it is told: a byte of the image, its length, the index of an entry, or 0.
#[derive(Clone, Copy)]
pub struct Refused {
    pub refusal: Refusal,
    pub place: usize,
}

// The number that the table gives a refusal.
impl From<Refusal> for u64 {
    ghost from_gives = { λ r n. n ≡ number_of r };

    fn from(r: Refusal) -> u64 {
        match r {
            Refusal::Cut => 1,
            Refusal::Tag => 2,
            Refusal::Full => 3,
            Refusal::Length => 4,
            Refusal::Value => 5,
            Refusal::Forward => 6,
            Refusal::Unfinished => 7,
            Refusal::Deep => 8,
            Refusal::Long => 9,
            Refusal::Table => 10,
            Refusal::Entry => 11,
            Refusal::Register => 15,
            Refusal::Busy => 16,
            Refusal::Forbidden => 17,
            Refusal::Lines => 18,
            Refusal::Block => 19,
        }
    }
}
