// The words that cards begin with.
ghost use Rattle.std.specs.Prelude.{◌≡◌};
ghost use Rattle.cards.specs.Words.{word_in, in_place, placed, count as fields_with_word};

#[derive(Clone, Copy)]
pub enum Word {
    Pile,
    Joint,
    Brace,
    Force,
    Check,
}

fn word_of(bytes: &[u8]) -> Option<Word>
    ensures { result ≡ word_in bytes.now }
{
    match bytes {
        b"PILE" => Some(Word::Pile),
        b"JOINT" => Some(Word::Joint),
        b"BRACE" => Some(Word::Brace),
        b"FORCE" => Some(Word::Force),
        b"CHECK" => Some(Word::Check),
        _ => None,
    }
}

impl Word {
    // How many fields its card has, the word among them.
    pub fn count(self) -> usize
        ensures { result ≡ fields_with_word self }
    {
        match self {
            Word::Pile => 4,
            Word::Joint => 6,
            Word::Brace => 12,
            Word::Force => 9,
            Word::Check => 3,
        }
    }

    // PILE opens the book, and every other word needs it open.
    pub fn is_in_place(self, ready: bool) -> bool
        ensures { result ≡ in_place ready self }
    {
        match self {
            Word::Pile => !ready,
            Word::Joint | Word::Brace | Word::Force | Word::Check => ready,
        }
    }
}

// The word that the bytes write, where it is in place.
pub fn placed_word(bytes: &[u8], ready: bool) -> Option<Word>
    ensures { result ≡ placed ready (word_in bytes.now) }
{
    word_of(bytes).filter(|word| word.is_in_place(ready))
}
