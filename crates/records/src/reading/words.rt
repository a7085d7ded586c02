//! The words of a plan.
ghost use Rattle.std.specs.Prelude.{◌≡◌, ℕ, List, Option as Maybe};
ghost use Rattle.records.specs.Words.{word_of, family_of, store_of};

// A choice of words, of which a field holds one.
pub trait Choice: Copy {
    ghost spelt: { List ℕ → Maybe Self };

    // What these bytes stand for, if they are a word of the choice.
    fn of_bytes(bytes: &[u8]) -> Option<Self>
        ensures { result ≡ spelt bytes.now };
}

// The word that a record begins with: its kind.
#[derive(Clone, Copy, PartialEq, Eq, Debug)]
pub enum Word {
    Net,
    Signal,
    Switch,
    Exit,
    Link,
    Event,
}

// The two families of plans: roads with vehicles, and switches with frames.
#[derive(Clone, Copy, PartialEq, Eq, Debug)]
pub enum Family {
    Road,
    Switch,
}

// The two stores of links.
#[derive(Clone, Copy, PartialEq, Eq, Debug)]
pub enum Store {
    Ring,
    Pool,
}

impl Choice for Word {
    ghost spelt = { word_of };

    fn of_bytes(bytes: &[u8]) -> Option<Word> {
        match bytes {
            b"net" => Some(Word::Net),
            b"signal" => Some(Word::Signal),
            b"switch" => Some(Word::Switch),
            b"exit" => Some(Word::Exit),
            b"link" => Some(Word::Link),
            b"event" => Some(Word::Event),
            _ => None,
        }
    }
}

impl Choice for Family {
    ghost spelt = { family_of };

    fn of_bytes(bytes: &[u8]) -> Option<Family> {
        match bytes {
            b"road" => Some(Family::Road),
            b"switch" => Some(Family::Switch),
            _ => None,
        }
    }
}

impl Choice for Store {
    ghost spelt = { store_of };

    fn of_bytes(bytes: &[u8]) -> Option<Store> {
        match bytes {
            b"ring" => Some(Store::Ring),
            b"pool" => Some(Store::Pool),
            _ => None,
        }
    }
}
