//! Texts that have names, and a place in one of them.
ghost use Rattle.std.specs.Prelude.{◌≡◌, ℕ, ◌-◌, ◌+◌, ◌^◌, ◌<◌, ◌≤◌, ◌↔◌, List, [], Option, Some, None, IfSome, IfNone, IsSome, IsTrue, IsFalse, length};
ghost use Rattle.fz_io.specs.Outside.{Moves};
ghost use Rattle.fz_io.specs.Texts.{text_of, bytes_at, bytes_chosen, bytes_left, is_named, is_chosen};

/// A text and its name.
#[derive(Drop)]
pub struct NamedText {
    pub name: String,
    pub bytes: Vec<u8>,
}

/// Named texts, the number of the one that is selected, and how many of its bytes were read.
#[derive(Drop)]
pub(crate) struct Texts {
    all: Vec<NamedText>,
    selected: Option<usize>,
    at: usize,
}

/// The number of the first text of this name.
fn position_of(texts: &[NamedText], name: &str) -> Option<usize>
    ensures some { IfSome result (λ i. text_of texts.now name.now ≡ Some (bytes_at texts.now i)) }
    ensures named { IfSome result (λ i. IsTrue (is_named texts.now name.now i)) }
    ensures none { IfNone result (text_of texts.now name.now ≡ None) }
{
    for (index, text) in texts.iter().enumerate() {
        if text.name.as_str() == name {
            return Some(index);
        }
    }
    None
}

impl Texts {
    /// None of these texts is selected.
    pub(crate) fn new(all: Vec<NamedText>) -> Texts
        ensures texts { result.all ≡ all }
        ensures left { bytes_left result ≡ [] }
    {
        Texts {
            all,
            selected: None,
            at: 0,
        }
    }

    /// Selects the first text of this name, from its start, and says whether there is one. If not, nothing changes.
    pub(crate) fn select(&mut self, name: &str) -> bool
        ensures found { IsTrue result ↔ IsSome (text_of self.old.all.items name.now) }
        ensures left { IsTrue result
            → Some (bytes_left self.new) ≡ text_of self.old.all.items name.now }
        ensures selected { IsTrue result → IsTrue (is_chosen self.new name.now) }
        ensures stays { IsFalse result → bytes_left self.new ≡ bytes_left self.old }
        ensures texts { self.new.all ≡ self.old.all }
    {
        let Some(index) = position_of(&self.all, name) else {
            return false;
        };
        self.selected = Some(index);
        self.at = 0;
        true
    }

    /// Selects none of the texts.
    pub(crate) fn deselect(&mut self)
        ensures left { bytes_left self.new ≡ [] }
        ensures selected { self.new.selected ≡ None }
        ensures texts { self.new.all ≡ self.old.all }
    {
        self.selected = None;
    }

    /// The whole selected text; the empty one where none is selected.
    fn chosen(&self) -> &[u8]
        ensures { result.now ≡ bytes_chosen self.now }
    {
        let Some(index) = self.selected else {
            return &[];
        };
        match self.all.get(index) {
            Some(text) => &text.bytes,
            None => &[],
        }
    }

    /// The bytes of the selected text that weren't read.
    fn rest(&self) -> &[u8]
        ensures rest { result.now ≡ bytes_left self.now }
        ensures end { self.now.at + length result.now < 2 ^ 64 }
    {
        let at = self.at;
        let text = self.chosen();
        if text.len() < at {
            return &[];
        }
        &text[at..]
    }

    /// Moves the first bytes left into the front of the buffer, as many as have room and at most that many, and says how many.
    pub(crate) fn read(&mut self, buffer: &mut [u8], most: usize) -> usize
        requires room { 0 < length buffer.old }
        requires some { 0 < most }
        ensures within { result ≤ length buffer.old }
        ensures most { result ≤ most }
        ensures moves { Moves result (bytes_left self.old) buffer.new (Some (bytes_left self.new)) }
        ensures selected { self.new.selected ≡ self.old.selected }
        ensures texts { self.new.all ≡ self.old.all }
    {
        let rest = self.rest();
        let count = rest.len().min(buffer.len()).min(most);
        buffer[..count].copy_from_slice(&rest[..count]);
        self.at += count;
        count
    }
}
