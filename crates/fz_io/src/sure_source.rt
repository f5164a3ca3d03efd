//! A source that never fails.
ghost use Rattle.std.specs.Prelude.{◌≡◌, [], Some};
ghost use Rattle.fz_io.specs.Texts.{text_or_empty, bytes_left, is_chosen_or_none};

use crate::outside::{Failed, Source};
use crate::texts::{NamedText, Texts};

/// Named texts in memory. A name that none of them has stands for the empty text, so no call fails.
#[derive(Drop)]
pub struct SureSource {
    texts: Texts,
    selections: u64,
}

impl SureSource {
    /// No text is selected yet. Of two texts of one name the first counts.
    pub fn new(texts: Vec<NamedText>) -> SureSource
        ensures texts { ⟦<SureSource as Source>⟧.texts result ≡ text_or_empty texts.items }
        ensures left { ⟦<SureSource as Source>⟧.left result ≡ Some [] }
    {
        SureSource {
            texts: Texts::new(texts),
            selections: 0,
        }
    }
}

impl Source for SureSource {
    ghost texts = { λ s. text_or_empty s.texts.all.items };

    ghost left = { λ s. Some (bytes_left s.texts) };

    ghost is_selected = { λ s. is_chosen_or_none s.texts };

    ghost selections = { λ s. s.selections };

    ghost faults = { λ _. 0 };

    fn select(&mut self, name: &str) -> Result<(), Failed> {
        self.selections = self.selections.saturating_add(1);
        if !self.texts.select(name) {
            self.texts.deselect();
        }
        Ok(())
    }

    fn read(&mut self, buf: &mut [u8]) -> Result<usize, Failed> {
        Ok(self.texts.read(buf, usize::MAX))
    }
}
