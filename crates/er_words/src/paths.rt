use std::alloc::{AllocError, Global};
use std::marker::Model;

/// Where a file is, as a word names it. Any text is one, even one that names no file.
#[derive(Debug, Drop)]
pub struct FilePath {
    text: String,
}

impl Model for FilePath {
    ghost use Rattle.std.specs.Prelude.{List, ℕ, string_bytes};

    ghost Value = { List ℕ };

    ghost view = { λ p. string_bytes p.text };
}

impl FilePath {
    ghost use Rattle.std.specs.Prelude.{◌≡◌, IfOk};

    pub fn from_str(alloc: Global, word: &str) -> Result<FilePath, AllocError>
        ensures { IfOk result (λ path. path ≡ word.now) }
    {
        Ok(FilePath {
            text: String::from_str(alloc, word)?,
        })
    }

    pub fn as_str(&self) -> &str
        ensures { result.now ≡ self.now }
    {
        self.text.as_str()
    }
}
