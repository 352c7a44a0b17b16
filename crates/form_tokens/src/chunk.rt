ghost use Rattle.std.specs.Prelude.{◌≡◌, ◌++◌, OnOk, string_bytes};
ghost use Rattle.form_tokens.specs.Characters.{chunk_of};

use std::alloc::AllocError;

/// Where characters stand: between tags, in a textarea, or in the value of an attribute.
#[derive(Clone, Copy)]
pub enum Context {
    Content,
    Textarea,
    Value,
}

/// Characters as they are written, or the one that a reference stands for.
#[derive(Clone, Copy)]
pub enum Chunk<'a> {
    Run(&'a str),
    Character(char),
}

impl Chunk<'_> {
    /// Writes the characters behind a text.
    #[inline(always)]
    pub fn write(self, out: &mut String) -> Result<(), AllocError>
        ensures { OnOk result (string_bytes out.new ≡ string_bytes out.old ++ chunk_of self.entry) }
    {
        match self {
            Chunk::Run(text) => out.push_str(text),
            Chunk::Character(c) => out.push(c),
        }
    }
}
