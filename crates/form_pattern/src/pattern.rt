//! The public calls: compiling the text of a pattern, and matching a value.
ghost use Rattle.std.specs.Prelude.{◌≡◌, ◌↔◌, IfOk, IfSome, IsSome, IsTrue};
ghost use Rattle.std.specs.Option.{is_some};
ghost use Rattle.std.specs.Str.{chars};
ghost use Rattle.form_pattern.specs.Compiled.{Compiles, MatchesWhole};
ghost use Rattle.form_pattern.specs.Deciding.{does_compile, does_match};
ghost use Rattle.form_pattern.specs.Likeness.{StandsForText};
ghost use Rattle.form_pattern.specs.Steps.{bare};
ghost use Rattle.form_pattern.specs.Pieces.{tree_of};

use crate::groups::read;
use crate::matching::whole;
use crate::nodes::Node;
use crate::pieces::Piece;
use crate::tables::tables;
use crate::tokens::tokens;
use form_text::Sequence;
use regex_class::Class as Ranges;
use std::alloc::{AllocError, Global};
use std::marker::Model;

/// A pattern that is ready to match. It is seen as the list of the characters of its text.
///
/// It holds all the memory that `matches` needs: at most about two nodes for each unit of weight,
/// and the characters of each token once, as ranges in order.
#[derive(Debug, Drop)]
pub struct Pattern {
    characters: Sequence<char>,
    tables: Vec<Ranges>,
    node: Node,
}

impl Model for Pattern {
    ghost use Rattle.std.specs.Prelude.{List, ℕ};
    ghost use Rattle.form_pattern.specs.Likeness.{StandsForText};
    ghost use Rattle.form_pattern.specs.Steps.{bare};
    ghost use Rattle.form_pattern.specs.Pieces.{tree_of};

    ghost Value = { List ℕ };

    ghost view = { λ p. p.characters };

    ghost invariant = { λ p. StandsForText p.tables.items (bare (tree_of p.node)) p.characters };
}

// The characters of a text.
fn characters(alloc: Global, text: &str) -> Result<Vec<char>, AllocError>
    ensures { IfOk result (λ v. v.items ≡ chars text.now) }
{
    text.chars().collect(alloc)
}

// The tree of a text with the characters of its leaves.
fn parts(alloc: Global, text: &[char]) -> Result<Option<(Vec<Ranges>, Node)>, AllocError>
    ensures compiles { IfOk result (λ o. IsSome o ↔ Compiles text.now) }
    ensures truth { IfOk result (λ o. is_some o ≡ does_compile text.now) }
    ensures stands { IfOk result (λ o. IfSome o (λ r. StandsForText r.0.items (bare (tree_of r.1)) text.now)) }
{
    let Some(tokens) = tokens(alloc, text)? else {
        return Ok(None);
    };
    let Some(piece) = read(alloc, tokens.as_slice())? else {
        return Ok(None);
    };
    match piece {
        Piece::Heavy => Ok(None),
        Piece::Light(_, node) => {
            let tables = tables(alloc, tokens.as_slice())?;
            Ok(Some((tables, node)))
        }
    }
}

impl Pattern {
    /// The pattern that the text spells; `None` exactly where the text is outside the grammar, or
    /// weighs more than 2,000 (HTML, "The pattern attribute"; the grammar and the weights are this
    /// project's own, docs/profile/patterns.md). An error says that memory was refused.
    ///
    /// The weight of each part is found before the part is built, so that no more memory is taken
    /// than the text and a weight of 2,000 ask for.
    pub fn compile(alloc: Global, text: &str) -> Result<Option<Pattern>, AllocError>
        ensures compiles { IfOk result (λ o. IsSome o ↔ Compiles (chars text.now)) }
        ensures truth { IfOk result (λ o. is_some o ≡ does_compile (chars text.now)) }
        ensures value { IfOk result (λ o. IfSome o (λ p. p ≡ chars text.now)) }
    {
        let characters = characters(alloc, text)?;
        let Some((tables, node)) = parts(alloc, characters.as_slice())? else {
            return Ok(None);
        };
        let characters = Sequence::from_vec(characters);
        Ok(Some(Pattern {
            characters,
            tables,
            node,
        }))
    }

    /// Whether the pattern matches the whole value, from its first character to its last. Takes no
    /// memory, and time in proportion to the weight of the pattern and the length of the value.
    ///
    /// The pattern stands for the same text afterwards.
    pub fn matches(&mut self, value: &str) -> bool
        ensures answer { IsTrue result ↔ MatchesWhole self.old (chars value.now) }
        ensures value { result ≡ does_match self.old (chars value.now) }
        ensures kept { self.new ≡ self.old }
    {
        whole(self.tables.as_slice(), &mut self.node, value)
    }
}
