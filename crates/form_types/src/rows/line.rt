//! The states of one line of text.
#![tactic(auto, unfolding(crate::specs::TypeTable::row_of))]

ghost use Rattle.form_types.specs.declared.kind.Kind.{Kind};
ghost use Rattle.form_types.specs.TypeTable.{mode_of, scale_of, default_step_of, blocks};

use crate::kind::{Attr, Kind, Mode};
use crate::row::Row;
use crate::rows::is_of_text;

/// The row of `text`.
pub struct TextRow;

impl Row for TextRow {
    const KIND: Kind = Kind::Text;

    const KEYWORD: &'static str = "text";

    const MODE: Mode = Mode::Value;

    const SCALE: Option<i64> = None;

    const DEFAULT_STEP: Option<i64> = None;

    const BLOCKS: bool = true;

    ghost KIND = { Kind.Text };

    ghost MODE = { mode_of Kind.Text };

    ghost SCALE = { scale_of Kind.Text };

    ghost DEFAULT_STEP = { default_step_of Kind.Text };

    ghost BLOCKS = { blocks Kind.Text };

    fn word() -> &'static str {
        Self::KEYWORD
    }

    fn applies(attr: Attr) -> bool {
        is_of_text(attr)
    }
}

/// The row of `search`.
pub struct SearchRow;

impl Row for SearchRow {
    const KIND: Kind = Kind::Search;

    const KEYWORD: &'static str = "search";

    const MODE: Mode = Mode::Value;

    const SCALE: Option<i64> = None;

    const DEFAULT_STEP: Option<i64> = None;

    const BLOCKS: bool = true;

    ghost KIND = { Kind.Search };

    ghost MODE = { mode_of Kind.Search };

    ghost SCALE = { scale_of Kind.Search };

    ghost DEFAULT_STEP = { default_step_of Kind.Search };

    ghost BLOCKS = { blocks Kind.Search };

    fn word() -> &'static str {
        Self::KEYWORD
    }

    fn applies(attr: Attr) -> bool {
        is_of_text(attr)
    }
}

/// The row of `tel`.
pub struct TelRow;

impl Row for TelRow {
    const KIND: Kind = Kind::Tel;

    const KEYWORD: &'static str = "tel";

    const MODE: Mode = Mode::Value;

    const SCALE: Option<i64> = None;

    const DEFAULT_STEP: Option<i64> = None;

    const BLOCKS: bool = true;

    ghost KIND = { Kind.Tel };

    ghost MODE = { mode_of Kind.Tel };

    ghost SCALE = { scale_of Kind.Tel };

    ghost DEFAULT_STEP = { default_step_of Kind.Tel };

    ghost BLOCKS = { blocks Kind.Tel };

    fn word() -> &'static str {
        Self::KEYWORD
    }

    fn applies(attr: Attr) -> bool {
        is_of_text(attr)
    }
}

/// The row of `url`.
pub struct UrlRow;

impl Row for UrlRow {
    const KIND: Kind = Kind::Url;

    const KEYWORD: &'static str = "url";

    const MODE: Mode = Mode::Value;

    const SCALE: Option<i64> = None;

    const DEFAULT_STEP: Option<i64> = None;

    const BLOCKS: bool = true;

    ghost KIND = { Kind.Url };

    ghost MODE = { mode_of Kind.Url };

    ghost SCALE = { scale_of Kind.Url };

    ghost DEFAULT_STEP = { default_step_of Kind.Url };

    ghost BLOCKS = { blocks Kind.Url };

    fn word() -> &'static str {
        Self::KEYWORD
    }

    fn applies(attr: Attr) -> bool {
        is_of_text(attr)
    }
}

/// The row of `password`.
pub struct PasswordRow;

impl Row for PasswordRow {
    const KIND: Kind = Kind::Password;

    const KEYWORD: &'static str = "password";

    const MODE: Mode = Mode::Value;

    const SCALE: Option<i64> = None;

    const DEFAULT_STEP: Option<i64> = None;

    const BLOCKS: bool = true;

    ghost KIND = { Kind.Password };

    ghost MODE = { mode_of Kind.Password };

    ghost SCALE = { scale_of Kind.Password };

    ghost DEFAULT_STEP = { default_step_of Kind.Password };

    ghost BLOCKS = { blocks Kind.Password };

    fn word() -> &'static str {
        Self::KEYWORD
    }

    fn applies(attr: Attr) -> bool {
        is_of_text(attr)
    }
}
