//! The states whose value is their `value` attribute or their files: they have no text to edit.
#![tactic(auto, unfolding(crate::specs::TypeTable::row_of))]

ghost use Rattle.form_types.specs.declared.kind.Kind.{Kind};
ghost use Rattle.form_types.specs.TypeTable.{mode_of, scale_of, default_step_of, blocks};

use crate::kind::{Attr, Kind, Mode};
use crate::row::Row;

/// The row of `hidden`.
pub struct HiddenRow;

impl Row for HiddenRow {
    const KIND: Kind = Kind::Hidden;

    const KEYWORD: &'static str = "hidden";

    const MODE: Mode = Mode::Default;

    const SCALE: Option<i64> = None;

    const DEFAULT_STEP: Option<i64> = None;

    const BLOCKS: bool = false;

    ghost KIND = { Kind.Hidden };

    ghost MODE = { mode_of Kind.Hidden };

    ghost SCALE = { scale_of Kind.Hidden };

    ghost DEFAULT_STEP = { default_step_of Kind.Hidden };

    ghost BLOCKS = { blocks Kind.Hidden };

    fn word() -> &'static str {
        Self::KEYWORD
    }

    fn applies(_attr: Attr) -> bool {
        false
    }
}

/// The row of `checkbox`.
pub struct CheckboxRow;

impl Row for CheckboxRow {
    const KIND: Kind = Kind::Checkbox;

    const KEYWORD: &'static str = "checkbox";

    const MODE: Mode = Mode::DefaultOn;

    const SCALE: Option<i64> = None;

    const DEFAULT_STEP: Option<i64> = None;

    const BLOCKS: bool = false;

    ghost KIND = { Kind.Checkbox };

    ghost MODE = { mode_of Kind.Checkbox };

    ghost SCALE = { scale_of Kind.Checkbox };

    ghost DEFAULT_STEP = { default_step_of Kind.Checkbox };

    ghost BLOCKS = { blocks Kind.Checkbox };

    fn word() -> &'static str {
        Self::KEYWORD
    }

    fn applies(attr: Attr) -> bool {
        matches!(attr, Attr::Required)
    }
}

/// The row of `radio`.
pub struct RadioRow;

impl Row for RadioRow {
    const KIND: Kind = Kind::Radio;

    const KEYWORD: &'static str = "radio";

    const MODE: Mode = Mode::DefaultOn;

    const SCALE: Option<i64> = None;

    const DEFAULT_STEP: Option<i64> = None;

    const BLOCKS: bool = false;

    ghost KIND = { Kind.Radio };

    ghost MODE = { mode_of Kind.Radio };

    ghost SCALE = { scale_of Kind.Radio };

    ghost DEFAULT_STEP = { default_step_of Kind.Radio };

    ghost BLOCKS = { blocks Kind.Radio };

    fn word() -> &'static str {
        Self::KEYWORD
    }

    fn applies(attr: Attr) -> bool {
        matches!(attr, Attr::Required)
    }
}

/// The row of `file`.
pub struct FileRow;

impl Row for FileRow {
    const KIND: Kind = Kind::File;

    const KEYWORD: &'static str = "file";

    const MODE: Mode = Mode::Filename;

    const SCALE: Option<i64> = None;

    const DEFAULT_STEP: Option<i64> = None;

    const BLOCKS: bool = false;

    ghost KIND = { Kind.File };

    ghost MODE = { mode_of Kind.File };

    ghost SCALE = { scale_of Kind.File };

    ghost DEFAULT_STEP = { default_step_of Kind.File };

    ghost BLOCKS = { blocks Kind.File };

    fn word() -> &'static str {
        Self::KEYWORD
    }

    fn applies(attr: Attr) -> bool {
        matches!(attr, Attr::Required | Attr::Multiple)
    }
}

/// The row of `submit`.
pub struct SubmitRow;

impl Row for SubmitRow {
    const KIND: Kind = Kind::Submit;

    const KEYWORD: &'static str = "submit";

    const MODE: Mode = Mode::Default;

    const SCALE: Option<i64> = None;

    const DEFAULT_STEP: Option<i64> = None;

    const BLOCKS: bool = false;

    ghost KIND = { Kind.Submit };

    ghost MODE = { mode_of Kind.Submit };

    ghost SCALE = { scale_of Kind.Submit };

    ghost DEFAULT_STEP = { default_step_of Kind.Submit };

    ghost BLOCKS = { blocks Kind.Submit };

    fn word() -> &'static str {
        Self::KEYWORD
    }

    fn applies(_attr: Attr) -> bool {
        false
    }
}

/// The row of `image`.
pub struct ImageRow;

impl Row for ImageRow {
    const KIND: Kind = Kind::Image;

    const KEYWORD: &'static str = "image";

    const MODE: Mode = Mode::Default;

    const SCALE: Option<i64> = None;

    const DEFAULT_STEP: Option<i64> = None;

    const BLOCKS: bool = false;

    ghost KIND = { Kind.Image };

    ghost MODE = { mode_of Kind.Image };

    ghost SCALE = { scale_of Kind.Image };

    ghost DEFAULT_STEP = { default_step_of Kind.Image };

    ghost BLOCKS = { blocks Kind.Image };

    fn word() -> &'static str {
        Self::KEYWORD
    }

    fn applies(_attr: Attr) -> bool {
        false
    }
}

/// The row of `reset`.
pub struct ResetRow;

impl Row for ResetRow {
    const KIND: Kind = Kind::Reset;

    const KEYWORD: &'static str = "reset";

    const MODE: Mode = Mode::Default;

    const SCALE: Option<i64> = None;

    const DEFAULT_STEP: Option<i64> = None;

    const BLOCKS: bool = false;

    ghost KIND = { Kind.Reset };

    ghost MODE = { mode_of Kind.Reset };

    ghost SCALE = { scale_of Kind.Reset };

    ghost DEFAULT_STEP = { default_step_of Kind.Reset };

    ghost BLOCKS = { blocks Kind.Reset };

    fn word() -> &'static str {
        Self::KEYWORD
    }

    fn applies(_attr: Attr) -> bool {
        false
    }
}

/// The row of `button`.
pub struct ButtonRow;

impl Row for ButtonRow {
    const KIND: Kind = Kind::Button;

    const KEYWORD: &'static str = "button";

    const MODE: Mode = Mode::Default;

    const SCALE: Option<i64> = None;

    const DEFAULT_STEP: Option<i64> = None;

    const BLOCKS: bool = false;

    ghost KIND = { Kind.Button };

    ghost MODE = { mode_of Kind.Button };

    ghost SCALE = { scale_of Kind.Button };

    ghost DEFAULT_STEP = { default_step_of Kind.Button };

    ghost BLOCKS = { blocks Kind.Button };

    fn word() -> &'static str {
        Self::KEYWORD
    }

    fn applies(_attr: Attr) -> bool {
        false
    }
}
