//! The rows of the table of states, by what their values are.
ghost use Rattle.std.specs.Prelude.{◌≡◌};
ghost use Rattle.form_types.specs.TypeTable.{is_listed, text_attributes, number_attributes, range_attributes};

pub mod dated;
pub mod line;
pub mod numeric;
pub mod plain;

use crate::kind::Attr;

fn is_of_text(attr: Attr) -> bool
    ensures { result ≡ is_listed attr text_attributes }
{
    matches!(
        attr,
        Attr::Required | Attr::Readonly | Attr::Minlength | Attr::Maxlength | Attr::Pattern
    )
}

fn is_of_range(attr: Attr) -> bool
    ensures { result ≡ is_listed attr range_attributes }
{
    matches!(attr, Attr::Min | Attr::Max | Attr::Step)
}

fn is_of_numbers(attr: Attr) -> bool
    ensures { result ≡ is_listed attr number_attributes }
{
    matches!(attr, Attr::Required | Attr::Readonly) || is_of_range(attr)
}
