// What an attribute is for.
ghost use Rattle.std.specs.Prelude.{◌≡◌};
ghost use Rattle.form_changes.specs.Changing.{role_of};

/// What a change of an attribute does further, by the attribute's name.
#[derive(Clone, Copy, Debug, PartialEq, Eq)]
pub enum Role {
    /// `type`.
    Type,
    /// `value`.
    Value,
    /// `min`, `max` and `step`.
    Limit,
    /// `checked`.
    Checked,
    /// `name`.
    Name,
    /// `id` and `form`, which say the owners.
    Owner,
    /// `selected`.
    Selected,
    /// `multiple` and `size`.
    Size,
    /// Every other one.
    Plain,
}

/// What an attribute of that name is for.
pub fn role_of(name: &str) -> Role
    ensures { result ≡ role_of name.now }
{
    match name {
        "type" => Role::Type,
        "value" => Role::Value,
        "min" | "max" | "step" => Role::Limit,
        "checked" => Role::Checked,
        "name" => Role::Name,
        "id" | "form" => Role::Owner,
        "selected" => Role::Selected,
        "multiple" | "size" => Role::Size,
        _ => Role::Plain,
    }
}
