// The marks of one element.
ghost use Rattle.std.specs.Prelude.{◌≡◌, OnOk};
ghost use Rattle.form_tree.specs.Tree.{with_node};
ghost use Rattle.form_changes.specs.Changing.{set_checked, set_selected};

use crate::draft::Draft;
use form_tree::Key;
use std::alloc::AllocError;

/// The checkedness of an element set by the user or the script.
pub fn set_checked(draft: &mut Draft<'_>, key: Key, on: bool) -> Result<(), AllocError>
    ensures { OnOk result (draft.new ≡ record draft.old { nodes = with_node draft.old.nodes key (set_checked on) }) }
{
    let Some(node) = draft.node(key) else {
        return Ok(());
    };
    let state = form_changes::set_checked(node, on)?;
    draft.put(key, state)
}

/// The selectedness of an element set by the user or the script.
pub fn set_selected(draft: &mut Draft<'_>, key: Key, on: bool) -> Result<(), AllocError>
    ensures { OnOk result (draft.new ≡ record draft.old { nodes = with_node draft.old.nodes key (set_selected on) }) }
{
    let Some(node) = draft.node(key) else {
        return Ok(());
    };
    let state = form_changes::set_selected(node, on)?;
    draft.put(key, state)
}
