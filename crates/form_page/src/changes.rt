// Which elements are seen to change.
ghost use Rattle.std.specs.Prelude.{◌≡◌, ◌++◌, [], ◌∷◌, length, IfOk, OnOk, if◌then◌else◌};
ghost use Rattle.form_page.specs.Changes.{changed_keys, same_sights};
ghost use Rattle.form_page.specs.Lent.{seen_in};
ghost use Rattle.form_page.specs.Views.{same_flags, same_view};

use crate::sight::Sight;
use crate::view::{View, view_by};
use form_judge::Flags;
use form_tree::{Key, Node};
use std::alloc::{AllocError, Global};

/// The keys of the elements that are seen to change, in tree order.
pub fn changed_keys(
    alloc: Global,
    nodes: &[Node],
    before: &[Option<Sight>],
    after: &[Option<Sight>],
) -> Result<Vec<Key>, AllocError>
    requires before { length before.now ≡ length nodes.now }
    requires after { length after.now ≡ length nodes.now }
    ensures { IfOk result (λ keys. keys.items ≡ changed_keys nodes.now before.now after.now) }
{
    let mut keys = Vec::new(alloc);
    for place in 0..nodes.len() {
        let same = same_sights(&before[place], &after[place]);
        push_unless(&mut keys, same, nodes[place].key)?;
    }
    Ok(keys)
}

fn push_unless(keys: &mut Vec<Key>, same: bool, key: Key) -> Result<(), AllocError>
    ensures { OnOk result (keys.new.items ≡ keys.old.items ++ (if same then [] else key ∷ [])) }
{
    if same {
        return Ok(());
    }
    keys.push(key)?;
    Ok(())
}

fn same_sights(before: &Option<Sight>, after: &Option<Sight>) -> bool
    ensures { result ≡ same_sights before.now after.now }
{
    match (before, after) {
        (Some(before), Some(after)) => same_view(view_by(before), view_by(after)),
        (None, None) => true,
        _ => false,
    }
}

fn same_view(a: View<'_>, b: View<'_>) -> bool
    ensures { result ≡ same_view (seen_in a.entry) (seen_in b.entry) }
{
    a.value == b.value
        && a.checked == b.checked
        && a.selected == b.selected
        && a.candidate == b.candidate
        && same_flags(a.flags, b.flags)
}

fn same_flags(a: Flags, b: Flags) -> bool
    ensures { result ≡ same_flags a b }
{
    a.value_missing == b.value_missing
        && a.type_mismatch == b.type_mismatch
        && a.pattern_mismatch == b.pattern_mismatch
        && a.too_long == b.too_long
        && a.too_short == b.too_short
        && a.range_underflow == b.range_underflow
        && a.range_overflow == b.range_overflow
        && a.step_mismatch == b.step_mismatch
        && a.bad_input == b.bad_input
        && a.custom_error == b.custom_error
}
