// States put into a tree, place by place.
ghost use Rattle.std.specs.Prelude.{◌≡◌};
ghost use Rattle.form_page.specs.States.{with_state_at, with_states};

use form_tree::{State, Tree};

/// Puts into each element the state that there is for its place.
pub fn put_states(tree: &mut Tree, states: Vec<Option<State>>)
    ensures { tree.new ≡ record tree.old { nodes = with_states tree.old.nodes states.items } }
{
    let mut left = states;
    while let Some(state) = left.pop() {
        put_state(tree, left.len(), state);
    }
}

fn put_state(tree: &mut Tree, place: usize, state: Option<State>)
    ensures { tree.new ≡ record tree.old { nodes = with_state_at tree.old.nodes place state } }
{
    let Some(state) = state else {
        return;
    };
    tree.len();
    if let Some(key) = tree.key_at(place) {
        tree.set_state(key, state);
    }
}
