// How many invalid controls a form has.
ghost use Rattle.std.specs.Prelude.{◌≡◌, ◌<◌, ◌^◌, length, map};
ghost use Rattle.std.specs.List.{count_by};
ghost use Rattle.form_tree.specs.Tree.{Nodes};
ghost use Rattle.form_owner.specs.Owners.{owners_of};
ghost use Rattle.form_page.specs.Changes.{counts_for, is_failing};
ghost use Rattle.form_page.specs.Invalid.{is_invalid_in};
ghost use Rattle.form_page.specs.Page.{names_of};
ghost use Rattle.form_page.specs.Views.{sight_if};

use crate::file::File;
use crate::sight::Sight;
use form_owner::Answer;
use form_tree::{Key, Tree};

/// How many elements are invalid controls of the form, by what is kept of each.
pub fn count_invalid(
    tree: &Tree,
    files: &[File],
    answers: &[Answer],
    sights: &[Option<Sight>],
    form: Key,
) -> u32
    requires few { length tree.now.nodes < 2 ^ 32 }
    requires answers { answers.now ≡ owners_of tree.now.nodes }
    requires sights { sights.now ≡ map (sight_if (names_of files.now) tree.now.nodes) tree.now.nodes }
    ensures { result ≡ count_by (is_invalid_in tree.now.nodes form) tree.now.nodes }
{
    let mut count: u32 = 0;
    for place in 0..tree.len() {
        if counts_for(form, answers[place].owner, &sights[place]) {
            count += 1;
        }
    }
    count
}

fn counts_for(form: Key, owner: Option<Key>, sight: &Option<Sight>) -> bool
    ensures { result ≡ counts_for form owner sight.now }
{
    let Some(owner) = owner else {
        return false;
    };
    form.0 == owner.0 && is_failing(sight)
}

fn is_failing(sight: &Option<Sight>) -> bool
    ensures { result ≡ is_failing sight.now }
{
    let Some(sight) = sight else {
        return false;
    };
    match &sight.verdict {
        Some(verdict) => sight.candidate && verdict.flags().has_some(),
        None => false,
    }
}
