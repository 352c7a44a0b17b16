// The elements that hold each file.
ghost use Rattle.std.specs.Prelude.{◌≡◌, ◌++◌, ℕ, IfOk, OnOk};
ghost use Rattle.form_groups.specs.Holders.{AreHolders, held, kept_keys};

use form_tree::{Key, Node, Tree};
use std::alloc::{AllocError, Global};
use std::collections::BTreeMap;

/// The elements that have each file among their selected files, by the number of the file (HTML, "File
/// Upload state").
#[derive(Drop)]
pub struct Holders {
    alloc: Global,
    lists: BTreeMap<u32, Vec<Key>>,
}

impl Holders {
    /// Those of a tree.
    pub fn build(alloc: Global, tree: &Tree) -> Result<Holders, AllocError>
        ensures { IfOk result (λ all. AreHolders all tree.now.nodes) }
    {
        let mut all = Holders {
            alloc,
            lists: BTreeMap::new(alloc),
        };
        for node in tree.nodes() {
            all.enter(node)?;
        }
        Ok(all)
    }

    /// The elements that have a file, in tree order, each as often as it has it.
    pub fn keys(&self, file: u32) -> &[Key]
        ensures { result.now ≡ kept_keys self.now file }
    {
        match self.lists.get(&file) {
            Some(keys) => keys.as_slice(),
            None => &[],
        }
    }

    // One more element, under each of its files.
    fn enter(&mut self, node: &Node) -> Result<(), AllocError>
        ensures { OnOk result ((file : ℕ) → kept_keys self.new file ≡ kept_keys self.old file ++ held file node.now) }
    {
        for number in node.state.files.as_slice() {
            self.lists
                .entry(*number)?
                .or_insert(Vec::new(self.alloc))
                .push(node.key)?;
        }
        Ok(())
    }
}
