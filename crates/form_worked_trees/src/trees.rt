// What a tree answers, and how it is written, on pages.
use crate::pages::{key_of, tree_of};
use form_text::{Sequence, Text};
use form_tree::{Key, State, Tree};
use std::alloc::{AllocError, Global};
use std::test::Fail;

// A page, and calls on its tree one after the other, each as its name, what it is given and its answer. Of a
// key `all` tells place, tag, parent, number of attributes, text, and whether there is a state. Here every
// reader of every key, attributes of neighbours, of other elements and of none, and the state, the text and
// the attributes of one element, which are not those of others.
const MANY: &str =
    "<form action=\"/s\" method=\"get\"><fieldset><input name=\"q\" value=\"v\"></fieldset><textarea>x y</textarea></form><p></p>
len||5
all|0|None None None None None false
all|1|Some(0) Some(Form) None Some(2) Some(\"\") true
all|2|Some(1) Some(Fieldset) Some(Key(1)) Some(0) Some(\"\") true
all|3|Some(2) Some(Input) Some(Key(2)) Some(2) Some(\"\") true
all|4|Some(3) Some(Textarea) Some(Key(1)) Some(0) Some(\"x y\") true
all|5|Some(4) Some(Other) None Some(0) Some(\"\") true
all|6|None None None None None false
all|4294967295|None None None None None false
key_at|0|Some(Key(1))
key_at|4|Some(Key(5))
key_at|5|None
attr|3 name|Some(\"q\")
attr|3 value|Some(\"v\")
attr|3 action|None
attr|1 action|Some(\"/s\")
attr|1 method|Some(\"get\")
attr|2 name|None
attr|0 action|None
attr|6 name|None
attrs|0|none
attrs|1|action=/s;method=get;
blank|3|true
type|3 typed|typed true false false 0
blank|2|true
blank|4|true
attr|3 value|Some(\"v\")
write|4 z|Some(\"z\")
text|3|Some(\"\")
swap|3|2
attr_count|3|Some(0)
attr_count|1|Some(2)";

// One form is a tree; an attribute keeps its place, and a new one goes last.
const ONE: &str = "<form></form>
len||1
key_at|0|Some(Key(1))
tag|1|Some(Form)
set|1 id=a|id=a;
set|1 method=post|id=a;method=post;
set|1 id=b|id=b;method=post;
set|1 name|id=b;method=post;
set|1 id|method=post;
set|1 id=|method=post;id=;";

// A copy is equal and stands alone.
const COPIED: &str = "<form></form>
len||1
set|1 id=a|id=a;
apart|1 id|1 Some(Key(1)) Some(Form) Some(\"a\") None";

fn all(alloc: Global, tree: &Tree, key: Key) -> Result<String, AllocError> {
    format!(in alloc;
        "{:?} {:?} {:?} {:?} {:?} {}",
        tree.place(key),
        tree.tag(key),
        tree.parent(key),
        tree.attr_count(key),
        tree.text(key),
        tree.state(key).is_some()
    )
}

// Each attribute as `name=value;`.
fn listed(alloc: Global, attrs: &[(Text, Text)]) -> Result<String, AllocError> {
    let mut all = String::new(alloc);
    for (name, value) in attrs {
        let text = format!(in alloc; "{}={};", name.as_str(), value.as_str())?;
        all.push_str(text.as_str())?;
    }
    Ok(all)
}

fn attrs(alloc: Global, tree: &Tree, key: Key) -> Result<String, AllocError> {
    match tree.attrs(key) {
        Some(attrs) => listed(alloc, attrs),
        None => String::from_str(alloc, "none"),
    }
}

// Whether the element has the state in which it began.
fn is_blank(tree: &Tree, key: Key) -> bool {
    match tree.state(key) {
        Some(state) => state.value.as_str().is_empty() && !state.dirty,
        None => false,
    }
}

// The value that was typed, whether it is dirty, by the user and checked, and how many files there are.
fn typed(alloc: Global, tree: &Tree, key: Key) -> Result<String, AllocError> {
    let Some(state) = tree.state(key) else {
        return String::from_str(alloc, "none");
    };
    format!(in alloc;
        "{} {} {} {} {}",
        state.value.as_str(),
        state.dirty,
        state.by_user,
        state.checked,
        state.files.as_slice().len()
    )
}

// What a reader answers of a key.
fn read(
    alloc: Global,
    tree: &Tree,
    call: &str,
    key: Key,
    name: &str,
) -> Result<String, AllocError> {
    match call {
        "all" => all(alloc, tree, key),
        "attr" => format!(in alloc; "{:?}", tree.attr(key, name)),
        "attrs" => attrs(alloc, tree, key),
        "attr_count" => format!(in alloc; "{:?}", tree.attr_count(key)),
        "blank" => format!(in alloc; "{}", is_blank(tree, key)),
        "len" => format!(in alloc; "{}", tree.len()),
        "key_at" => format!(in alloc; "{:?}", tree.key_at(key.0 as usize)),
        "tag" => format!(in alloc; "{:?}", tree.tag(key)),
        "text" => format!(in alloc; "{:?}", tree.text(key)),
        _ => String::from_str(alloc, "no call"),
    }
}

// Sets an attribute, or takes it away.
fn set(tree: &mut Tree, key: Key, name: &str, value: Option<String>) -> Result<(), AllocError> {
    if tree.place(key).is_some() {
        tree.set_attr(key, name, value)?;
    }
    Ok(())
}

// A text `name=value` as its two parts, and one without `=` as a name that is to have no value.
fn parts(alloc: Global, text: &str) -> Result<(&str, Option<String>), AllocError> {
    match text.split_once('=') {
        Some((name, value)) => Ok((name, Some(String::from_str(alloc, value)?))),
        None => Ok((text, None)),
    }
}

// What a tree's copy says of a key once the tree itself has lost an attribute, and that attribute.
fn apart(alloc: Global, tree: &mut Tree, key: Key, name: &str) -> Result<String, AllocError> {
    let copy = tree.copy()?;
    set(tree, key, name, None)?;
    format!(in alloc;
        "{} {:?} {:?} {:?} {:?}",
        copy.len(),
        copy.key_at(0),
        copy.tag(key),
        copy.attr(key, name),
        tree.attr(key, name)
    )
}

fn type_in(alloc: Global, tree: &mut Tree, key: Key, value: &str) -> Result<(), AllocError> {
    let mut state = State::empty(alloc);
    state.value = Text::from_str(alloc, value)?;
    state.dirty = true;
    if tree.place(key).is_some() {
        tree.set_state(key, state);
    }
    Ok(())
}

fn write(alloc: Global, tree: &mut Tree, key: Key, text: &str) -> Result<(), AllocError> {
    let text = String::from_str(alloc, text)?;
    if tree.place(key).is_some() {
        tree.set_text(key, text);
    }
    Ok(())
}

// Takes all attributes away, and answers how many there were.
fn swap(alloc: Global, tree: &mut Tree, key: Key) -> usize {
    if tree.place(key).is_none() {
        return 0;
    }
    let old = tree.swap_attrs(key, Sequence::new(alloc));
    old.as_slice().len()
}

// What a call answers that may change the tree.
fn answer(alloc: Global, tree: &mut Tree, call: &str, given: &str) -> Result<String, AllocError> {
    let (number, rest) = given.split_once(' ').unwrap_or((given, ""));
    let key = key_of(number);
    match call {
        "apart" => apart(alloc, tree, key, rest),
        "set" => {
            let (name, value) = parts(alloc, rest)?;
            set(tree, key, name, value)?;
            attrs(alloc, tree, key)
        }
        "swap" => format!(in alloc; "{}", swap(alloc, tree, key)),
        "type" => {
            type_in(alloc, tree, key, rest)?;
            typed(alloc, tree, key)
        }
        "write" => {
            write(alloc, tree, key, rest)?;
            format!(in alloc; "{:?}", tree.text(key))
        }
        _ => read(alloc, tree, call, key, rest),
    }
}

// The first call on a page that does not hold, and what is answered; an empty text where all hold.
fn first_wrong(alloc: Global, page_and_calls: &str) -> Result<String, AllocError> {
    let (page, calls) = page_and_calls
        .split_once('\n')
        .unwrap_or((page_and_calls, ""));
    let Some(mut tree) = tree_of(alloc, page) else {
        return String::from_str(alloc, "no page");
    };
    for row in calls.lines() {
        let (asked, want) = row.rsplit_once('|').unwrap_or((row, ""));
        let (call, given) = asked.split_once('|').unwrap_or((asked, ""));
        let answer = answer(alloc, &mut tree, call, given)?;
        if answer.as_str() != want {
            return format!(in alloc; "{row}: {}", answer.as_str());
        }
    }
    Ok(String::new(alloc))
}

#[test]
fn calls_on_trees(rt: HostRuntime) -> Result<(), Fail> {
    for page_and_calls in [MANY, ONE, COPIED] {
        assert_eq!(rt; first_wrong(rt.alloc(), page_and_calls)?.as_str(), "");
    }
    Ok(())
}
