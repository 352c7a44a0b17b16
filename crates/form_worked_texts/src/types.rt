// What the type table answers.
use crate::rows::{given, parts, whole};
use form_types::{
    Attr, ButtonKind, Kind, Row, applies, blocks, default_step, mode_of, scale, with_state,
};
use std::alloc::{AllocError, Global};
use std::test::Fail;

// The letters of the attributes.
const ATTRS: [(Attr, char); 9] = [
    (Attr::Required, 'R'),
    (Attr::Readonly, 'O'),
    (Attr::Minlength, 'l'),
    (Attr::Maxlength, 'L'),
    (Attr::Pattern, 'P'),
    (Attr::Min, 'm'),
    (Attr::Max, 'M'),
    (Attr::Step, 'S'),
    (Attr::Multiple, 'F'),
];

// A call, a keyword, `-` a missing one, and the answer.
const ROWS: [&str; 33] = [
    // the table, typed a second time: of a keyword the state, its mode, attributes, scale and default
    // step, and whether it blocks
    "row|hidden|Hidden Default [] none none false",
    "row|text|Text Value [ROlLP] none none true",
    "row|search|Search Value [ROlLP] none none true",
    "row|tel|Tel Value [ROlLP] none none true",
    "row|url|Url Value [ROlLP] none none true",
    "row|password|Password Value [ROlLP] none none true",
    "row|date|Date Value [ROmMS] 86400000 1 true",
    "row|month|Month Value [ROmMS] 1 1 true",
    "row|week|Week Value [ROmMS] 604800000 1 true",
    "row|time|Time Value [ROmMS] 1000 60 true",
    "row|datetime-local|Local Value [ROmMS] 1000 60 true",
    "row|number|Number Value [ROmMS] 1 1 true",
    "row|range|Range Value [mMS] 1 1 false",
    "row|color|Color Value [] none none false",
    "row|checkbox|Checkbox DefaultOn [R] none none false",
    "row|radio|Radio DefaultOn [R] none none false",
    "row|file|File Filename [RF] none none false",
    "row|submit|Submit Default [] none none false",
    "row|image|Image Default [] none none false",
    "row|reset|Reset Default [] none none false",
    "row|button|Button Default [] none none false",
    // states
    "state|-|Text",
    "state||Text",
    "state|foo|Text",
    "state| date|Text",
    "state|DateTime-LOCAL|Local",
    "state|eMail|Email",
    // kinds of buttons
    "button|-|Submit",
    "button||Submit",
    "button|menu|Submit",
    "button|Submit|Submit",
    "button|RESET|Reset",
    "button|button|Button",
];

fn is_keyword<R: Row>(keyword: &str) -> bool {
    R::KEYWORD == keyword
}

// Whether the state's row has that keyword.
fn has_keyword(kind: Kind, keyword: &str) -> bool {
    with_state!(kind, is_keyword, (keyword))
}

// The letters of the attributes that apply.
fn letters(alloc: Global, kind: Kind) -> Result<String, AllocError> {
    let mut letters = String::new(alloc);
    for (attr, letter) in ATTRS {
        if applies(kind, attr) {
            letters.push(letter)?;
        }
    }
    Ok(letters)
}

// The row of a state, which has that keyword.
fn row(alloc: Global, kind: Kind, keyword: &str) -> Result<String, AllocError> {
    if !has_keyword(kind, keyword) {
        return String::from_str(alloc, "another keyword");
    }
    let letters = letters(alloc, kind)?;
    let scale = whole(alloc, scale(kind))?;
    let step = whole(alloc, default_step(kind))?;
    format!(in alloc;
        "{kind:?} {:?} [{}] {} {} {}",
        mode_of(kind),
        letters.as_str(),
        scale.as_str(),
        step.as_str(),
        blocks(kind)
    )
}

// What that call answers to that keyword.
fn answer(alloc: Global, call: &str, keyword: &str) -> Result<String, AllocError> {
    match (call, Kind::of(given(keyword))) {
        ("row", Ok(kind)) => row(alloc, kind, keyword),
        ("state", Ok(kind)) => format!(in alloc; "{kind:?}"),
        ("state", Err(email)) => format!(in alloc; "{email:?}"),
        ("button", _) => format!(in alloc; "{:?}", ButtonKind::of(given(keyword))),
        _ => String::from_str(alloc, "no call"),
    }
}

#[test]
fn the_table(rt: HostRuntime) -> Result<(), Fail> {
    for row in ROWS {
        let (call, keyword, want) = parts(row).ok_or("no row")?;
        let answer = answer(rt.alloc(), call, keyword)?;
        assert_eq!(rt; (row, answer.as_str()), (row, want));
    }
    Ok(())
}
