// Generated pages, and what is counted of them.
use crate::setting::{PLAIN, Setting, ends};
use form_run::Status;
use std::test::Fail;

// The words, one a line, and what is written. Of each control one command is refused. A text field and a
// number field change 7 times and are invalid in the end, a checkbox 8 times. Of m radio buttons in a group
// the first makes 8 + 3 (m - 1) changes: as it is checked, leaves the group and comes back, each other one
// changes too. Each later one makes 7 + 2 m: as it is checked it unchecks another, and as it leaves and
// comes back all change. Up to control 36 one group has 9 radio buttons, and then each ten have one.
const COUNTS: [(&str, &str); 10] = [
    (
        "--generate\n1",
        "controls 1\ncommands 10\nrefused 1\nchanges 7\ninvalid 1\n",
    ),
    (
        "--generate\n2",
        "controls 2\ncommands 20\nrefused 2\nchanges 14\ninvalid 2\n",
    ),
    (
        "--generate\n3",
        "controls 3\ncommands 30\nrefused 3\nchanges 22\ninvalid 2\n",
    ),
    ("--generate\n4", FOUR),
    (
        "--generate\n7",
        "controls 7\ncommands 70\nrefused 7\nchanges 52\ninvalid 4\n",
    ),
    (
        "--generate\n8",
        "controls 8\ncommands 80\nrefused 8\nchanges 66\ninvalid 4\n",
    ),
    (
        "--generate\n12",
        "controls 12\ncommands 120\nrefused 12\nchanges 106\ninvalid 6\n",
    ),
    (
        "--generate\n36",
        "controls 36\ncommands 360\nrefused 36\nchanges 430\ninvalid 18\n",
    ),
    (
        "--generate\n40",
        "controls 40\ncommands 400\nrefused 40\nchanges 460\ninvalid 20\n",
    ),
    (
        "--generate\n400",
        "controls 400\ncommands 4000\nrefused 400\nchanges 4942\ninvalid 200\n",
    ),
];

const FOUR: &str = "controls 4\ncommands 40\nrefused 4\nchanges 30\ninvalid 2\n";

// A source that is not read and, since no bytes stand behind its word, a file that is not touched: each
// would fail.
const UNREAD: Setting = Setting { source: 1, ..PLAIN };

#[test]
fn generated_pages(rt: HostRuntime) -> Result<(), Fail> {
    for (words, text) in COUNTS {
        ends(
            &rt,
            rt.alloc(),
            words,
            "",
            UNREAD,
            Status::Done,
            text.as_bytes(),
        )?;
    }
    Ok(())
}

// The sink takes so many bytes and then fails.
#[test]
fn counts_that_are_cut(rt: HostRuntime) -> Result<(), Fail> {
    let text = FOUR.as_bytes();
    for room in 0..text.len() {
        let setting = Setting { room, ..UNREAD };
        ends(
            &rt,
            rt.alloc(),
            "--generate\n4",
            "",
            setting,
            Status::WriteFault,
            &text[..room],
        )?;
    }
    Ok(())
}
