// How runs end, and what is written then.
use crate::setting::{BASE, PLAIN, Setting, ends, left_of};
use crate::uploads::{SENT, UPLOAD};
use form_run::Status;
use std::test::Fail;

// Whose source and sink fail in their first calls.
const DEAD: Setting = Setting {
    source: 1,
    sink: 1,
    ..PLAIN
};

// Words, one a line, that name no document and ask for no generated page; the files fail in their first calls.
const USAGES: [&str; 8] = [
    "",
    "\n",
    "/x",
    "/x\na",
    "--generate",
    "--generate\n0",
    "--generate\n5001",
    "--generate\n4\n4",
];

#[test]
fn usage(rt: HostRuntime) -> Result<(), Fail> {
    for words in USAGES {
        ends(
            &rt,
            rt.alloc(),
            words,
            "<form></form>",
            DEAD,
            Status::Usage,
            b"",
        )?;
    }
    Ok(())
}

// A file that is sent, what fails, the end, and whether all is written.
const FILES: [(&str, Setting, Status, bool); 9] = [
    ("hi", PLAIN, Status::Done, true),
    ("hi", Setting { file: 1, ..PLAIN }, Status::FileFault, false),
    (
        "hi",
        Setting { source: 1, ..PLAIN },
        Status::ReadFault,
        false,
    ),
    (
        "hi",
        Setting { sink: 1, ..PLAIN },
        Status::WriteFault,
        false,
    ),
    // no room for the last byte
    (
        "hi",
        Setting { room: 289, ..PLAIN },
        Status::WriteFault,
        false,
    ),
    ("hi", Setting { room: 290, ..PLAIN }, Status::Done, true),
    // a file that changes between its two readings
    ("hi=hid", PLAIN, Status::FileChanged(2, 3), false),
    ("hi=h", PLAIN, Status::FileChanged(2, 1), false),
    ("hi=", PLAIN, Status::FileChanged(2, 0), false),
];

#[test]
fn files(rt: HostRuntime) -> Result<(), Fail> {
    for (file, setting, end, is_whole) in FILES {
        let words = format!(in rt.alloc(); "{BASE}\ndocs/hi.txt={file}")?;
        let piece = setting.piece.max(1);
        let setting = Setting { piece, ..setting };
        let (status, left) = left_of(rt.alloc(), words.as_str(), UPLOAD, SENT, setting)?;
        assert_eq!(rt; status, end);
        assert_eq!(rt; left.map(|left| left == 0), Some(is_whole));
    }
    Ok(())
}

// How many spaces the input has, the end, and what is written.
const SPACES: [(usize, Status, &[u8]); 2] = [
    (16_777_216, Status::Done, b"page 0\n"),
    (16_777_217, Status::TooLong, b""),
];

#[test]
fn inputs_at_the_limit(rt: HostRuntime) -> Result<(), Fail> {
    for (size, end, text) in SPACES {
        let input = " ".repeat(rt.alloc(), size)?;
        ends(&rt, rt.alloc(), BASE, input.as_str(), PLAIN, end, text)?;
    }
    Ok(())
}
