// A real file, a missing one, and a folder.
use form_ports::{Blob, Got, LazyFile, Rewound};
use std::test::Fail;

// A file that every Linux machine has; its text is `Linux` and a line feed.
const FILE: &str = "/proc/sys/kernel/ostype";

#[test]
fn a_real_file_is_read(rt: HostRuntime) -> Result<(), Fail> {
    let mut file = LazyFile::new(rt, String::from_str(rt.alloc(), FILE)?);
    let mut room = [0u8; 4];
    assert_eq!(rt; file.read(&mut room), Got::Bytes(4));
    assert_eq!(rt; &room, b"Linu");
    assert_eq!(rt; file.read(&mut room), Got::Bytes(2));
    assert_eq!(rt; &room[..2], b"x\n".as_slice());
    assert_eq!(rt; file.read(&mut room), Got::End);
    assert_eq!(rt; file.rewind(), Rewound::Done);
    assert_eq!(rt; file.read(&mut room), Got::Bytes(4));
    assert_eq!(rt; &room, b"Linu");
    Ok(())
}

#[test]
fn a_missing_file_and_a_folder_fail(rt: HostRuntime) -> Result<(), Fail> {
    let mut room = [0u8; 4];
    for path in ["/proc/no such file", "/proc"] {
        let mut file = LazyFile::new(rt, String::from_str(rt.alloc(), path)?);
        assert_eq!(rt; file.rewind(), Rewound::Done);
        assert_eq!(rt; file.read(&mut room), Got::Failed);
        assert_eq!(rt; file.read(&mut room), Got::Failed);
    }
    Ok(())
}
