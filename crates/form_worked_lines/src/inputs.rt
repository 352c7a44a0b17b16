// Which inputs are pages, and where their scripts begin.
use crate::setting::run_over;
use std::alloc::{AllocError, Global};
use std::test::Fail;

// The end of a run, what is written, and the input, of which each character stands for the byte of its
// number; a semicolon and a line feed stand between two rows. Here inputs whose pages are refused: the whole
// input is UTF-8, or it is no page; a page that is refused has no replies; places are counted after line
// ends are made one.
const REFUSED: &str = "Page|bad page lexical 6\n|<form><input name=\"q;
Page|bad page nesting 6\n|<form>;
Page|bad page email 0\n|<input type=\"EMAIL\">;
Page|bad page element 18\n|<p><video></video><dialog></dialog></p>;
Page|bad page utf8 1\n|a\u{ff};
Page|bad page utf8 30\n|<form></form>\n%script\nshow @1\n\u{c3};
Page|bad page nesting 7\n|<form>\n%script\nshow @1\n;
Page|bad page nesting 8\n|\r\n\r<form>";

// Inputs that are pages, with scripts and without.
const PAGES: &str = "Done|page 0\n|;
Done|page 0\n|%script;
Done|page 1\nrefused wrong-kind\n|<p></p>\n%script\r\nshow @1\r;
Done|page 1\nrefused syntax\n|<p></p>\n%script \n%script\njump;
Done|page 1\nrefused syntax\n|<p></p>\n%script\n%script\n;
Done|page 1\n|<p></p>\n%script\n\n\r\n#\r\n# show @1";

fn bytes_of(alloc: Global, text: &str) -> Result<Vec<u8>, AllocError> {
    let mut bytes = Vec::new(alloc);
    for c in text.chars() {
        bytes.push(u8::try_from(c as u32).unwrap_or(b'?'))?;
    }
    Ok(bytes)
}

// The end of a run over an input, and what is written.
fn answer(alloc: Global, input: &str) -> Result<String, AllocError> {
    let (status, written) = run_over(alloc, &bytes_of(alloc, input)?)?;
    format!(in alloc; "{status:?}|{}", written.as_str())
}

// The first row that does not hold, and what is answered; an empty text where all hold.
fn first_wrong(alloc: Global, rows: &str) -> Result<String, AllocError> {
    for row in rows.split(";\n") {
        let (want, input) = row.rsplit_once('|').unwrap_or(("no input", row));
        let answer = answer(alloc, input)?;
        if answer.as_str() != want {
            return format!(in alloc; "{row}: {}", answer.as_str());
        }
    }
    Ok(String::new(alloc))
}

#[test]
fn pages(rt: HostRuntime) -> Result<(), Fail> {
    for rows in [REFUSED, PAGES] {
        assert_eq!(rt; first_wrong(rt.alloc(), rows)?.as_str(), "");
    }
    Ok(())
}
