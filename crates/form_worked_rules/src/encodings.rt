// Entries as pairs, as texts and as parts, and which boundaries are free.
use form_encode::{
    Entry, Given, Pair, Scan, choose_boundary, closing_line, pairs, part_head, plain, urlencoded,
};
use form_text::Text;
use std::alloc::{AllocError, Global};
use std::test::Fail;

// An entry of that kind, by its name and its text or the name of its file.
fn entry_of(alloc: Global, kind: &str, name: &str, value: &str) -> Result<Entry, AllocError> {
    let name = Text::from_str(alloc, name)?;
    let value = Text::from_str(alloc, value)?;
    Ok(match kind {
        "file" => Entry {
            name,
            value: Given::File {
                number: None,
                name: value,
            },
        },
        _ => Entry {
            name,
            value: Given::Text(value),
        },
    })
}

// An entry: whether it has a text or a file, its name, and its text or the name of its file; and then
// the name and the value of its pair.
const PAIRS: [&str; 6] = [
    "text|n|\n|n|\r\n",
    "text|a\rb|\r\n\r|a\r\nb|\r\n\r\n",
    "text||é\nx||é\r\nx",
    "text|a\n||a\r\n|",
    "file|f\n|x\ny|f\r\n|x\ny",
    "file|f||f|",
];

// The entry of a row, and what its pair must be.
fn entry_and_pair(alloc: Global, row: &str) -> Result<(Entry, &str), Fail> {
    let (kind, rest) = row.split_once('|').ok_or("no kind")?;
    let (name, rest) = rest.split_once('|').ok_or("no name")?;
    let (value, pair) = rest.split_once('|').ok_or("no pair")?;
    Ok((entry_of(alloc, kind, name, value)?, pair))
}

fn shown(alloc: Global, pair: &Pair) -> Result<String, AllocError> {
    format!(in alloc; "{}|{}", pair.name.as_str(), pair.value.as_str())
}

#[test]
fn pairs_of_entries(rt: HostRuntime) -> Result<(), Fail> {
    let alloc = rt.alloc();
    let mut entries = Vec::new(alloc);
    let mut wanted = Vec::new(alloc);
    for row in PAIRS {
        let (entry, pair) = entry_and_pair(alloc, row)?;
        entries.push(entry)?;
        wanted.push(pair)?;
    }
    let made = pairs(alloc, &entries)?;
    assert_eq!(rt; made.len(), wanted.len());
    for (pair, want) in made.iter().zip(wanted) {
        assert_eq!(rt; shown(alloc, pair)?.as_str(), want);
    }
    Ok(())
}

// Pairs, with `:` between name and value and `;` between each two; and these form-urlencoded and as
// plain text.
const TEXTS: [&str; 7] = [
    "a b:é|a+b=%C3%A9|a b=é\r\n",
    "a:1|a=1|a=1\r\n",
    ":|=|=\r\n",
    "*-._~:\r\n|*-._%7E=%0D%0A|*-._~=\r\n\r\n",
    "&=:+%|%26%3D=%2B%25|&==+%\r\n",
    "a:x y;b:on|a=x+y&b=on|a=x y\r\nb=on\r\n",
    "||",
];

fn pairs_of(alloc: Global, text: &str) -> Result<Vec<Pair>, AllocError> {
    let mut pairs = Vec::new(alloc);
    for part in text.split(';') {
        if let Some((name, value)) = part.split_once(':') {
            pairs.push(Pair {
                name: Text::from_str(alloc, name)?,
                value: Text::from_str(alloc, value)?,
            })?;
        }
    }
    Ok(pairs)
}

// The pairs form-urlencoded, a bar, and the pairs as plain text.
fn texts_of(alloc: Global, text: &str) -> Result<String, AllocError> {
    let pairs = pairs_of(alloc, text)?;
    let encoded = urlencoded(alloc, &pairs)?;
    let plain = plain(alloc, &pairs)?;
    format!(in alloc; "{}|{}", encoded.as_str(), plain.as_str())
}

#[test]
fn texts_of_pairs(rt: HostRuntime) -> Result<(), Fail> {
    for row in TEXTS {
        let (pairs, want) = row.split_once('|').ok_or("no texts")?;
        assert_eq!(rt; (row, texts_of(rt.alloc(), pairs)?.as_str()), (row, want));
    }
    Ok(())
}

// An entry, as in PAIRS, and the head of its part; and last the line that closes all.
const PARTS: [&str; 5] = [
    "text|a\"||--B\r\nContent-Disposition: form-data; name=\"a%22\"\r\n\r\n",
    "text|a\nb||--B\r\nContent-Disposition: form-data; name=\"a%0D%0Ab\"\r\n\r\n",
    "file|f||--B\r\nContent-Disposition: form-data; name=\"f\"; filename=\"\"\r\nContent-Type: application/octet-stream\r\n\r\n",
    "file|é|x\ny\"\r.txt|--B\r\nContent-Disposition: form-data; name=\"é\"; filename=\"x%0Ay%22%0D.txt\"\r\nContent-Type: application/octet-stream\r\n\r\n",
    "end|||--B--\r\n",
];

#[test]
fn parts(rt: HostRuntime) -> Result<(), Fail> {
    let alloc = rt.alloc();
    for row in PARTS {
        let (entry, want) = entry_and_pair(alloc, row)?;
        let text = match row.strip_prefix("end|") {
            Some(_) => closing_line(alloc, "B")?,
            None => part_head(alloc, &entry, "B")?,
        };
        assert_eq!(rt; (row, text.as_str()), (row, want));
    }
    Ok(())
}

// The boundaries, each of one letter.
fn boundaries(alloc: Global, letters: &str) -> Result<Vec<String>, AllocError> {
    let mut boundaries = Vec::new(alloc);
    for letter in letters.chars() {
        boundaries.push(format!(in alloc; "{letter}")?)?;
    }
    Ok(boundaries)
}

// The bytes of parts, with `/` between each two, the letters that are the boundaries, and the place of
// the first that is free.
const BODIES: [&str; 10] = [
    "|BC-|0",
    "-B|BC-|0",
    "--B|BC-|1",
    "x--Bx|BC-|1",
    "--B--C|BC-|2",
    "--C|BC-|0",
    "---B--C|BC-|none",
    "--/B--C|BC|0",
    "--/B--C|C|none",
    "--/B--C||none",
];

fn place(alloc: Global, free: Option<usize>) -> Result<String, AllocError> {
    match free {
        Some(place) => format!(in alloc; "{place}"),
        None => String::from_str(alloc, "none"),
    }
}

fn chosen(alloc: Global, parts: &str, letters: &str) -> Result<String, AllocError> {
    let mut bodies = Vec::new(alloc);
    for part in parts.split('/') {
        bodies.push(part.as_bytes().to_vec(alloc)?)?;
    }
    let owned = boundaries(alloc, letters)?;
    if owned.iter().all(|bound| bound.as_str().len() <= 70) {
        return place(alloc, choose_boundary(&owned, &bodies));
    }
    String::from_str(alloc, "long")
}

#[test]
fn boundaries_that_are_free(rt: HostRuntime) -> Result<(), Fail> {
    for row in BODIES {
        let (parts, rest) = row.split_once('|').ok_or("no boundaries")?;
        let (letters, want) = rest.split_once('|').ok_or("no place")?;
        assert_eq!(rt;
            (row, chosen(rt.alloc(), parts, letters)?.as_str()),
            (row, want)
        );
    }
    Ok(())
}

// Pieces and parts that are fed, a piece behind each `|` and a part behind each `/`, the letters that
// are the boundaries, and the place of the first that is free then.
const FED: [&str; 14] = [
    ":BC-:0",
    "x-|-B/:BC-:1",
    "x-|-B:BC-:1",
    "x-|-B/-/-C/:BC-:1",
    "-/-B:BC-:0",
    "--|-|B:BC-:1",
    "|-||-||B|:BC-:1",
    "--B|--C:BC-:2",
    "--B/--C/:BC-:2",
    "--B/--C/--|-:BC-:none",
    "-----------------------------------------------------------------------------B|--C:BC-:none",
    "--|xxxxxxxxxxxxxxxxxxxxxxxxxxxxxxxxxxxxxxxxxxxxxxxxxxxxxxxxxxxxxxxxxxxxxxxxxxxxxx|B--C:BC-:0",
    "--|C:C:none",
    "--C::none",
];

fn feed(scan: &mut Scan, piece: &[u8], by_byte: bool) {
    if !by_byte {
        return scan.feed(piece);
    }
    for byte in piece {
        scan.feed(&[*byte]);
    }
}

// The first free boundary of what is fed, piece by piece or byte by byte.
fn fed(alloc: Global, fed: &str, letters: &str, by_byte: bool) -> Result<String, AllocError> {
    let owned = boundaries(alloc, letters)?;
    if !owned.iter().all(|bound| bound.as_str().len() <= 70) {
        return String::from_str(alloc, "long");
    }
    let mut scan = Scan::new(alloc, &owned)?;
    let mut ended = false;
    for part in fed.split('/') {
        if ended {
            scan.end_part();
        }
        ended = true;
        for piece in part.split('|') {
            feed(&mut scan, piece.as_bytes(), by_byte);
        }
    }
    place(alloc, scan.free())
}

#[test]
fn boundaries_that_are_free_of_what_was_fed(rt: HostRuntime) -> Result<(), Fail> {
    for row in FED {
        let (text, rest) = row.split_once(':').ok_or("no boundaries")?;
        let (letters, want) = rest.split_once(':').ok_or("no place")?;
        for by_byte in [false, true] {
            let free = fed(rt.alloc(), text, letters, by_byte)?;
            assert_eq!(rt; (row, free.as_str()), (row, want));
        }
    }
    Ok(())
}
