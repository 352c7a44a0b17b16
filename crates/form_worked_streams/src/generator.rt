// A generated page, and what is counted of one.
use form_generator::{Counts, generate, print_counts};
use std::alloc::{AllocError, Global};
use std::test::Fail;

// The page of four controls, one of each kind, the number of commands, and those on the second control.
const FOUR: &str =
    "<form><input name=\"c1\" required maxlength=\"3\"><input type=\"number\" name=\"c2\" min=\"0\" max=\"9\"><input type=\"checkbox\" name=\"c3\" required><input type=\"radio\" name=\"g0\" required></form>
40
user @3 \"a\"
set @3 \"12\"
attr @3 required \"\"
check @3
attr @3 type \"date\"
set @3 \"2024-02-29\"
attr @3 min \"2024-03-01\"
unattr @3 min
attr @3 type \"number\"
set @3 \"\"
";

fn four(alloc: Global) -> Result<String, AllocError> {
    let generated = generate(alloc, 4)?;
    let mut text = format!(in alloc; "{}\n{}\n", generated.page.as_str(), generated.lines.len())?;
    for line in generated.lines.iter().skip(10).take(10) {
        text.push_str(line.as_str())?;
        text.push('\n')?;
    }
    Ok(text)
}

#[test]
fn four_controls(rt: HostRuntime) -> Result<(), Fail> {
    assert_eq!(rt; four(rt.alloc())?.as_str(), FOUR);
    Ok(())
}

const COUNTS: &str = "controls 4\ncommands 40\nrefused 4\nchanges 30\ninvalid 2\n";

#[test]
fn counts_of_four_controls(rt: HostRuntime) -> Result<(), Fail> {
    let counts = Counts {
        controls: 4,
        commands: 40,
        refused: 4,
        changes: 30,
        invalid: 2,
    };
    assert_eq!(rt; print_counts(rt.alloc(), &counts)?.as_str(), COUNTS);
    Ok(())
}
