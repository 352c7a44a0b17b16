// What the words of a call ask for.
ghost use Rattle.std.specs.Prelude.{◌≡◌, ◌&&◌, Err, IfOk, None, Ok, Some, bytes_eq, decimal, map, nat_le, option_map, string_bytes};
ghost use Rattle.std.specs.Result.{result_ok};
ghost use Rattle.form_generator.specs.Limits.{most_generated};
ghost use Rattle.url.specs.Parser.{parse_url};
ghost use Rattle.form_input.specs.Words.{Generated, Page, count_in, file_name, generated_count, is_generate, plain_task, task_of};

use itoa::Buffer;
use std::alloc::{AllocError, Global};
use url::{ParseError, Url};

/// The most controls of a generated page.
const MOST_GENERATED: u32 = 5000;

/// What the words ask for.
#[derive(Drop)]
pub enum Task {
    /// A page and its script, which the input holds; the document has that URL, and the files have
    /// those names.
    Page { base: Url, names: Vec<String> },
    /// A generated page of so many controls, from 1 to 5,000.
    Generated(u32),
}

/// Why there is no task.
#[derive(Clone, Copy, Debug, PartialEq, Eq)]
pub enum TaskStop {
    /// The words are of neither form, or the URL is none.
    Usage,
    Memory,
}

// The name of a file: what stands behind the last `/` of its path.
fn file_name(path: &str) -> &str
    ensures { result.now ≡ file_name path.now }
{
    match path.rsplit_once('/') {
        Some((_, name)) => name,
        None => path,
    }
}

fn file_names(alloc: Global, paths: &[String]) -> Result<Vec<String>, AllocError>
    ensures { IfOk result (λ names. map string_bytes names.items ≡ map file_name (map string_bytes paths.now)) }
{
    let mut names = Vec::new(alloc);
    for path in paths {
        names.push(String::from_str(alloc, file_name(path.as_str()))?)?;
    }
    Ok(names)
}

// Whether the word is how that number of controls is written.
fn is_count(word: &str, count: u32) -> bool
    ensures { result ≡ (nat_le 1 count && (nat_le count most_generated && bytes_eq word.now (decimal count))) }
{
    let mut digits = Buffer::new();
    1 <= count && count <= MOST_GENERATED && digits.format(count) == word
}

// How many controls the word asks for.
fn generated_count(word: &str) -> Option<u32>
    ensures { result ≡ generated_count word.now }
{
    match word.parse::<u32>() {
        Ok(count) => {
            if is_count(word, count) {
                return Some(count);
            }
            None
        }
        Err(_) => None,
    }
}

fn count_in(words: &[String]) -> Option<u32>
    ensures { result ≡ count_in (map string_bytes words.now) }
{
    match words {
        [word] => generated_count(word.as_str()),
        _ => None,
    }
}

fn is_generate(word: &str) -> bool
    ensures { result ≡ is_generate word.now }
{
    word == "--generate"
}

// The task of the words behind `--generate`.
fn generated_task(words: &[String]) -> Result<Task, TaskStop>
    ensures ok { IfOk result (λ task. option_map Generated (count_in (map string_bytes words.now))
        ≡ Some (plain_task task)) }
    ensures usage { result ≡ Err TaskStop.Usage → option_map Generated (count_in (map string_bytes words.now)) ≡ None }
{
    match count_in(words) {
        Some(count) => Ok(Task::Generated(count)),
        None => Err(TaskStop::Usage),
    }
}

// The URL of the document.
fn base_of(alloc: Global, word: &str) -> Result<Url, TaskStop>
    ensures ok { IfOk result (λ base. parse_url None word.now ≡ Ok base) }
    ensures usage { result ≡ Err TaskStop.Usage → result_ok (parse_url None word.now) ≡ None }
{
    match Url::parse(alloc, word) {
        Ok(base) => Ok(base),
        Err(ParseError::OutOfMemory | ParseError::Overflow) => Err(TaskStop::Memory),
        Err(_) => Err(TaskStop::Usage),
    }
}

// The task of a URL and the paths of files.
fn page_task(alloc: Global, word: &str, paths: &[String]) -> Result<Task, TaskStop>
    ensures ok { IfOk result (λ task.
        option_map (λ base. Page base (map file_name (map string_bytes paths.now))) (result_ok (parse_url None word.now))
        ≡ Some (plain_task task)) }
    ensures usage { result ≡ Err TaskStop.Usage → result_ok (parse_url None word.now) ≡ None }
{
    let base = match base_of(alloc, word) {
        Ok(base) => base,
        Err(stop) => return Err(stop),
    };
    match file_names(alloc, paths) {
        Ok(names) => Ok(Task::Page { base, names }),
        Err(_) => Err(TaskStop::Memory),
    }
}

/// The task that the words ask for: `--generate` and a number, or a URL and the paths of files. It is
/// a usage error exactly where they ask for none.
#[tactic(auto, unfolding(crate::specs::Words::task_of))]
pub fn task_of(alloc: Global, words: &[String]) -> Result<Task, TaskStop>
    ensures ok { IfOk result (λ task. task_of (map string_bytes words.now) ≡ Some (plain_task task)) }
    ensures usage { result ≡ Err TaskStop.Usage → task_of (map string_bytes words.now) ≡ None }
{
    match words {
        [first, others @ ..] => {
            if is_generate(first.as_str()) {
                return generated_task(others);
            }
            page_task(alloc, first.as_str(), others)
        }
        [] => Err(TaskStop::Usage),
    }
}
