// The top call.
ghost use Rattle.std.specs.Prelude.{◌≡◌, ◌≢◌, ℕ, ◌+◌, ◌≤◌, ◌⊎◌, All, IfSome, IsSome, None, Some, false, length, List, Ok, map, string_bytes, true};
ghost use Rattle.form_ports.specs.Ports.{Rose};
ghost use Rattle.form_ports.specs.Shelf.{contents_of, numbers_of};
ghost use Rattle.form_input.specs.Limits.{most_input, too_many};
ghost use Rattle.form_input.specs.Words.{Generated, asks_generated, file_words, task_of};
ghost use Rattle.url.specs.Parts.{Parts};
ghost use Rattle.form_tree.specs.declared.node.Raw.{Raw};
ghost use Rattle.form_acts.specs.Soundness.{IsSound};
ghost use Rattle.form_run.specs.Replies.{session_after_all};
ghost use Rattle.form_run.specs.Session.{Files, opened};
ghost use Rattle.form_run.specs.Taken.{page_in};
ghost use Rattle.form_run.specs.Ended.{AllTell, HasEnded, HasFilesUpTo, HasOneText, HasWritten, IsCompleteOf, IsPageOf, IsUnread, IsWhole};
ghost use Rattle.form_run.specs.Fronts.{HasKnownFront, HasOneFront};
ghost use Rattle.form_run.specs.Endings.{NoneCame, SomeChanged, SomeFileRose};
ghost use Rattle.form_run.specs.Transcript.{AreExpectedUpTo, IsEnd, IsSilent, IsUntouched, PageIs, WroteAll, WroteInputPart};

use crate::counting::write_generated;
use crate::status::Status;
use crate::transcript::transcribe;
use form_input::{ReadStop, Task, TaskStop, read_all, task_of};
use form_ports::{Blob, Sink, Source};
use std::alloc::Global;
use std::marker::Brand;
use std::sync::ledger::Blank;
use url::Url;

// Reads the whole input, and writes its transcript. The shelf has one file for each name.
fn run_page<S: Source, K: Sink>(
    alloc: Global,
    base: Url,
    names: Vec<String>,
    source: &mut S,
    sink: &mut K,
    shelf: &mut Vec<Option<Box<dyn Blob>>>,
) -> Status
    requires files { length names.items ≡ length shelf.old.items }
    requires there { All IsSome shelf.old.items }
    ensures end { IsEnd result ≡ true → WroteAll (contents_of (λ b. content b) shelf.old.items)
        (contents_of (λ b. content b) shelf.new.items) base (map string_bytes names.items) (S.held source.old)
        (S.held source.new) (S.given source.old) (S.given source.new) result (K.written sink.old) (K.written sink.new) }
    ensures part { IfSome (S.held source.old) (λ input. WroteInputPart (contents_of (λ b. content b) shelf.old.items) base
        (map string_bytes names.items) input (K.written sink.old) (K.written sink.new)) }
    ensures silent { IsSilent result ≡ true → K.written sink.new ≡ K.written sink.old }
    ensures page { IfSome (S.held source.old) (PageIs result) }
    ensures usage { result ≢ Status.Usage }
    ensures read_fault { result ≡ Status.ReadFault → Rose (S.faults source.old) (S.faults source.new) }
    ensures write_fault { result ≡ Status.WriteFault → Rose (K.faults sink.old) (K.faults sink.new) }
    ensures file_fault { result ≡ Status.FileFault
        → SomeFileRose (numbers_of (λ b. (⟦<dyn Blob as Blob>⟧ b.vtable).faults b.value) shelf.old.items)
        (numbers_of (λ b. (⟦<dyn Blob as Blob>⟧ b.vtable).faults b.value) shelf.new.items) }
    ensures changed { (a b : ℕ) → result ≡ Status.FileChanged a b
        → SomeChanged (contents_of (λ b. content b) shelf.new.items) (numbers_of (λ b. position b) shelf.new.items) a b }
    ensures too_long { result ≡ Status.TooLong → S.given source.new ≡ S.given source.old + too_many }
    ensures only_too_long { S.given source.new ≡ S.given source.old + too_many
        → (result ≡ Status.TooLong) ⊎ (result ≡ Status.Memory) }
    ensures most { S.given source.new ≤ S.given source.old + too_many }
    ensures complete { IfSome (S.held source.old) (λ input. length input ≤ most_input
        → AllTell (contents_of (λ b. content b) shelf.old.items)
        → ¬ (Rose (S.faults source.old) (S.faults source.new)) → ¬ (Rose (K.faults sink.old) (K.faults sink.new))
        → ¬ (SomeFileRose (numbers_of (λ b. (⟦<dyn Blob as Blob>⟧ b.vtable).faults b.value) shelf.old.items)
        (numbers_of (λ b. (⟦<dyn Blob as Blob>⟧ b.vtable).faults b.value) shelf.new.items))
        → (result ≡ Status.Memory) ⊎ IsWhole (contents_of (λ b. content b) shelf.old.items) base
        (map string_bytes names.items) input result (S.held source.new) (K.written sink.old) (K.written sink.new)) }
    ensures untouched { IsUntouched result ≡ true → shelf.new.items ≡ shelf.old.items }
    ensures kept { IfSome (S.held source.old) (λ input. AreExpectedUpTo base (map string_bytes names.items) input
        (contents_of (λ b. content b) shelf.old.items) (contents_of (λ b. content b) shelf.new.items)
        shelf.old.items shelf.new.items) }
    ensures counts { NoneCame (numbers_of (λ b. (⟦<dyn Blob as Blob>⟧ b.vtable).faults b.value) shelf.old.items)
        (numbers_of (λ b. (⟦<dyn Blob as Blob>⟧ b.vtable).faults b.value) shelf.new.items) }
    ensures later { (S.faults source.old ≤ S.faults source.new) × (K.faults sink.old ≤ K.faults sink.new) }
{
    match read_all(alloc, source) {
        Ok(input) => transcribe::<K, Brand>(Blank::new(1), alloc, base, names, input, shelf, sink),
        Err(ReadStop::Fault) => Status::ReadFault,
        Err(ReadStop::TooLong) => Status::TooLong,
        Err(ReadStop::Memory) => Status::Memory,
    }
}

/// Reads a page and commands, and writes the transcript; or writes the counts of a generated page.
///
/// The words are the document's URL and the files, whose names are the last components of their words;
/// or `--generate` and a number of controls up to 5,000. The source is read to its end, up to 16,777,216
/// bytes: a page, and behind a line that is exactly `%script` the commands, one a line. The shelf has one
/// file for each word behind the first. Nothing is sent: a request is printed.
pub fn run<S: Source, K: Sink>(
    alloc: Global,
    words: &[String],
    source: &mut S,
    sink: &mut K,
    shelf: &mut Vec<Option<Box<dyn Blob>>>,
) -> Status
    requires files { asks_generated (map string_bytes words.now) ≡ false
        → length (file_words (map string_bytes words.now)) ≡ length shelf.old.items }
    requires there { asks_generated (map string_bytes words.now) ≡ false → All IsSome shelf.old.items }

    // With such an end some input was read whole, exactly its transcript was written, and the files are those that its
    // commands leave; of a generated page the counts were written.
    ensures end { HasEnded (task_of (map string_bytes words.now)) (contents_of (λ b. content b) shelf.old.items)
        (contents_of (λ b. content b) shelf.new.items) (S.held source.old) (S.held source.new) (S.given source.old)
        (S.given source.new) result (K.written sink.old) (K.written sink.new) }

    // In every ending what was written is a front of the text.
    ensures part { HasWritten (task_of (map string_bytes words.now)) (contents_of (λ b. content b) shelf.old.items)
        (S.held source.old) (K.written sink.old) (K.written sink.new) }
    ensures silent { IsSilent result ≡ true → K.written sink.new ≡ K.written sink.old }

    // Where each name has a file that tells its content, there is one such text.
    ensures one { (files : Files) (base : Parts) (names : List (List ℕ)) (input : List ℕ) → HasOneText files base names input }

    // Up to the first submission that is decided by the content of a file that does not tell it there is one, whatever
    // files tell; each such text begins with that.
    ensures front { (files : Files) (base : Parts) (names : List (List ℕ)) (input : List ℕ) → HasOneFront files base names input }

    // Of the files that the run has: what it wrote begins with that front, or, where it did not come to its end, is the
    // beginning of it.
    ensures known { HasKnownFront (task_of (map string_bytes words.now)) (contents_of (λ b. content b) shelf.old.items)
        (S.held source.old) result (K.written sink.old) (K.written sink.new) }

    // Whatever page is read, it is sound as it opens and after each command.
    ensures sound { (input : List ℕ) (raws : List Raw) (base : Parts) (names lines : List (List ℕ)) → page_in input ≡ Ok raws
        → IsSound (session_after_all (opened base raws names) lines).page }

    // With Done the input is UTF-8 and spells a page; with Page it is not UTF-8, or its page has a fault.
    ensures page { IsPageOf (task_of (map string_bytes words.now)) (S.held source.old) result }

    // Each ending has its cause; want of memory alone is free.
    ensures usage { result ≡ Status.Usage → task_of (map string_bytes words.now) ≡ None }
    ensures only_usage { task_of (map string_bytes words.now) ≡ None
        → (result ≡ Status.Usage) ⊎ (result ≡ Status.Memory) }
    ensures unread { IsUnread (task_of (map string_bytes words.now)) (S.held source.old) (S.held source.new)
        (S.given source.old) (S.given source.new) }
    ensures read_fault { result ≡ Status.ReadFault → Rose (S.faults source.old) (S.faults source.new) }
    ensures write_fault { result ≡ Status.WriteFault → Rose (K.faults sink.old) (K.faults sink.new) }
    ensures file_fault { result ≡ Status.FileFault
        → SomeFileRose (numbers_of (λ b. (⟦<dyn Blob as Blob>⟧ b.vtable).faults b.value) shelf.old.items)
        (numbers_of (λ b. (⟦<dyn Blob as Blob>⟧ b.vtable).faults b.value) shelf.new.items) }
    ensures changed { (a b : ℕ) → result ≡ Status.FileChanged a b
        → SomeChanged (contents_of (λ b. content b) shelf.new.items) (numbers_of (λ b. position b) shelf.new.items) a b }
    ensures too_long { result ≡ Status.TooLong → S.given source.new ≡ S.given source.old + too_many }
    ensures only_too_long { S.given source.new ≡ S.given source.old + too_many
        → (result ≡ Status.TooLong) ⊎ (result ≡ Status.Memory) }

    // No more is read than tells that the input is too long.
    ensures most { S.given source.new ≤ S.given source.old + too_many }

    // Where no count rose and all bytes are told, the whole text is written, or memory was refused.
    ensures complete { IsCompleteOf (task_of (map string_bytes words.now)) (contents_of (λ b. content b) shelf.old.items)
        (S.held source.old) (S.held source.new) (Rose (S.faults source.old) (S.faults source.new))
        (Rose (K.faults sink.old) (K.faults sink.new))
        (SomeFileRose (numbers_of (λ b. (⟦<dyn Blob as Blob>⟧ b.vtable).faults b.value) shelf.old.items)
        (numbers_of (λ b. (⟦<dyn Blob as Blob>⟧ b.vtable).faults b.value) shelf.new.items))
        result (K.written sink.old) (K.written sink.new) }

    // No file is gone but those that were withdrawn so far, and none tells another content. A file that is there and that
    // no accepted command chose is the very same, with its position and its count of faults. No file is touched for a
    // generated page.
    ensures untouched { IsUntouched result ≡ true → shelf.new.items ≡ shelf.old.items }
    ensures generated { (count : ℕ) → task_of (map string_bytes words.now) ≡ Some (Generated count)
        → shelf.new.items ≡ shelf.old.items }
    ensures kept { HasFilesUpTo (task_of (map string_bytes words.now)) (S.held source.old)
        (contents_of (λ b. content b) shelf.old.items) (contents_of (λ b. content b) shelf.new.items)
        shelf.old.items shelf.new.items }
    ensures counts { NoneCame (numbers_of (λ b. (⟦<dyn Blob as Blob>⟧ b.vtable).faults b.value) shelf.old.items)
        (numbers_of (λ b. (⟦<dyn Blob as Blob>⟧ b.vtable).faults b.value) shelf.new.items) }
    ensures later { (S.faults source.old ≤ S.faults source.new) × (K.faults sink.old ≤ K.faults sink.new) }
{
    match task_of(alloc, words) {
        Ok(
            Task::Page {
                base: base,
                names: names,
            },
        ) => run_page(alloc, base, names, source, sink, shelf),
        Ok(Task::Generated(count)) => {
            write_generated::<K, Brand>(Blank::new(1), alloc, count, sink)
        }
        Err(TaskStop::Usage) => Status::Usage,
        Err(TaskStop::Memory) => Status::Memory,
    }
}
