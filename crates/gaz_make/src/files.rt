//! The files of a trial.
ghost use Rattle.std.specs.Prelude.{◌≡◌, ◌≤◌, ◌∷◌, ◌++◌, [], ℕ, None, IsTrue, IfOk, OnOk};
ghost use Rattle.gaz_outside.specs.Listed.{file_named, listed};
ghost use Rattle.gaz_outside.specs.Memory.{failing_reads, listed_files, later_files, reads_made};
ghost use Rattle.gaz_make.specs.Chunk.{text_of};
ghost use Rattle.gaz_make.specs.Files.{changed_lines, delete_lines, load_files, day_files, made_files};
ghost use Rattle.gaz_make.specs.Made.{lined, made_table};

use crate::chunk::Chunk;
use crate::rows::{CHUNK_ROWS, Rows, push_delete};
use gaz_outside::{MemShelf, Shelf};
use std::alloc::{AllocError, Global};

/// A list of names and bytes.
type Files = Vec<(String, Vec<u8>)>;

/// The table.
fn table(alloc: Global, start: u64, rows: u32) -> Result<Vec<u8>, AllocError>
    requires { rows ≤ 1000000 }
    ensures { IfOk result (λ bytes. bytes.items ≡ made_table start rows) }
{
    let mut bytes = Vec::new(alloc);
    let mut chunk = Chunk::new();
    let mut made = Rows::new(start);
    while made.done() < rows {
        chunk.clear();
        made.fill(&mut chunk, CHUNK_ROWS.min(rows - made.done()));
        bytes.extend_from_slice(chunk.text())?;
    }
    Ok(bytes)
}

/// The rows that the day changes.
fn modifications(alloc: Global, start: u64, rows: u32) -> Result<Vec<u8>, AllocError>
    requires { rows ≤ 1000000 }
    ensures { IfOk result (λ bytes. bytes.items ≡ lined (changed_lines start rows)) }
{
    let mut bytes = Vec::new(alloc);
    let mut chunk = Chunk::new();
    let mut made = Rows::new(start);
    for _changed in 0..rows / 100 {
        made.skip(99);
        let row = made.next_row();
        chunk.clear();
        row.push(&mut chunk, 1_000_000, b"2000-01-02");
        bytes.extend_from_slice(chunk.text())?;
    }
    Ok(bytes)
}

/// The rows that the day deletes.
fn deletes(alloc: Global, rows: u32) -> Result<Vec<u8>, AllocError>
    requires { rows ≤ 1000000 }
    ensures { IfOk result (λ bytes. bytes.items ≡ lined (delete_lines rows)) }
{
    let mut bytes = Vec::new(alloc);
    let mut chunk = Chunk::new();
    for thousand in 0..(rows + 1) / 1_000 {
        chunk.clear();
        push_delete(&mut chunk, 1_000 * thousand + 999);
        bytes.extend_from_slice(chunk.text())?;
    }
    Ok(bytes)
}

/// Puts a file behind the others.
fn push_file(alloc: Global, files: &mut Files, name: &str, bytes: Vec<u8>) -> Result<(), AllocError>
    ensures { OnOk result (listed files.new.items ≡ listed files.old.items ++ (name.now, bytes.items) ∷ []) }
{
    files.push((String::from_str(alloc, name)?, bytes))?;
    Ok(())
}

/// The files of the load: the table, and the others empty.
fn push_load(alloc: Global, files: &mut Files, table: Vec<u8>) -> Result<(), AllocError>
    ensures { OnOk result (listed files.new.items ≡ listed files.old.items ++ load_files table.items) }
{
    push_file(alloc, files, "allCountries.txt", table)?;
    push_file(alloc, files, "alternateNamesV2.txt", Vec::new(alloc))?;
    push_file(alloc, files, "hierarchy.txt", Vec::new(alloc))?;
    push_file(alloc, files, "countryInfo.txt", Vec::new(alloc))?;
    push_file(alloc, files, "admin1CodesASCII.txt", Vec::new(alloc))?;
    push_file(alloc, files, "admin2Codes.txt", Vec::new(alloc))
}

/// The files of the day: no alternate name is changed.
fn push_day(
    alloc: Global,
    files: &mut Files,
    changed: Vec<u8>,
    deleted: Vec<u8>,
) -> Result<(), AllocError>
    ensures { OnOk result (listed files.new.items ≡ listed files.old.items ++ day_files changed.items deleted.items) }
{
    push_file(alloc, files, "modifications-2000-01-02.txt", changed)?;
    push_file(alloc, files, "deletes-2000-01-02.txt", deleted)?;
    push_file(
        alloc,
        files,
        "alternateNamesModifications-2000-01-02.txt",
        Vec::new(alloc),
    )?;
    push_file(
        alloc,
        files,
        "alternateNamesDeletes-2000-01-02.txt",
        Vec::new(alloc),
    )
}

/// A shelf with the files of a trial. None of its calls fails.
pub fn made_shelf(alloc: Global, start: u64, rows: u32) -> Result<MemShelf, AllocError>
    requires { rows ≤ 1000000 }
    ensures told { IfOk result (λ shelf. IsTrue (⟦<MemShelf as Shelf>⟧.view shelf).is_told) }
    ensures files { IfOk result (λ shelf. (⟦<MemShelf as Shelf>⟧.view shelf).files ≡ file_named (made_files start rows)) }
    ensures closed { IfOk result (λ shelf. (n : ℕ) → (⟦<MemShelf as Shelf>⟧.view shelf).opened n ≡ None) }
    ensures no_fault { IfOk result (λ shelf. (⟦<MemShelf as Shelf>⟧.view shelf).last_fault ≡ None) }
    ensures faults { IfOk result (λ shelf. (⟦<MemShelf as Shelf>⟧.view shelf).faults ≡ 0) }
    ensures kept { IfOk result (λ shelf. listed_files shelf ≡ made_files start rows) }
    ensures later { IfOk result (λ shelf. later_files shelf ≡ []) }
    ensures fails { IfOk result (λ shelf. failing_reads shelf ≡ []) }
    ensures calls { IfOk result (λ shelf. reads_made shelf ≡ 0) }
{
    let mut files = Vec::new(alloc);
    push_load(alloc, &mut files, table(alloc, start, rows)?)?;
    push_day(
        alloc,
        &mut files,
        modifications(alloc, start, rows)?,
        deletes(alloc, rows)?,
    )?;
    MemShelf::new(files, Vec::new(alloc))
}
