//! The class files among what was found, in the order of their paths, and `resolver.txt`.

ghost use Rattle.std.specs.Prelude.{◌≡◌, ◌≢◌, ◌≤◌, ◌+◌, ◌∷◌, ℕ, List, length, map, Contains, Err, IfOk, IsUtf8, Some, string_bytes, vec_len, bytes_eq, true, false, []};
ghost use Rattle.std.specs.List.{AllByRecursion, IsDistinct, list_any, filter};
ghost use Rattle.jk_model.specs.Outside.{FileIs, HasRisen, Tree};
ghost use Rattle.jk_model_folders.specs.FolderTrees.{MAX_FILE, MOST_LEVELS, RESOLVER};
ghost use Rattle.jk_outside.specs.Counts.{HasTaken};
ghost use Rattle.folder_reader.specs.AskedOnce.{AsksSome, whole_paths};
ghost use Rattle.folder_reader.specs.Calls.{HasFile, HasFolder, IsLongFile, Moves};
ghost use Rattle.folder_reader.specs.FolderAnswers.{IsLarge};
ghost use Rattle.folder_reader.specs.Listings.{AreRead, IsToRead};
ghost use Rattle.folder_reader.specs.Paths.{class_paths, is_class, is_resolver, IsRising, whole_path};
ghost use Rattle.folder_reader.specs.Walks.{AreFound};
ghost use Rattle.folder_reader.specs.declared.reading.FolderError.TheVariants as Why;

use crate::found::Found;
use crate::listing::read_file;
use crate::paths::text_of;
use crate::reading::FolderError;
use jk_model::{Bytes, List, OutOfMemory};
use jk_model_folders::FolderFile;
use jk_outside::Files;
use std::alloc::Global;

/// How many bytes all class files together may have.
const MOST_CLASS_BYTES: usize = 16_777_216;

/// Whether this is a class file.
fn is_class_file(found: &Found) -> bool
    ensures { result ≡ is_class found.now }
{
    !found.folder && found.path.as_slice().ends_with(b".class")
}

/// Whether this is the file `resolver.txt` directly in the folder.
fn is_resolver_file(found: &Found) -> bool
    ensures { result ≡ is_resolver found.now }
{
    !found.folder && found.path.as_slice() == b"resolver.txt".as_slice()
}

/// Whether the file `resolver.txt` is among these.
fn has_resolver(found: &[Found]) -> bool
    ensures { result ≡ list_any is_resolver found.now }
{
    found.iter().any(|f| is_resolver_file(f))
}

/// The paths of the class files as they were found.
fn unsorted_paths(alloc: Global, found: &[Found]) -> Result<Vec<String>, OutOfMemory>
    requires { AllByRecursion (λ f. IsUtf8 f.path) found.now }
    ensures { IfOk result (λ paths. map string_bytes paths.items ≡ class_paths found.now) }
{
    let mut paths = Vec::new(alloc);
    for f in found {
        if is_class_file(f) {
            paths.push(String::from_str(alloc, text_of(f.path.as_slice()))?)?;
        }
    }
    Ok(paths)
}

/// The paths of the class files in the order of their bytes, each once.
pub(crate) fn sorted_paths(alloc: Global, found: &[Found]) -> Result<Vec<String>, OutOfMemory>
    requires { AllByRecursion (λ f. IsUtf8 f.path) found.now }
    ensures rising { IfOk result (λ paths. IsRising (map string_bytes paths.items)) }
    ensures apart { IfOk result (λ paths. IsDistinct bytes_eq (map string_bytes paths.items)) }
    ensures kept { IfOk result (λ paths. (path : List ℕ) → Contains (class_paths found.now) path → Contains (map string_bytes paths.items) path) }
    ensures only { IfOk result (λ paths. (path : List ℕ) → Contains (map string_bytes paths.items) path → Contains (class_paths found.now) path) }
{
    let mut paths = unsorted_paths(alloc, found)?;
    paths.sort()?;
    paths.dedup();
    Ok(paths)
}

/// A class file.
fn read_class<F: Files>(
    alloc: Global,
    files: &mut F,
    root: &str,
    path: &str,
) -> Result<FolderFile, FolderError>
    requires to_read { IsToRead (F.tree files.old) root.now path.now }
    requires folder { HasFolder (F.tree files.old) root.now }
    ensures path { IfOk result (λ file. file.path ≡ path.now) }
    ensures bytes { IfOk result (λ file. FileIs (F.tree files.old) (whole_path root.now path.now) file.bytes) }
    ensures short { IfOk result (λ file. length file.bytes ≤ MAX_FILE) }
    ensures counted { IfOk result (λ file. HasTaken (F.tree files.old) (length file.bytes) (F.taken files.old) (F.taken files.new)) }
    ensures once { AsksSome (F.asked files.old) (F.asked files.new) [] (whole_path root.now path.now ∷ []) }
    ensures no_folder { result ≢ Err Why.NoFolder }
    ensures too_large { result ≡ Err Why.TooLarge → IsLarge (F.tree files.old) root.now }
    ensures large { result ≡ Err Why.TooLarge → HasTaken (F.tree files.old) (MOST_LEVELS + 1) (F.taken files.old) (F.taken files.new) }
    ensures read_fault { result ≡ Err Why.ReadFault → HasRisen (F.faults files.old) (F.faults files.new) }
    ensures something { result ≡ Err Why.ReadFault → F.asked files.new ≢ F.asked files.old }
    ensures calm { (t : Tree) → F.tree files.old ≡ Some t → result ≢ Err Why.ReadFault → F.faults files.new ≡ F.faults files.old }
    ensures moves { Moves root.now (F.tree files.old) (F.tree files.new) (F.faults files.old) (F.faults files.new)
        (F.taken files.old) (F.taken files.new) (F.asked files.old) (F.asked files.new) }
{
    let bytes = read_file(alloc, files, root, path)?;
    let path = Bytes::from_slice(alloc, path.as_bytes())?;
    Ok(FolderFile { path, bytes })
}

/// The class files at these paths.
pub(crate) fn read_classes<F: Files>(
    alloc: Global,
    files: &mut F,
    root: &str,
    paths: &[String],
) -> Result<List<FolderFile>, FolderError>
    requires to_read { AllByRecursion (IsToRead (F.tree files.old) root.now) (map string_bytes paths.now) }
    requires apart { IsDistinct bytes_eq (map string_bytes paths.now) }
    requires folder { HasFolder (F.tree files.old) root.now }
    ensures read { IfOk result (λ classes. AreRead (F.tree files.old) root.now (map string_bytes paths.now) classes) }
    ensures once { AsksSome (F.asked files.old) (F.asked files.new) [] (whole_paths root.now (map string_bytes paths.now)) }
    ensures no_folder { result ≢ Err Why.NoFolder }
    ensures too_large { result ≡ Err Why.TooLarge → IsLarge (F.tree files.old) root.now }
    ensures large { result ≡ Err Why.TooLarge → HasTaken (F.tree files.old) (MOST_LEVELS + 1) (F.taken files.old) (F.taken files.new) }
    ensures read_fault { result ≡ Err Why.ReadFault → HasRisen (F.faults files.old) (F.faults files.new) }
    ensures something { result ≡ Err Why.ReadFault → F.asked files.new ≢ F.asked files.old }
    ensures calm { (t : Tree) → F.tree files.old ≡ Some t → result ≢ Err Why.ReadFault → F.faults files.new ≡ F.faults files.old }
    ensures moves { Moves root.now (F.tree files.old) (F.tree files.new) (F.faults files.old) (F.faults files.new)
        (F.taken files.old) (F.taken files.new) (F.asked files.old) (F.asked files.new) }
{
    let mut classes = List::new(alloc);
    let mut sum = 0;
    for path in paths {
        let class = read_class(alloc, files, root, path.as_str())?;
        sum += class.bytes.len();
        if sum > MOST_CLASS_BYTES {
            return Err(FolderError::TooLarge);
        }
        classes.push(class)?;
    }
    Ok(classes)
}

/// The bytes of `resolver.txt`; none where there is no such file.
pub(crate) fn read_resolver<F: Files>(
    alloc: Global,
    files: &mut F,
    root: &str,
    found: &[Found],
) -> Result<Bytes, FolderError>
    requires { list_any is_resolver found.now ≡ true → HasFile (F.tree files.old) (whole_path root.now RESOLVER) }
    ensures bytes { IfOk result (λ bytes. list_any is_resolver found.now ≡ true → FileIs (F.tree files.old) (whole_path root.now RESOLVER) bytes) }
    ensures none { IfOk result (λ bytes. list_any is_resolver found.now ≡ false → bytes ≡ []) }
    ensures short { IfOk result (λ bytes. length bytes ≤ MAX_FILE) }
    ensures once { AsksSome (F.asked files.old) (F.asked files.new) [] (whole_path root.now RESOLVER ∷ []) }
    ensures no_folder { result ≢ Err Why.NoFolder }
    ensures too_large { result ≡ Err Why.TooLarge → (list_any is_resolver found.now ≡ true) × IsLongFile (F.tree files.old) (whole_path root.now RESOLVER) }
    ensures large { result ≡ Err Why.TooLarge → HasTaken (F.tree files.old) (MOST_LEVELS + 1) (F.taken files.old) (F.taken files.new) }
    ensures read_fault { result ≡ Err Why.ReadFault → HasRisen (F.faults files.old) (F.faults files.new) }
    ensures something { result ≡ Err Why.ReadFault → F.asked files.new ≢ F.asked files.old }
    ensures calm { (t : Tree) → F.tree files.old ≡ Some t → result ≢ Err Why.ReadFault → F.faults files.new ≡ F.faults files.old }
    ensures moves { Moves root.now (F.tree files.old) (F.tree files.new) (F.faults files.old) (F.faults files.new)
        (F.taken files.old) (F.taken files.new) (F.asked files.old) (F.asked files.new) }
{
    if has_resolver(found) {
        read_file(alloc, files, root, "resolver.txt")
    } else {
        Ok(Bytes::new(alloc))
    }
}
