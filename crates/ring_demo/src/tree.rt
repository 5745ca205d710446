//! The folders of the demo.

ghost use Rattle.std.specs.Prelude.{◌≡◌, ◌+◌, ◌<◌, ◌++◌, ◌∷◌, [], decimal, codes, string_bytes, IfOk, OnOk};
ghost use Rattle.jk_model.specs.Outside.{◌/-◌};
ghost use Rattle.ring_demo.specs.DemoTree.{IsNewPath, demo_files, file_in, tree_files};
ghost use Rattle.ring_demo.specs.Measures.{domains_of};

use crate::class_files::{GO_CLASS, HOP_CLASS, IMPL_CLASS, MAIN_CLASS, NODE_CLASS};
use crate::files::DemoFiles;
use crate::measures::domains_of;
use jk_model::OutOfMemory;
use jk_outside::MemoryFiles;
use std::alloc::Global;

/// The folder that the domains' folders stand in.
pub const ROOT: &str = "demo";

/// What the folder of the rings' classes says of them: any domain may have them.
pub const SHARES: &[u8] = b"share Hop\nshare Node\n";

/// What the folder of a ring's domain says: it has `Hop`, and with it `Node`, from the first.
pub const IMPORTS: &[u8] = b"import base Hop\n";

/// Puts a file into a folder below the root.
fn put(
    files: &mut MemoryFiles,
    alloc: Global,
    folder: &str,
    name: &str,
    bytes: &[u8],
) -> Result<(), OutOfMemory>
    requires { IsNewPath files.old.files (ROOT.now /- folder.now /- name.now) }
    ensures { OnOk result (files.new ≡ record files.old { files = files.old.files ++ file_in folder.now name.now bytes.now ∷ [] }) }
{
    let path = format!(in alloc; "{ROOT}/{folder}/{name}")?;
    files.add(path.as_str(), bytes)
}

/// Puts in the folder of the rings' classes.
fn put_base(files: &mut MemoryFiles, alloc: Global) -> Result<(), OutOfMemory>
    requires { files.old.files ≡ [] }
    ensures { OnOk result (files.new ≡ record files.old { files = tree_files 0 }) }
{
    put(files, alloc, "base", "Hop.class", HOP_CLASS)?;
    put(files, alloc, "base", "Node.class", NODE_CLASS)?;
    put(files, alloc, "base", "resolver.txt", SHARES)
}

/// Puts in the folder of one more domain of the ring.
fn put_domain(files: &mut MemoryFiles, alloc: Global, domain: u32) -> Result<(), OutOfMemory>
    requires few { domain < 8 }
    requires so_far { files.old.files ≡ tree_files domain }
    ensures { OnOk result (files.new ≡ record files.old { files = tree_files (domain + 1) }) }
{
    let folder = format!(in alloc; "d{domain}")?;
    let name = folder.as_str();
    put(files, alloc, name, "Main.class", MAIN_CLASS)?;
    put(files, alloc, name, "Impl.class", IMPL_CLASS)?;
    put(files, alloc, name, "Go.class", GO_CLASS)?;
    put(files, alloc, name, "resolver.txt", IMPORTS)
}

/// The files of the demo of a seed.
#[tactic(auto, using(crate::proofs::RingNames::few_domains))]
pub fn demo_files(alloc: Global, seed: u32) -> Result<DemoFiles, OutOfMemory>
    ensures files { IfOk result (λ files. files.files ≡ demo_files seed) }
    ensures unasked { IfOk result (λ files. files.asked ≡ []) }
{
    let mut files = MemoryFiles::new(alloc);
    put_base(&mut files, alloc)?;
    for domain in 0..domains_of(seed) {
        put_domain(&mut files, alloc, domain)?;
    }
    Ok(DemoFiles::of(files))
}
