//! What the definitions say of records and their bytes. The functions have no bodies: each stands for its
//! clauses.

ghost use Rattle.std.specs.Prelude.{◌≡◌, ℕ, ◌<◌, ◌^◌, List, length};
ghost use Rattle.jk_model.specs.declared.class_file.ClassFile.{ClassFile};
ghost use Rattle.jk_model.specs.ClassFile.{class_bytes, IsClass};
ghost use Rattle.jk_model.specs.ReadFaults.{IsWritable};

/// What is written of a record is the class file of that record, and of no other.
pub fn written_is_read()
    ensures same { (c : ClassFile) → IsWritable c → IsClass (class_bytes c) c }
    ensures only { (c d : ClassFile) → IsWritable c → IsClass (class_bytes c) d → d ≡ c }
{}

/// A class file has one spelling: its bytes are those that are written of its record. The record can be
/// written unless they are too many.
pub fn one_spelling()
    ensures spelling { (bytes : List ℕ) (c : ClassFile) → IsClass bytes c → bytes ≡ class_bytes c }
    ensures writable { (bytes : List ℕ) (c : ClassFile) → IsClass bytes c → length bytes < 2 ^ 31
        → IsWritable c }
{}
