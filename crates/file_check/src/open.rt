//! Opening a file.

ghost use Rattle.std.specs.Prelude.{◌≡◌, ◌⊎◌, ◌<◌, ◌^◌, length, Err, IfOk, IfErr};
ghost use Rattle.frozen_model.specs.Values.{Value};
ghost use Rattle.frozen_model.specs.Layouts.{Described};
ghost use Rattle.frozen_model.specs.Files.{File};
ghost use Rattle.content_check.specs.Agreeing.{fault_of};
ghost use Rattle.layout_schema.specs.Answers.{SchemaBytes};
ghost use Rattle.file_check.specs.Opening.{IsFileOf, IsFirstFault, OpensAs, fault_in, fault_with};

use crate::fault::OpenFault;
use crate::opened::Opened;
use crate::parts::parts;
use content_check::{ContentFault, check_content};
use layout_schema::{SchemaFault, read_schema, schemas_are_exact};
use layout_tree::layouts_are_described;
use std::alloc::Global;

// What is wrong with a schema, as what is wrong with its file.
fn schema_fault(fault: SchemaFault) -> OpenFault
    ensures { result ≡ fault_with fault }
{
    match fault {
        SchemaFault::NoMemory => OpenFault::NoMemory,
        fault => OpenFault::Schema(fault),
    }
}

// What is wrong with a content, as what is wrong with its file.
fn content_fault(fault: ContentFault) -> OpenFault
    ensures { result ≡ fault_in (fault_of fault) }
{
    match fault {
        ContentFault::Short => OpenFault::Short,
        ContentFault::Long(n) => OpenFault::Long(n),
        ContentFault::Distance { bit, found, wanted } => OpenFault::Distance { bit, found, wanted },
        ContentFault::Dirty(bit) => OpenFault::Dirty(bit),
        ContentFault::BadText(byte) => OpenFault::BadText(byte),
        ContentFault::KeyOrder(bit) => OpenFault::KeyOrder(bit),
        ContentFault::TooManyCells => OpenFault::TooManyCells,
        ContentFault::OutOfRange(bit) => OpenFault::Range(bit),
    }
}

/// Opens a frozen file: its layout and its content, where the bytes are the frozen file of some value;
/// otherwise the first condition of docs/FORMAT.md that fails. The content is not copied, and its value is
/// not made.
pub fn open_frozen<'a>(alloc: Global, bytes: &'a [u8]) -> Result<Opened<'a>, OpenFault>
    requires { length bytes.now < 2 ^ 56 }
    ensures file { IfOk result (λ opened. IsFileOf bytes.now opened) }
    ensures every { (d : Described) (v : Value) → File SchemaBytes bytes.now d v → OpensAs d result }
    ensures fault { IfErr result (λ f. IsFirstFault bytes.now f ⊎ (f ≡ OpenFault.NoMemory)) }
    ensures only { (f : OpenFault) → IsFirstFault bytes.now f
        → (result ≡ Err f) ⊎ (result ≡ Err OpenFault.NoMemory) }
{
    schemas_are_exact();
    let (schema, content) = match parts(bytes) {
        Ok(parts) => parts,
        Err(fault) => return Err(fault),
    };
    let layouts = match read_schema(alloc, schema) {
        Ok(layouts) => layouts,
        Err(fault) => return Err(schema_fault(fault)),
    };
    layouts_are_described(&layouts);
    match check_content(&layouts, content) {
        Ok(_) => Ok(Opened { content, layouts }),
        Err(fault) => Err(content_fault(fault)),
    }
}
