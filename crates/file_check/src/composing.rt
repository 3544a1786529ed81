//! Composing a file.

ghost use Rattle.std.specs.Prelude.{◌≡◌, IfOk};
ghost use Rattle.frozen_model.specs.Values.{Value};
ghost use Rattle.frozen_model.specs.Packing.{Packs};
ghost use Rattle.frozen_model.specs.Holding.{Holds};
ghost use Rattle.frozen_model.specs.Files.{File, frozen};
ghost use Rattle.frozen_laws.specs.Laws.{IsContent};
ghost use Rattle.layout_tree.specs.Nodes.{layout_of, IsSettled};
ghost use Rattle.layout_schema.specs.Answers.{SchemaBytes};
ghost use Rattle.file_check.specs.Held.{PacksValue};
ghost use Rattle.file_check.specs.Written.{written};

use crate::front::header;
use layout_schema::{schemas_are_short, write_schema, written_schema_is_schema};
use layout_tree::{Layouts, layouts_are_described};
use std::alloc::{AllocError, Global};

/// The frozen file of the value that the content packs, with the layout's schema in its canonical spelling.
pub fn compose(alloc: Global, layouts: &Layouts, content: Vec<u8>) -> Result<Vec<u8>, AllocError>
    requires settled { IsSettled layouts.now }
    requires content { ∥ PacksValue (layout_of layouts.now).tree content.items ∥₁ }
    ensures frozen { let d = layout_of layouts.now in IfOk result (λ out. (v : Value) → Holds d.tree v
        → Packs d.tree v content.items → out.items ≡ frozen written d v) }
    ensures file { let d = layout_of layouts.now in IfOk result (λ out. (v : Value)
        → IsContent d.tree v content.items → File SchemaBytes out.items d v) }
{
    layouts_are_described(layouts);
    written_schema_is_schema();
    schemas_are_short();
    let schema = write_schema(alloc, layouts)?;
    let mut file = Vec::new(alloc);
    file.extend_from_slice(&header(schema.len() as u32))?;
    file.extend_from_slice(&schema)?;
    file.extend_from_slice(&content)?;
    Ok(file)
}
